// A feed's steps.
ghost use Rattle.std.specs.Prelude.{◌≡◌, ◌+◌, ◌<◌, ◌≤◌, length, MatchOption};
ghost use Rattle.console.specs.Feed.{source, place as place_of, taken as taken_of, left, answer, next, bytes_taken, messages_taken};
ghost use Rattle.fix.specs.Message.{parse_first};

use crate::feed::{Feed, Stopped};
use fix::{Command, read_first};

impl<'a> Feed<'a> {
    /// The messages of these bytes, from the first on.
    pub fn new(bytes: &'a [u8]) -> Feed<'a>
        ensures source { source result ≡ bytes.now }
        ensures place { place_of result ≡ 0 }
        ensures taken { taken_of result ≡ 0 }
    {
        Feed {
            bytes,
            at: 0,
            count: 0,
        }
    }

    /// How many bytes were taken.
    pub fn place(&self) -> usize
        ensures value { result ≡ place_of self.now }
    {
        self.at
    }

    /// How many messages were taken.
    pub fn taken(&self) -> usize
        ensures value { result ≡ taken_of self.now }
    {
        self.count
    }

    /// The command of the next message; none at the end. A refused message is not taken.
    pub fn next(&mut self) -> Option<Result<Command, Stopped>>
        ensures answer { answer result ≡ next self.old }
        ensures source { source self.new ≡ source self.old }
        ensures place { place_of self.new ≡ place_of self.old + bytes_taken (parse_first (left self.old)) }
        ensures taken { taken_of self.new ≡ taken_of self.old + messages_taken (parse_first (left self.old)) }
    {
        let at = self.at;
        let rest = &self.bytes[at..];
        if rest.is_empty() {
            return None;
        }
        match read_first(rest) {
            Ok(first) => {
                self.at = at + first.length;
                self.count += 1;
                Some(Ok(first.command))
            }
            Err(why) => Some(Err(Stopped {
                why,
                message: self.count + 1,
                byte: at + why.place(),
            })),
        }
    }
}
