// The messages of a feed, one after the other.
ghost use Rattle.std.specs.Prelude.{◌≡◌, false};
ghost use Rattle.console.specs.Messages.{Gives, most_left};

use crate::feed::{Feed, Stopped};
use fix::Command;

/// Goes over the messages that a feed has left, and ends behind a refused one.
#[derive(Drop)]
pub struct Messages<'f, 'a> {
    feed: &'f mut Feed<'a>,
    stopped: bool,
}

impl<'a> Feed<'a> {
    /// The messages that are left: the commands, and at last the refusal where the run stops at one.
    pub fn messages<'f>(&'f mut self) -> Messages<'f, 'a>
        ensures same { result.feed.ghost_name ≡ self.entry.ghost_name }
        ensures feed { result.feed.now ≡ self.old }
        ensures on { result.stopped ≡ false }
    {
        Messages {
            feed: self,
            stopped: false,
        }
    }
}

impl<'f, 'a> Iterator for Messages<'f, 'a> {
    type Item = Result<Command, Stopped>;

    ghost next_gives = { Gives };

    ghost remaining = { most_left };

    fn next(&mut self) -> Option<Result<Command, Stopped>> {
        if self.stopped {
            return None;
        }
        let feed = &mut *self.feed;
        let next = feed.next();
        self.stopped = next.is_some_and(|message| message.is_err());
        next
    }
}
