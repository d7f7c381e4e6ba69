// Messages read: fields first, then the count, then the sum. The count is never used to find the way.
ghost use Rattle.std.specs.Prelude.{◌≡◌, ◌%◌, length, IfErr, sum};
ghost use Rattle.fix.specs.Message.{checked, parse, parse_first};
ghost use Rattle.fix.specs.Refusal.{answer, first_answer, place_of, Inside};
ghost use Rattle.fix.specs.Step.{form_of, Ordered};

use crate::command::Command;
use crate::layout::{Form, read_form};
use crate::refusal::MessageRefusal;
use fields::Reader;

/// The command that the bytes, all of them, say.
pub fn read(bytes: &[u8]) -> Result<Command, MessageRefusal>
    ensures answer { answer result ≡ parse bytes.now }
{
    let mut reader = Reader::new(bytes);
    let form = read_form(&mut reader)?;
    let place = reader.place();
    if place < bytes.len() {
        return Err(MessageRefusal::WrongField { place });
    }
    check(bytes, &form)
}

/// The first message of a run of bytes: its command, and how many bytes it takes.
#[derive(Clone, Copy, PartialEq, Eq, Debug)]
pub struct First {
    pub command: Command,
    pub length: usize,
}

/// The first message; what follows it is no fault of it.
pub fn read_first(bytes: &[u8]) -> Result<First, MessageRefusal>
    ensures answer { first_answer result ≡ parse_first bytes.now }
    ensures inside { Inside (length bytes.now) result }
{
    let mut reader = Reader::new(bytes);
    let form = read_form(&mut reader)?;
    let command = check(bytes, &form)?;
    Ok(First {
        command,
        length: reader.place(),
    })
}

/// Tests the count and the sum.
fn check(bytes: &[u8], form: &Form) -> Result<Command, MessageRefusal>
    requires ordered { Ordered bytes.now form.now }
    ensures answer { answer result ≡ checked bytes.now (form_of bytes.now form.now) }
    ensures placeless { IfErr result (λ e. place_of e ≡ 0) }
{
    if form.count as usize != form.trailer - form.body {
        return Err(MessageRefusal::WrongCount);
    }
    if form.sum != u32::from(sum_of(&bytes[0..form.trailer])) {
        return Err(MessageRefusal::WrongSum);
    }
    Ok(form.command)
}

/// The sum of the bytes, modulo 256.
pub(crate) fn sum_of(bytes: &[u8]) -> u8
    ensures { result ≡ sum bytes.now % 256 }
{
    bytes.iter().fold(0u8, |sum, b| sum.wrapping_add(*b))
}
