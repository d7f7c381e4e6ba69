// Rows of the table of messages, and refusals in words.
use crate::feed::Stopped;
use fix::{Command, MessageRefusal, Side};
use std::fmt;

pub const HEADER: &str = "number\tkind\tmember\torder\tside\tlots\tprice";

/// A command as a row under the header.
#[derive(Clone, Copy)]
pub struct Row(pub Command);

impl fmt::Display for Row {
    fn fmt<W: fmt::Write>(&self, f: &mut fmt::Formatter<W>) -> fmt::Result {
        match self.0 {
            Command::New(o) => {
                let side = side_name(o.side);
                let number = o.number;
                let member = o.member;
                let order = o.order;
                let lots = o.lots;
                let price = o.price;
                write!(
                    f,
                    "{number}\tnew\t{member}\t{order}\t{side}\t{lots}\t{price}"
                )
            }
            Command::Cancel(o) => {
                let number = o.number;
                let member = o.member;
                let order = o.order;
                write!(f, "{number}\tcancel\t{member}\t{order}\t-\t-\t-")
            }
        }
    }
}

/// Not a `Display` of the type, which `fix` has: the words are those of the programs.
fn side_name(side: Side) -> &'static str {
    match side {
        Side::Buy => "buy",
        Side::Sell => "sell",
    }
}

/// A message's refusal: its number, what it means, and the place in the message where that says one.
#[derive(Clone, Copy)]
pub struct Refused(pub MessageRefusal);

impl fmt::Display for Refused {
    fn fmt<W: fmt::Write>(&self, f: &mut fmt::Formatter<W>) -> fmt::Result {
        let number = self.0.number();
        let words = meaning(self.0);
        write!(f, "refused\t{number}\t{words}")?;
        if let MessageRefusal::WrongField { place } = self.0 {
            write!(f, "\tbyte {place}")?;
        }
        Ok(())
    }
}

/// Where a run of messages stops: the refusal, the message's count and the byte of the run.
impl fmt::Display for Stopped {
    fn fmt<W: fmt::Write>(&self, f: &mut fmt::Formatter<W>) -> fmt::Result {
        let number = self.why.number();
        let words = meaning(self.why);
        let message = self.message;
        let byte = self.byte;
        write!(
            f,
            "refused\t{number}\t{words}\tmessage {message}\tbyte {byte}"
        )
    }
}

/// Not a `Display` of the refusal, as above.
fn meaning(why: MessageRefusal) -> &'static str {
    match why {
        MessageRefusal::WrongField { .. } => "a field is wrong or missing",
        MessageRefusal::WrongCount => "BodyLength is not the count of bytes",
        MessageRefusal::WrongSum => "CheckSum is not the sum of bytes",
    }
}
