// Messages written into a buffer that the caller lends.
ghost use Rattle.std.specs.Prelude.{◌≡◌, ◌+◌, ◌≤◌, ◌++◌, length as length_of};
ghost use Rattle.answers.specs.Answer.{if_answered};
ghost use Rattle.fields.specs.Field.{written};
ghost use Rattle.fields.specs.Row.{shown_row};
ghost use Rattle.fix.specs.Command.{figures, order_figures, cancel_figures};
ghost use Rattle.fix.specs.Layout.{new_order_fields, cancel_fields};
ghost use Rattle.fix.specs.Message.{values_of, new_order_values, cancel_values, body_by, render};
ghost use Rattle.fix.specs.Refusal.{written_answer, room};
ghost use Rattle.fix.specs.Writing.{Fits, Wrote, numbers, over_front};

use crate::command::{Cancel, Command, NewOrder};
use crate::reading::sum_of;
use crate::refusal::BufferTooShort;
use crate::writer::{Numbered, Writer, numbers_length};

/// No message is longer: a new order with every figure at its largest.
pub const LONGEST: usize = 86;

/// What a message has besides its body: 8=FIX.4.4, 9 with two digits and 10 with three, each with the byte that ends it.
const FRAME: usize = 10 + 5 + 7;

/// Field 35, with its one letter.
const KIND: usize = 5;

/// Writes the command's message at the front of `out`, whose other bytes stay as they are, and answers its length.
/// Where `out` is too short, nothing is written.
pub fn write(command: &Command, out: &mut [u8]) -> Result<usize, BufferTooShort>
    ensures answer { written_answer result ≡ room (length_of (render (figures command.now))) (length_of out.old) }
    ensures out { out.new ≡ if_answered (room (length_of (render (figures command.now))) (length_of out.old)) (over_front out.old (render (figures command.now))) out.old }
{
    let body = body_length(command);
    let needed = FRAME + body;
    if out.len() < needed {
        return Err(BufferTooShort { needed });
    }
    Ok(put_message(out, command, body))
}

/// The message, whose body has this length, at the front.
fn put_message(out: &mut [u8], command: &Command, body: usize) -> usize
    requires body { body ≡ length_of (body_by (values_of (figures command.now))) }
    requires room { length_of (render (figures command.now)) ≤ length_of out.old }
    ensures length { result ≡ length_of (render (figures command.now)) }
    ensures out { out.new ≡ over_front out.old (render (figures command.now)) }
{
    let mut message = Writer::new(out);
    message.text(8, b"FIX.4.4");
    message.number(9, body as u32);
    put_body(&mut message, command);
    let sum = sum_of(message.so_far());
    let digits = [b'0' + sum / 100, b'0' + sum / 10 % 10, b'0' + sum % 10];
    message.text(10, &digits);
    message.place()
}

/// How long the command's message is.
pub fn length(command: &Command) -> usize
    ensures value { result ≡ length_of (render (figures command.now)) }
{
    FRAME + body_length(command)
}

/// From the kind up to field 10.
fn put_body(message: &mut Writer<'_>, command: &Command)
    requires room { Fits message.old (body_by (values_of (figures command.now))) }
    ensures { Wrote message.old message.new (body_by (values_of (figures command.now))) }
{
    match command {
        Command::New(o) => put_kind(message, b"D", &order_fields(o)),
        Command::Cancel(o) => put_kind(message, b"F", &cancel_fields(o)),
    }
}

/// A kind, and the fields after it.
fn put_kind(message: &mut Writer<'_>, letter: &[u8], fields: &[Numbered])
    requires room { Fits message.old (written 35 letter.now ++ numbers fields.now) }
    ensures { Wrote message.old message.new (written 35 letter.now ++ numbers fields.now) }
{
    message.text(35, letter);
    message.numbers(fields);
}

fn body_length(command: &Command) -> usize
    ensures value { result ≡ length_of (body_by (values_of (figures command.now))) }
    ensures range { (20 ≤ result) × (result ≤ 64) }
{
    match command {
        Command::New(o) => KIND + numbers_length(&order_fields(o)),
        Command::Cancel(o) => KIND + numbers_length(&cancel_fields(o)),
    }
}

/// The fields after the kind, by their tags, which are FIX's names for them.
fn order_fields(o: &NewOrder) -> [Numbered; 6]
    ensures { numbers result ≡ shown_row new_order_fields (new_order_values (order_figures o.now)) }
{
    [
        Numbered {
            tag: 49,
            number: o.member,
        },
        Numbered {
            tag: 34,
            number: o.number,
        },
        Numbered {
            tag: 11,
            number: o.order,
        },
        Numbered {
            tag: 54,
            number: o.side.number(),
        },
        Numbered {
            tag: 38,
            number: o.lots,
        },
        Numbered {
            tag: 44,
            number: o.price,
        },
    ]
}

fn cancel_fields(o: &Cancel) -> [Numbered; 3]
    ensures { numbers result ≡ shown_row cancel_fields (cancel_values (cancel_figures o.now)) }
{
    [
        Numbered {
            tag: 49,
            number: o.member,
        },
        Numbered {
            tag: 34,
            number: o.number,
        },
        Numbered {
            tag: 41,
            number: o.order,
        },
    ]
}
