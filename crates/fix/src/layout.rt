// The fields of a message, one after the other.
ghost use Rattle.std.specs.Prelude.{◌≡◌, IfOk, codes};
ghost use Rattle.fields.specs.Reader.{source, Walked};
ghost use Rattle.fields.specs.Row.{row, step, number as number_shape};
ghost use Rattle.fix.specs.Command.{figures, order_figures, cancel_figures};
ghost use Rattle.fix.specs.Layout.{version as version_shape, kind as kind_shape, check_sum, new_order_fields, cancel_fields};
ghost use Rattle.fix.specs.Message.{side_number, new_order_values, cancel_values, values_of, body_values, form as form_of_bytes};
ghost use Rattle.fix.specs.Step.{letter_of, form_of, Ordered};
ghost use Rattle.std.specs.Str.{bytes_eq};

use crate::command::{
    Cancel, Command, LARGEST_LOTS, LARGEST_MEMBER, LARGEST_NUMBER, LARGEST_PRICE, NewOrder, Side,
};
use fields::{Field, Placed, Reader, WrongField};

#[derive(Clone, Copy)]
pub(crate) enum Kind {
    New,
    Cancel,
}

/// A message whose fields are right, with its count and its sum still to be tested: what fields 9 and 10 say,
/// where the bytes after field 9 begin, and where field 10 begins.
#[derive(Clone, Copy)]
pub(crate) struct Form {
    pub(crate) count: u32,
    pub(crate) command: Command,
    pub(crate) sum: u32,
    pub(crate) body: usize,
    pub(crate) trailer: usize,
}

pub(crate) fn read_form(reader: &mut Reader<'_>) -> Result<Form, WrongField>
    ensures walked { Walked form_of_bytes (form_of (source reader.old)) reader.old reader.new result }
    ensures ordered { IfOk result (Ordered (source reader.old)) }
{
    read_version(reader)?;
    let count = reader.number(9, 10, 99)?;
    let body = reader.place();
    let command = read_command(reader)?;
    let trailer = reader.place();
    let sum = read_check_sum(reader)?;
    Ok(Form {
        count,
        command,
        sum,
        body,
        trailer,
    })
}

/// The kind, and the fields that it has.
fn read_command(reader: &mut Reader<'_>) -> Result<Command, WrongField>
    ensures { Walked body_values (λ c. values_of (figures c)) reader.old reader.new result }
{
    match read_kind(reader)? {
        Kind::New => Ok(Command::New(read_new_order(reader)?)),
        Kind::Cancel => Ok(Command::Cancel(read_cancel(reader)?)),
    }
}

fn read_new_order(reader: &mut Reader<'_>) -> Result<NewOrder, WrongField>
    ensures { Walked (row new_order_fields) (λ o. new_order_values (order_figures o)) reader.old reader.new result }
{
    let member = reader.number(49, 1, LARGEST_MEMBER)?;
    let number = reader.number(34, 1, LARGEST_NUMBER)?;
    let order = reader.number(11, 1, LARGEST_NUMBER)?;
    let side = read_side(reader)?;
    let lots = reader.number(38, 1, LARGEST_LOTS)?;
    let price = reader.number(44, 1, LARGEST_PRICE)?;
    Ok(NewOrder {
        member,
        number,
        order,
        side,
        lots,
        price,
    })
}

fn read_cancel(reader: &mut Reader<'_>) -> Result<Cancel, WrongField>
    ensures { Walked (row cancel_fields) (λ o. cancel_values (cancel_figures o)) reader.old reader.new result }
{
    let member = reader.number(49, 1, LARGEST_MEMBER)?;
    let number = reader.number(34, 1, LARGEST_NUMBER)?;
    let order = reader.number(41, 1, LARGEST_NUMBER)?;
    Ok(Cancel {
        member,
        number,
        order,
    })
}

fn read_version(reader: &mut Reader<'_>) -> Result<(), WrongField>
    ensures { Walked (step version_shape) (λ _. 0) reader.old reader.new result }
{
    let Placed { field, place } = reader.next()?;
    match field {
        Field::BeginString(value) if is_version(value) => Ok(()),
        _ => Err(WrongField { place }),
    }
}

fn is_version(value: &[u8]) -> bool
    ensures { result ≡ bytes_eq value.now (codes "FIX.4.4") }
{
    let version: &[u8] = b"FIX.4.4";
    value == version
}

fn read_kind(reader: &mut Reader<'_>) -> Result<Kind, WrongField>
    ensures { Walked (step kind_shape) letter_of reader.old reader.new result }
{
    let Placed { field, place } = reader.next()?;
    match field {
        Field::MsgType(b"D") => Ok(Kind::New),
        Field::MsgType(b"F") => Ok(Kind::Cancel),
        _ => Err(WrongField { place }),
    }
}

fn read_side(reader: &mut Reader<'_>) -> Result<Side, WrongField>
    ensures { Walked (step (number_shape 54 1 2)) side_number reader.old reader.new result }
{
    match reader.number(54, 1, 2)? {
        1 => Ok(Side::Buy),
        _ => Ok(Side::Sell),
    }
}

/// Three digits, 000 to 999.
fn read_check_sum(reader: &mut Reader<'_>) -> Result<u32, WrongField>
    ensures { Walked (step check_sum) (λ n. n) reader.old reader.new result }
{
    let Placed { field, place } = reader.next()?;
    let Field::CheckSum([a, b, c]) = field else {
        return Err(WrongField { place });
    };
    if !a.is_ascii_digit() || !b.is_ascii_digit() || !c.is_ascii_digit() {
        return Err(WrongField { place });
    }
    Ok((*a - b'0') as u32 * 100 + (*b - b'0') as u32 * 10 + (*c - b'0') as u32)
}
