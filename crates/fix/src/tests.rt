// Messages on examples. Many refusals, each with its place, are run by the program `explain`.
use crate::{
    Cancel, Command, LONGEST, MessageRefusal, NewOrder, OutOfRange, Side, length, read, read_first,
    write,
};
use std::test::Fail;

const ORDER: &[u8] =
    b"8=FIX.4.4\x019=39\x0135=D\x0149=7\x0134=1\x0111=1\x0154=2\x0138=10\x0144=1000\x0110=193\x01";

fn order() -> Command {
    Command::New(NewOrder {
        member: 7,
        number: 1,
        order: 1,
        side: Side::Sell,
        lots: 10,
        price: 1000,
    })
}

#[test]
fn example_is_read(rt: HostRuntime) -> Result<(), Fail> {
    let Ok(Command::New(o)) = read(ORDER) else {
        return Err(Fail::new("refused, or a cancel"));
    };
    assert!(rt; o.member == 7 && o.number == 1 && o.order == 1);
    assert!(rt; o.side == Side::Sell && o.side.number() == 2);
    assert!(rt; o.lots == 10 && o.price == 1000);
    Ok(())
}

#[test]
fn example_is_written(rt: HostRuntime) -> Result<(), Fail> {
    let mut out = [0xff; 64];
    let Ok(n) = write(&order(), &mut out) else {
        return Err(Fail::new("refused"));
    };
    assert_eq!(rt; n, 61);
    assert!(rt; &out[0..61] == ORDER);
    assert!(rt; out[61] == 0xff && out[62] == 0xff && out[63] == 0xff);
    Ok(())
}

#[test]
fn short_buffer_is_left(rt: HostRuntime) -> Result<(), Fail> {
    let mut out = [7; 60];
    let Err(short) = write(&order(), &mut out) else {
        return Err(Fail::new("written"));
    };
    assert_eq!(rt; short.needed, 61);
    assert_eq!(rt; length(&order()), 61);
    assert!(rt; out == [7; 60]);
    Ok(())
}

// The lengths are counted from the format: see docs/MESSAGES.md.
#[test]
fn shortest_and_longest(rt: HostRuntime) {
    let shortest = Command::Cancel(Cancel {
        member: 1,
        number: 1,
        order: 1,
    });
    let longest = Command::New(NewOrder {
        member: 9999,
        number: 999_999_999,
        order: 999_999_999,
        side: Side::Buy,
        lots: 999_999,
        price: 999_999,
    });
    assert_eq!(rt; length(&shortest), 42);
    assert_eq!(rt; length(&longest), 86);
    assert_eq!(rt; LONGEST, 86);
}

#[test]
fn first_of_two(rt: HostRuntime) -> Result<(), Fail> {
    let two: &[u8] =
        b"8=FIX.4.4\x019=39\x0135=D\x0149=7\x0134=1\x0111=1\x0154=2\x0138=10\x0144=1000\x0110=193\x018=FIX.4.4\x01";
    let Ok(first) = read_first(two) else {
        return Err(Fail::new("refused"));
    };
    assert_eq!(rt; first.length, 61);
    let more = MessageRefusal::WrongField { place: 61 };
    assert!(rt; read(two).err() == Some(more));
    assert!(rt; more.number() == 11 && more.place() == 61);
    Ok(())
}

#[test]
fn figures_out_of_range(rt: HostRuntime) {
    assert!(rt; NewOrder::new(0, 1, 1, Side::Buy, 1, 1).err() == Some(OutOfRange::Member));
    assert!(rt;
        NewOrder::new(1, 1_000_000_000, 1, Side::Buy, 1, 1).err() == Some(OutOfRange::Number)
    );
    assert!(rt; NewOrder::new(1, 1, 0, Side::Buy, 1, 1).err() == Some(OutOfRange::Order));
    assert!(rt; NewOrder::new(1, 1, 1, Side::Buy, 1_000_000, 1).err() == Some(OutOfRange::Lots));
    assert!(rt; NewOrder::new(1, 1, 1, Side::Buy, 1, 0).err() == Some(OutOfRange::Price));
    assert!(rt; Cancel::new(10_000, 1, 1).err() == Some(OutOfRange::Member));
    assert!(rt; NewOrder::new(9999, 1, 1, Side::Sell, 999_999, 999_999).is_ok());
}
