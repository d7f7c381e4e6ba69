// Fields on examples.
use crate::{Field, Reader, numeral};
use std::test::Fail;

#[test]
fn numerals(rt: HostRuntime) {
    let table: [(&[u8], Option<u32>); 9] = [
        (b"1", Some(1)),
        (b"9999", Some(9999)),
        (b"10000", None),
        (b"0", None),
        (b"07", None),
        (b"", None),
        (b"1a", None),
        (b"+7", None),
        (b"99999999999999999999999999", None),
    ];
    for (bytes, expected) in table {
        assert!(rt; numeral(bytes, 1, 9999) == expected);
    }
}

#[test]
fn fields_in_a_row(rt: HostRuntime) -> Result<(), Fail> {
    let mut reader = Reader::new(b"35=D\x0149=7\x0150=1\x01");
    let Ok(first) = reader.next() else {
        return Err(Fail::new("35 is refused"));
    };
    assert_eq!(rt; first.place, 0);
    assert!(rt; matches!(first.field, Field::MsgType(b"D")));
    assert_eq!(rt; reader.place(), 5);
    let Ok(member) = reader.number(49, 1, 9999) else {
        return Err(Fail::new("49 is refused"));
    };
    assert_eq!(rt; member, 7);
    // 50 is no field of ours, and the reader stays before it
    let Err(wrong) = reader.next() else {
        return Err(Fail::new("50 is taken"));
    };
    assert_eq!(rt; wrong.place, 10);
    assert_eq!(rt; reader.place(), 10);
    Ok(())
}
