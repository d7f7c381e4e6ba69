use crate::{BLOCK, SealRefusal, check, is_zero, seal};
use std::test;
use std::test::Fail;

/// Records that LevelDB 1.23 wrote (docs/BLOCKS.md says how), each the start of a block.
static RECORDS: [&[u8]; 3] = [
    b"\xD3\x1C>\xC7\x11\x00\x01\x01\x00\x00\x00\x00\x00\x00\x00\x01\x00\x00\x00\x01\
        \x01a\x01b",
    b"v\xE5\x1Cv\x1A\x00\x01\x01\x00\x00\x00\x00\x00\x00\x00\x01\x00\x00\x00\x01\x05pr\
        ice\x06101.25",
    b"\x87_\xE4\xE8\xF9\x01\x01\x01\x00\x00\x00\x00\x00\x00\x00\x01\x00\x00\x00\x01\
        \x01k\xE8\x03!\"#$%&'()*+,-./0123456789:;<=>?@ABCDEFGHIJKLMNOPQRSTUVWXYZ[\\]^_`a\
        bcdefghijklmnopqrstuvwxyz!\"#$%&'()*+,-./0123456789:;<=>?@ABCDEFGHIJKLMNOPQRSTUV\
        WXYZ[\\]^_`abcdefghijklmnopqrstuvwxyz!\"#$%&'()*+,-./0123456789:;<=>?@ABCDEFGHIJ\
        KLMNOPQRSTUVWXYZ[\\]^_`abcdefghijklmnopqrstuvwxyz!\"#$%&'()*+,-./0123456789:;<=>\
        ?@ABCDEFGHIJKLMNOPQRSTUVWXYZ[\\]^_`abcdefghijklmnopqrstuvwxyz!\"#$%&'()*+,-./012\
        3456789:;<=>?@ABCDEFGHIJKLMNOPQRSTUVWXYZ[\\]^_`abcdefghijklmnopqrstuvwxyz!\"#$%&\
        '()*+,-./0123456789:;<=>?@ABCDEF",
];

#[test]
fn seals_as_leveldb_does(rt: HostRuntime) -> Result<(), Fail> {
    for record in RECORDS {
        let [_, _, _, _, _, _, _, payload @ ..] = record else {
            return Err(Fail::new("no header"));
        };
        let mut block = [0xAA; BLOCK];
        seal(payload, &mut block)?;
        let front = block.get(0..record.len()).ok_or("too long")?;
        let back = block.get(record.len()..).ok_or("too long")?;
        assert!(rt; front == record && is_zero(back));
        let found = check(&block).ok_or("not sealed")?;
        assert!(rt; found.bytes == payload && found.place == 7);
    }
    Ok(())
}

/// Whether `block` is still sealed after the bits of `change` at `place` were turned.
fn sealed_after(block: &[u8; 512], place: usize, change: u8) -> bool {
    let mut other = *block;
    if place < BLOCK {
        other[place] ^= change;
    }
    check(&other).is_some()
}

#[test]
fn no_byte_changes_unseen(rt: HostRuntime) -> Result<(), Fail> {
    let mut block = [0; BLOCK];
    seal(b"8=FIX.4.4\x0135=D\x01", &mut block)?;
    assert!(rt; sealed_after(&block, BLOCK, 0));
    for place in 0..BLOCK {
        assert!(rt; !sealed_after(&block, place, 1) && !sealed_after(&block, place, 0x80));
    }
    Ok(())
}

#[test]
fn takes_1_to_505_bytes(rt: HostRuntime) -> Result<(), Fail> {
    let bytes = [7; BLOCK];
    for (length, fits) in [(0, false), (1, true), (505, true), (506, false)] {
        let payload = bytes.get(0..length).ok_or("too long")?;
        let mut block = [9; BLOCK];
        match seal(payload, &mut block) {
            Ok(()) => assert!(rt; fits && check(&block).is_some()),
            Err(SealRefusal::PayloadLength { length: told }) => {
                assert!(rt; !fits && told == length && block == [9; BLOCK]);
            }
        }
    }
    Ok(())
}

fn with_a_zero(block: &[u8; 512]) -> [u8; 513] {
    let mut longer = [0; 513];
    longer[0..BLOCK].copy_from_slice(block);
    longer
}

#[test]
fn a_block_has_512_bytes(rt: HostRuntime) -> Result<(), Fail> {
    let mut block = [0; BLOCK];
    seal(b"a", &mut block)?;
    let longer = with_a_zero(&block);
    for (length, sealed) in [
        (0, false),
        (6, false),
        (511, false),
        (512, true),
        (513, false),
    ] {
        let part = longer.get(0..length).ok_or("too long")?;
        assert!(rt; check(part).is_some() == sealed);
    }
    Ok(())
}
