use crate::limits::BLOCK_SIZE;
use crate::{Drive, DriveRefusal, HeldBack, Image, Plain, ReadDrive, zero_all};
use std::process::Abort;
use std::test::Fail;

// What buffers and memories hold at first.
const UNTOUCHED: u8 = 200;

// 24 blocks, and 5 bytes that are no block.
const BLOCKS: usize = 24;

const BYTES: usize = 12_293;

fn filled(value: u8) -> [u8; BLOCK_SIZE] {
    [value; BLOCK_SIZE]
}

fn shows<D: ReadDrive>(rt: &impl Abort, drive: &D, at: usize, value: u8) -> Result<(), Fail> {
    let mut buffer = filled(UNTOUCHED);
    drive.read(at, &mut buffer)?;
    assert!(rt; buffer == filled(value));
    Ok(())
}

fn writes<D: Drive>(drive: &mut D, at: usize, value: u8) -> Result<(), Fail> {
    drive.write(at, &filled(value))?;
    Ok(())
}

fn of_24_blocks(rt: &HostRuntime) -> Result<HeldBack, Fail> {
    Ok(HeldBack::new(vec![in rt.alloc(); UNTOUCHED; BYTES]?))
}

// The block, the buffer's size and the refusal, on a drive of two blocks; where both apply, the block comes first.
const REFUSED: [(usize, usize, DriveRefusal); 6] = [
    (2, 512, DriveRefusal::NoSuchBlock),
    (usize::MAX, 512, DriveRefusal::NoSuchBlock),
    (2, 511, DriveRefusal::NoSuchBlock),
    (0, 511, DriveRefusal::WrongBuffer),
    (1, 513, DriveRefusal::WrongBuffer),
    (0, 0, DriveRefusal::WrongBuffer),
];

fn refuses_reads<D: ReadDrive>(rt: &impl Abort, drive: &D) {
    assert_eq!(rt; drive.count(), 2);
    for (at, size, wanted) in REFUSED {
        let mut buffer = [UNTOUCHED; 513];
        assert!(rt; size <= 513);
        assert_eq!(rt; drive.read(at, &mut buffer[0..size]), Err(wanted));
        assert!(rt; buffer == [UNTOUCHED; 513]);
    }
}

fn refuses_writes<D: Drive>(rt: &impl Abort, drive: &mut D) -> Result<(), Fail> {
    let bytes = [7; 513];
    for (at, size, wanted) in REFUSED {
        assert!(rt; size <= 513);
        assert_eq!(rt; drive.write(at, &bytes[0..size]), Err(wanted));
    }
    shows(rt, drive, 0, UNTOUCHED)?;
    shows(rt, drive, 1, UNTOUCHED)
}

#[test]
fn refuses_blocks_and_buffers(rt: HostRuntime) -> Result<(), Fail> {
    let bytes = [UNTOUCHED; 1_535];
    refuses_reads(&rt, &Image::new(&bytes));
    let mut plain = Plain::new(vec![in rt.alloc(); UNTOUCHED; 1_535]?);
    refuses_reads(&rt, &plain);
    refuses_writes(&rt, &mut plain)?;
    let mut held_back = HeldBack::new(plain.into_memory());
    refuses_reads(&rt, &held_back);
    refuses_writes(&rt, &mut held_back)?;
    assert_eq!(rt; held_back.held(), 0);
    assert_eq!(rt; DriveRefusal::NoSuchBlock.number(), 41);
    assert_eq!(rt; DriveRefusal::WrongBuffer.number(), 42);
    Ok(())
}

#[test]
fn has_no_block_in_too_little_memory(rt: HostRuntime) -> Result<(), Fail> {
    for size in [0, 1, 511] {
        let mut drive = HeldBack::new(vec![in rt.alloc(); UNTOUCHED; size]?);
        zero_all(&mut drive);
        assert_eq!(rt; drive.count(), 0);
        assert_eq!(rt; drive.write(0, &filled(1)), Err(DriveRefusal::NoSuchBlock));
        let memory = drive.into_memory();
        assert_eq!(rt; memory.len(), size);
        assert_eq!(rt; Image::new(&memory).count(), 0);
    }
    Ok(())
}

// Blocks 0 to 15 are held; then block 16 puts out block 15, and block 17 puts out block 16.
#[test]
fn holds_sixteen(rt: HostRuntime) -> Result<(), Fail> {
    let mut drive = of_24_blocks(&rt)?;
    for b in 0..18u8 {
        writes(&mut drive, usize::from(b), b)?;
        assert_eq!(rt; drive.held(), usize::from(b.min(15)) + 1);
        shows(&rt, &drive, usize::from(b), b)?;
    }
    writes(&mut drive, 3, 99)?;
    assert_eq!(rt; drive.held(), 16);
    shows(&rt, &drive, 3, 99)?;
    let memory = drive.power_cut();
    for (b, value) in [
        (0, UNTOUCHED),
        (3, UNTOUCHED),
        (14, UNTOUCHED),
        (15, 15),
        (16, 16),
        (17, UNTOUCHED),
        (18, UNTOUCHED),
    ] {
        shows(&rt, &Image::new(&memory), b, value)?;
    }
    Ok(())
}

#[test]
fn keeps_the_newest_bytes(rt: HostRuntime) -> Result<(), Fail> {
    let mut drive = of_24_blocks(&rt)?;
    writes(&mut drive, 5, 1)?;
    writes(&mut drive, 5, 2)?;
    assert_eq!(rt; drive.held(), 1);
    drive.flush();
    assert_eq!(rt; drive.held(), 0);
    shows(&rt, &drive, 5, 2)?;
    writes(&mut drive, 5, 3)?;
    shows(&rt, &drive, 5, 3)?;
    let memory = drive.power_cut();
    shows(&rt, &Image::new(&memory), 5, 2)?;
    shows(&rt, &Image::new(&memory), 4, UNTOUCHED)
}

#[test]
fn zeroes_every_whole_block(rt: HostRuntime) -> Result<(), Fail> {
    let mut drive = of_24_blocks(&rt)?;
    zero_all(&mut drive);
    let memory = drive.power_cut();
    for b in 0..BLOCKS {
        shows(&rt, &Image::new(&memory), b, 0)?;
    }
    assert_eq!(rt; memory.len(), BYTES);
    assert!(rt; memory.as_slice().ends_with(&[0, 200, 200, 200, 200, 200]));
    Ok(())
}

// A fixed row of numbers that looks random.
#[derive(Drop)]
struct Random(u64);

impl Random {
    fn next(&mut self) -> u64 {
        self.0 = self
            .0
            .wrapping_mul(6_364_136_223_846_793_005)
            .wrapping_add(1);
        self.0 >> 33
    }
}

// The same row of writes, reads and flushes for every drive: each read shows what was written last.
fn plays<D: Drive>(rt: &impl Abort, drive: &mut D) -> Result<(), Fail> {
    let mut last = [UNTOUCHED; BLOCKS];
    let mut random = Random(1);
    for _ in 0..4_000 {
        let at = (random.next() % 24) as usize;
        match random.next() % 40 {
            0 => drive.flush(),
            1..=19 => {
                let value = (random.next() % 200) as u8;
                writes(drive, at, value)?;
                last[at] = value;
            }
            _ => shows(rt, drive, at, last[at])?,
        }
    }
    Ok(())
}

#[test]
fn shows_the_same_on_both_drives(rt: HostRuntime) -> Result<(), Fail> {
    let mut held_back = of_24_blocks(&rt)?;
    let mut plain = Plain::new(vec![in rt.alloc(); UNTOUCHED; BYTES]?);
    plays(&rt, &mut held_back)?;
    plays(&rt, &mut plain)?;
    assert!(rt; plain.into_memory().as_slice() == held_back.into_memory().as_slice());
    Ok(())
}
