use crate::{AllocationRefusal, Fifo, Policy, ProRata};
use std::process::Abort;
use std::test::Fail;

// What the fills hold before a call; no split below gives it.
const UNTOUCHED: u32 = 1_000_000;

fn splits<P: Policy>(
    rt: &impl Abort,
    policy: &P,
    quantity: u32,
    lots: &[u32],
    wanted: &[u32],
) -> Result<(), Fail> {
    let mut row = [UNTOUCHED; 8];
    let count = lots.len();
    assert!(rt; count <= 8);
    let fills = &mut row[0..count];
    policy.allocate(quantity, lots, fills)?;
    assert!(rt; *fills == *wanted);
    Ok(())
}

fn refuses<P: Policy>(
    rt: &impl Abort,
    policy: &P,
    quantity: u32,
    lots: &[u32],
    room: usize,
    wanted: AllocationRefusal,
) {
    let mut row = [UNTOUCHED; 2];
    assert!(rt; room <= 2);
    assert_eq!(rt;
        policy.allocate(quantity, lots, &mut row[0..room]),
        Err(wanted)
    );
    assert_eq!(rt; row, [UNTOUCHED; 2]);
}

// The quantity, the lots, the fills by FIFO and those by pro-rata.
#[test]
fn splits_worked_cases(rt: HostRuntime) -> Result<(), Fail> {
    for (quantity, lots, by_age, by_share) in [
        (10, &[5, 10, 15][..], &[5, 5, 0][..], &[2, 3, 5][..]),
        (7, &[4, 9][..], &[4, 3][..], &[3, 4][..]),
        (3, &[1, 1, 1, 1][..], &[1, 1, 1, 0][..], &[1, 1, 1, 0][..]),
        (5, &[3, 3, 3][..], &[3, 2, 0][..], &[3, 1, 1][..]),
        (999_999, &[][..], &[][..], &[][..]),
        (1, &[1][..], &[1][..], &[1][..]),
        (4, &[9][..], &[4][..], &[4][..]),
        (9, &[4][..], &[4][..], &[4][..]),
        (1, &[1, 999_999][..], &[1, 0][..], &[1, 0][..]),
        (20, &[6, 6, 6][..], &[6, 6, 6][..], &[6, 6, 6][..]),
        (
            17,
            &[1, 2, 3, 4, 5, 6, 7][..],
            &[1, 2, 3, 4, 5, 2, 0][..],
            &[1, 2, 2, 2, 3, 3, 4][..],
        ),
        (
            8,
            &[2, 1, 2, 1, 2, 1][..],
            &[2, 1, 2, 1, 2, 0][..],
            &[2, 1, 2, 1, 2, 0][..],
        ),
        (
            100,
            &[33, 1, 66, 250][..],
            &[33, 1, 66, 0][..],
            &[11, 0, 18, 71][..],
        ),
        (
            11,
            &[1, 1, 40, 1][..],
            &[1, 1, 9, 0][..],
            &[1, 0, 10, 0][..],
        ),
    ] {
        splits(&rt, &Fifo, quantity, lots, by_age)?;
        splits(&rt, &ProRata, quantity, lots, by_share)?;
    }
    Ok(())
}

// The quantity, the lots, how many fills there is room for, and the refusal; where both apply, the lengths come first.
#[test]
fn refuses_what_is_out_of_range(rt: HostRuntime) {
    for (quantity, lots, room, wanted) in [
        (1, &[1][..], 0, AllocationRefusal::LengthsDiffer),
        (1, &[][..], 1, AllocationRefusal::LengthsDiffer),
        (0, &[0][..], 2, AllocationRefusal::LengthsDiffer),
        (0, &[][..], 0, AllocationRefusal::OutOfRange),
        (0, &[1][..], 1, AllocationRefusal::OutOfRange),
        (1_000_000, &[1][..], 1, AllocationRefusal::OutOfRange),
        (1, &[0, 1][..], 2, AllocationRefusal::OutOfRange),
        (1, &[1, 1_000_000][..], 2, AllocationRefusal::OutOfRange),
        (u32::MAX, &[u32::MAX][..], 1, AllocationRefusal::OutOfRange),
    ] {
        refuses(&rt, &Fifo, quantity, lots, room, wanted);
        refuses(&rt, &ProRata, quantity, lots, room, wanted);
    }
    assert_eq!(rt; AllocationRefusal::LengthsDiffer.number(), 51);
    assert_eq!(rt; AllocationRefusal::OutOfRange.number(), 52);
}

// 999,999 over 1,024 orders of 999,999 is 976 each, and 575 are left over.
#[test]
fn splits_the_largest_level(rt: HostRuntime) -> Result<(), Fail> {
    let lots = [999_999; 1_024];
    let mut fills = [UNTOUCHED; 1_024];
    Fifo.allocate(999_999, &lots, &mut fills)?;
    assert_eq!(rt; fills[0], 999_999);
    assert!(rt; fills[1..1_024] == [0; 1_023]);
    ProRata.allocate(999_999, &lots, &mut fills)?;
    assert_eq!(rt; fills[0], 1_551);
    assert!(rt; fills[1..1_024] == [976; 1_023]);
    Ok(())
}

#[test]
fn refuses_one_order_too_many(rt: HostRuntime) {
    let lots = [1; 1_025];
    let mut fills = [UNTOUCHED; 1_025];
    assert_eq!(rt;
        Fifo.allocate(1, &lots, &mut fills),
        Err(AllocationRefusal::OutOfRange)
    );
    assert_eq!(rt;
        ProRata.allocate(1, &lots, &mut fills),
        Err(AllocationRefusal::OutOfRange)
    );
    assert!(rt; fills == [UNTOUCHED; 1_025]);
}

#[test]
fn policies_go_by_one_letter(rt: HostRuntime) {
    assert_eq!(rt; <Fifo as Policy>::LETTER, b'F');
    assert_eq!(rt; <ProRata as Policy>::LETTER, b'C');
}
