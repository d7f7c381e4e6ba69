// The exported functions on the worked examples.
use crate::blocks::lezdamir_crc32c;
use crate::messages::{lezdamir_read, lezdamir_write};
use crate::splits::lezdamir_pro_rata;

#[test]
fn worked_examples(rt: HostRuntime) {
    let mut out = [0; 61];
    assert_eq!(rt; lezdamir_write(7, 1, 1, false, 10, 1000, &mut out), 61);
    // D is 68, and sell is 2: 68 + 7 + 1 + 1 + 2 + 10 + 1000
    assert_eq!(rt; lezdamir_read(&out), 1089);
    assert_eq!(rt; lezdamir_crc32c(b"123456789"), 0xE306_9283);
    let mut fills = [0; 3];
    assert_eq!(rt; lezdamir_pro_rata(10, &[5, 10, 15], &mut fills), 0);
    assert!(rt; fills == [2, 3, 5]);
}
