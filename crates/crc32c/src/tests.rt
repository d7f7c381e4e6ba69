// The vectors of RFC 3720, B.4, which lists each checksum with its low byte first.
use crate::checksum;

#[test]
fn vectors(rt: HostRuntime) {
    let ascending = b"\x00\x01\x02\x03\x04\x05\x06\x07\x08\x09\x0A\x0B\x0C\x0D\x0E\x0F\
        \x10\x11\x12\x13\x14\x15\x16\x17\x18\x19\x1A\x1B\x1C\x1D\x1E\x1F";
    let descending = b"\x1F\x1E\x1D\x1C\x1B\x1A\x19\x18\x17\x16\x15\x14\x13\x12\x11\x10\
        \x0F\x0E\x0D\x0C\x0B\x0A\x09\x08\x07\x06\x05\x04\x03\x02\x01\x00";
    let command = b"\x01\xC0\x00\x00\x00\x00\x00\x00\x00\x00\x00\x00\x00\x00\x00\x00\
        \x14\x00\x00\x00\x00\x00\x04\x00\x00\x00\x00\x14\x00\x00\x00\x18\
        \x28\x00\x00\x00\x00\x00\x00\x00\x02\x00\x00\x00\x00\x00\x00\x00";
    let cases: [(&str, &[u8], u32); 6] = [
        ("nothing", &[], 0),
        ("32 bytes of zeros", &[0; 32], 0x8A91_36AA),
        ("32 bytes of ones", &[0xFF; 32], 0x62A8_AB43),
        ("0 to 31", ascending, 0x46DD_794E),
        ("31 to 0", descending, 0x113F_DB5C),
        ("a SCSI read command", command, 0xD996_3A56),
    ];
    for (name, bytes, sum) in cases {
        assert_eq!(rt; checksum(bytes), sum, "{}", name);
    }
}
