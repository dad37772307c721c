use crate::verdict::verdict;
use refusal::answer_number;

// With the numbers that would be printed.
#[test]
fn verdicts(rt: HostRuntime) {
    let cases: [(&[u8], u8); 9] = [
        // cut, whatever the numbers are
        (b"", 12),
        (b"\x08\x00\x06\x00\x04\x01\x01a", 12),
        (b"\x00\x00\x06\x00\x04\x01\x01a", 12),
        // out of range, whatever the sheet is
        (b"\x00\x00\x06\x00\x03\x01\x01a", 2),
        (b"\x08\x10\x01\x00\x01\x02", 2),
        // a broken sheet
        (b"\x08\x00\x06\x00\x01\x02", 12),
        (b"\x08\x00\x06\x00\x03\x01\x02a", 12),
        // a sheet that is well formed, with calls behind it and with none
        (b"\x08\x00\x06\x00\x03\x01\x01a\x02", 0),
        (b"\x01\x00\x01\x00\x00", 0),
    ];
    for (input, expected) in cases {
        assert_eq!(rt; answer_number(verdict(input)), expected);
    }
}
