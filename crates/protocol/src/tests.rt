use crate::input::{Input, split};
use crate::line::Line;
use refusal::answer_number;
use std::test::Fail;

// With the numbers that would be printed.
#[test]
fn split_answers(rt: HostRuntime) {
    let cases: [(&[u8], u8); 14] = [
        (b"", 12),
        (b"\x01\x00\x01\x00", 12),
        (b"\x01\x00\x01\x00\x03ab", 12),
        (b"\x00\x00\x01\x00\x03ab", 12),
        (b"\x00\x00\x01\x00\x03abc", 2),
        (b"\x01\x00\x01\x00\x03abc", 0),
        (b"\x00\x00\x01\x00\x00", 2),
        (b"\x01\x00\x01\x00\x00", 0),
        (b"\x80\x00\x01\x00\x00", 0),
        (b"\x81\x00\x01\x00\x00", 2),
        (b"\x01\x00\x00\x00\x00", 2),
        (b"\x01\x10\x00\x00\x00", 0),
        (b"\x01\x10\x01\x00\x00", 2),
        (b"\x01\x00\x01\x01\x00abc", 12),
    ];
    for (bytes, expected) in cases {
        assert_eq!(rt; answer_number(split(bytes).map(|_| ())), expected);
    }
}

#[test]
fn split_parts(rt: HostRuntime) {
    let input = Input {
        size: 128,
        limit: 0x0f02,
        sheet: b"abc",
        calls: b"def",
    };
    assert_eq!(rt; split(b"\x80\x0f\x02\x00\x03abcdef"), Ok(input));
}

// Size 1, limit and sheet's length 257, and then more calls than count.
#[test]
fn split_cuts_calls(rt: HostRuntime) -> Result<(), Fail> {
    let bytes = [1; 5 + 257 + 60_001];
    let input = split(&bytes)?;
    assert_eq!(rt; input.sheet.len(), 257);
    assert_eq!(rt; input.calls.len(), 60_000);
    Ok(())
}

#[test]
fn sheet_lines(rt: HostRuntime) {
    let cases: [(u8, &[u8]); 3] = [
        (0, b"sheet 0\n"),
        (12, b"sheet 12\n"),
        (255, b"sheet 255\n"),
    ];
    for (answer, expected) in cases {
        assert_eq!(rt; Line::sheet(answer).as_bytes(), expected);
    }
}

#[test]
fn call_lines(rt: HostRuntime) {
    let cases: [(u16, u8, &[u8]); 4] = [
        (1, 0, b"1 0\n"),
        (10, 12, b"10 12\n"),
        (60_000, 0, b"60000 0\n"),
        (65_535, 255, b"65535 255\n"),
    ];
    for (position, answer, expected) in cases {
        assert_eq!(rt; Line::call(position, answer).as_bytes(), expected);
    }
}
