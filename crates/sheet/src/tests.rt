use crate::count::count_records;
use crate::fault::{Fault, Flaw};
use crate::reader::Reader;
use crate::record::{Content, Name, Record};
use refusal::Refusal;
use std::test::Fail;

// Two compartments, two entities in each, five capabilities and an arrow: 12 records in 83 bytes.
const WORKED: &[u8; 83] = b"\x01\x05gauge\x01\x06solver\
\x03\x05gauge\x00\x03\x05gauge\x01\x03\x06solver\x02\x03\x06solver\x03\
\x0e\x00\x01\x12\x0e\x00\x00\x08\x0e\x01\x02\x02\x0e\x02\x03\x14\x0e\x03\x03\x10\
\x11\x05gauge\x06solver";

const LONGEST: &[u8; 34] = b"\x01\x20gaugeset-0123456789.abcdefghij_x";

#[test]
fn whole_sheets(rt: HostRuntime) {
    let cases: [(&[u8], usize); 6] = [
        (b"", 0),
        (b"\x01\x01a", 1),
        (LONGEST, 1),
        (b"\x03\x03Z-9\xff", 1),
        (b"\x0e\xff\xff\xff\x11\x01.\x01_", 2),
        (WORKED, 12),
    ];
    for (sheet, expected) in cases {
        assert_eq!(rt; count_records(sheet), Ok(expected));
    }
}

// A record that is whole comes first in some, so that the fault's place is told from 0.
#[test]
fn broken_sheets(rt: HostRuntime) {
    let cases: [(&[u8], usize, Flaw); 22] = [
        (b"\x00", 0, Flaw::UnknownMap),
        (b"\x02\x00", 0, Flaw::UnknownMap),
        (b"\xff", 0, Flaw::UnknownMap),
        (b"\x01\x01a\x21\x01a", 3, Flaw::UnknownMap),
        (b"\x01", 0, Flaw::Cut),
        (b"\x01\x01", 0, Flaw::Cut),
        (b"\x01\x05gaug", 0, Flaw::Cut),
        (b"\x01\x20gaugeset-0123456789.abcdefghij_", 0, Flaw::Cut),
        (b"\x03\x01a", 0, Flaw::Cut),
        (b"\x01\x01a\x0e", 3, Flaw::Cut),
        (b"\x01\x01a\x0e\x00\x01", 3, Flaw::Cut),
        (b"\x11\x01a", 0, Flaw::Cut),
        (b"\x11\x01a\x02b", 0, Flaw::Cut),
        (b"\x01\x00", 0, Flaw::BadLength),
        (
            b"\x01\x21gaugeset-0123456789.abcdefghij_xy",
            0,
            Flaw::BadLength,
        ),
        (b"\x11\x01a\x00", 0, Flaw::BadLength),
        (b"\x01\x01 ", 0, Flaw::BadCharacter),
        (b"\x01\x03 ab", 0, Flaw::BadCharacter),
        (b"\x01\x03a/b", 0, Flaw::BadCharacter),
        (b"\x01\x03ab\x80", 0, Flaw::BadCharacter),
        (b"\x01\x05ab:", 0, Flaw::BadCharacter),
        (b"\x01\x01a\x11\x01a\x02b@", 3, Flaw::BadCharacter),
    ];
    for (sheet, place, flaw) in cases {
        assert_eq!(rt; count_records(sheet), Err(Fault { place, flaw }));
    }
}

// A sheet that ends early is whole only where a record ends.
#[test]
fn cut_sheets(rt: HostRuntime) {
    let sheet: &[u8] = WORKED;
    let whole = (0..sheet.len())
        .filter(|len| count_records(&sheet[..*len]).is_ok())
        .count();
    assert_eq!(rt; whole, 12);
}

// Two names of 32 bytes that differ in the last one only are two names.
#[test]
fn long_names(rt: HostRuntime) -> Result<(), Fail> {
    let sheet = b"\x11\x20gaugeset-dp-0123456789.abcdef600\x20gaugeset-dp-0123456789.abcdef601";
    let mut reader = Reader::new(sheet);
    let from = Name {
        place: 2,
        bytes: b"gaugeset-dp-0123456789.abcdef600",
    };
    let to = Name {
        place: 35,
        bytes: b"gaugeset-dp-0123456789.abcdef601",
    };
    let arrow = Record {
        place: 0,
        content: Content::Arrow { from, to },
    };
    let found = reader.next()?;
    assert_eq!(rt; found, Some(arrow));
    let Some(
        Record {
            content: Content::Arrow { from, to },
            ..
        },
    ) = found
    else {
        return Err(Fail::new("no arrow"));
    };
    assert!(rt; from.bytes != to.bytes);
    Ok(())
}

// After a fault the reader stands where it stood, and answers the same again.
#[test]
fn a_fault_again(rt: HostRuntime) -> Result<(), Fail> {
    let mut reader = Reader::new(b"\x01\x01a\x0e\x00");
    assert!(rt; reader.next()?.is_some());
    let fault = Fault {
        place: 3,
        flaw: Flaw::Cut,
    };
    for _ in 0..2 {
        assert_eq!(rt; reader.next(), Err(fault));
    }
    assert_eq!(rt; u8::from(Refusal::from(fault)), 12);
    Ok(())
}
