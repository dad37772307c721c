// What records of a sheet say, field by field.
use sheet::reader::Reader;
use sheet::record::{Content, Name, Record};
use std::test::Fail;

// Two names of 32 bytes that differ in the last one only are two names. (Those of an arrow are tested where the reader is.)
#[test]
fn names_of_compartments(rt: HostRuntime) -> Result<(), Fail> {
    let sheet = b"\x01\x20gaugeset-dp-0123456789.abcdef600\x01\x20gaugeset-dp-0123456789.abcdef601";
    let first = Record {
        place: 0,
        content: Content::Compartment {
            name: Name {
                place: 2,
                bytes: b"gaugeset-dp-0123456789.abcdef600",
            },
        },
    };
    let second = Record {
        place: 34,
        content: Content::Compartment {
            name: Name {
                place: 36,
                bytes: b"gaugeset-dp-0123456789.abcdef601",
            },
        },
    };
    let mut reader = Reader::new(sheet);
    assert_eq!(rt; reader.next()?, Some(first));
    assert_eq!(rt; reader.next()?, Some(second));
    Ok(())
}

#[test]
fn fields_of_a_capability(rt: HostRuntime) -> Result<(), Fail> {
    let capability = Record {
        place: 0,
        content: Content::Capability {
            holder: 3,
            target: 5,
            rights: 18,
        },
    };
    let mut reader = Reader::new(b"\x0e\x03\x05\x12");
    assert_eq!(rt; reader.next()?, Some(capability));
    assert!(rt; reader.next()?.is_none());
    Ok(())
}
