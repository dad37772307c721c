use crate::right::{ALL_RIGHTS, Right};
use crate::word::bit;

const RIGHTS: [Right; 5] = [
    Right::Read,
    Right::Write,
    Right::Grant,
    Right::Create,
    Right::Store,
];

#[test]
fn rights_in_sets(rt: HostRuntime) {
    for right in RIGHTS {
        assert_eq!(rt; right.is_in(0), false);
        assert_eq!(rt; right.is_in(u8::from(right)), true);
        assert_eq!(rt; right.is_in(ALL_RIGHTS), true);
        assert_eq!(rt; right.is_in(ALL_RIGHTS ^ u8::from(right)), false);
    }
}

// Bits 0, 1, 18 and 31 stand.
#[test]
fn bits_of_a_word(rt: HostRuntime) {
    let cases: [(u8, bool); 9] = [
        (0, true),
        (1, true),
        (2, false),
        (17, false),
        (18, true),
        (30, false),
        (31, true),
        (32, false),
        (255, false),
    ];
    for (rights, expected) in cases {
        assert_eq!(rt; bit(0x8004_0003, rights), expected);
    }
}

#[test]
fn rights_in_words(rt: HostRuntime) {
    let cases: [(Right, u32, bool); 12] = [
        (Right::Read, 0, false),
        (Right::Read, 0x5555_5555, false),
        (Right::Read, 0x5555_5557, true),
        (Right::Write, 0x3333_3333, false),
        (Right::Write, 0x0000_0004, true),
        (Right::Grant, 0x0f0f_0f0f, false),
        (Right::Grant, 0x0010_0000, true),
        (Right::Create, 0x00ff_00ff, false),
        (Right::Create, 0x0000_0100, true),
        (Right::Store, 0x0000_ffff, false),
        (Right::Store, 0x0001_0000, true),
        (Right::Store, 0xffff_ffff, true),
    ];
    for (right, word, expected) in cases {
        assert_eq!(rt; right.is_in_some(word), expected);
    }
}
