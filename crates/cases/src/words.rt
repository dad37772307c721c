// Words with a bit more and a bit less.
use access::word::{with, without};

#[test]
fn bits_set_and_cleared(rt: HostRuntime) {
    let cases: [(u32, u8, u32, u32); 8] = [
        (0, 0, 1, 0),
        (5, 0, 5, 4),
        (4, 0, 5, 4),
        (4, 2, 4, 0),
        (0x7fff_ffff, 31, 0xffff_ffff, 0x7fff_ffff),
        (0xffff_ffff, 31, 0xffff_ffff, 0x7fff_ffff),
        (6, 32, 6, 6),
        (6, 255, 6, 6),
    ];
    for (word, rights, more, less) in cases {
        assert_eq!(rt; with(word, rights), more);
        assert_eq!(rt; without(word, rights), less);
    }
}
