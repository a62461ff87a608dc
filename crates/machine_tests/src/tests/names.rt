//! In which parts of a bucket names are placed, by two keys. The hashes are SipHash-1-3 of the key's bytes and the
//! name's, and were worked out apart. With no key before them all of these names would stand in the first of 40 parts.

use super::*;
use nfs_objects::hashing::part_among;

/// A name, its parts of 3 and of 40 by one key, and by another.
#[derive(Clone, Copy)]
struct Placed(&'static [u8], [u32; 2], [u32; 2]);

const PLACED: [Placed; 6] = [
    Placed(b"0000000006e5", [0, 8], [1, 19]),
    Placed(b"00000000613f", [1, 31], [0, 16]),
    Placed(b"00000000d903", [2, 6], [2, 30]),
    Placed(b"00000000e605", [2, 18], [0, 8]),
    Placed(b"00000000e821", [2, 10], [0, 8]),
    Placed(b"00000001732c", [1, 11], [0, 12]),
];

const OTHER_KEY: NameKey = [8; 16];

/// The parts of a name of 3 and of 40.
fn parts(key: &NameKey, name: &[u8]) -> [u32; 2] {
    [part_among(key, 3, name), part_among(key, 40, name)]
}

/// The first row whose name has other parts.
fn first_misplaced() -> Option<usize> {
    for (row, case) in PLACED.iter().enumerate() {
        let Placed(name, own, other) = *case;
        if parts(&KEY, name) != own || parts(&OTHER_KEY, name) != other {
            return Some(row);
        }
    }
    None
}

#[test]
fn names_are_placed_by_a_key(rt: HostRuntime) {
    assert_eq!(rt; first_misplaced(), None);
    // One part, or none, has all names.
    assert!(rt; part_among(&KEY, 1, b"a") == 0);
    assert!(rt; part_among(&KEY, 0, b"a") == 0);
}
