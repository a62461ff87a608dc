//! Blocks of files, and sets of bits.

use super::*;
use nfs_objects::block::{add_part, cut, window, written};

/// A block of these bytes, others that are written from a place on, and the bytes that it has then.
#[derive(Clone, Copy)]
struct Written(&'static [u8], usize, &'static [u8], &'static [u8]);

const WRITTEN: [Written; 4] = [
    Written(b"", 0, b"ab", b"ab"),
    Written(b"hello", 1, b"ip", b"hiplo"),
    Written(b"hello", 4, b"!!", b"hell!!"),
    // A gap is zeros.
    Written(b"hello", 7, b"!!", b"hello\0\0!!"),
];

/// The first row whose block has other bytes then.
fn first_wrong_write(alloc: Global) -> Result<Option<usize>, AllocError> {
    for (row, case) in WRITTEN.iter().enumerate() {
        let Written(old, at, data, want) = *case;
        if at > 100 || data.len() > 100 {
            return Ok(Some(row));
        }
        let block = written(alloc, old, at, data)?;
        let is_so = block.as_slice() == want;
        drop(block);
        if !is_so {
            return Ok(Some(row));
        }
    }
    Ok(None)
}

/// Whether a block of 5 bytes, cut off after 3 and after 7 of them, has these.
fn is_cut(alloc: Global) -> Result<bool, AllocError> {
    let three = cut(alloc, b"hello", 3)?;
    let are_three = three.as_slice() == b"hel".as_slice();
    drop(three);
    let all = cut(alloc, b"hello", 7);
    Ok(are_three && all?.as_slice() == b"hello".as_slice())
}

/// Whether 4 bytes of a block from place 3 on are these.
fn is_part(alloc: Global, block: Option<&Bytes>, want: &'static [u8]) -> Result<bool, AllocError> {
    let mut found = Pieces::new(alloc);
    let added = add_part(&mut found, block, 3, 4);
    let is_so = are(alloc, &found, want);
    drop(found);
    added?;
    is_so
}

/// Whether what a block lacks is read as zeros, and so all where there is none.
fn is_filled(alloc: Global) -> Result<bool, AllocError> {
    let hello = Bytes::from_static(b"hello");
    let of_some = is_part(alloc, Some(&hello), b"lo\0\0");
    drop(hello);
    let of_none = is_part(alloc, None, b"\0\0\0\0");
    Ok(of_some? && of_none?)
}

/// Whether 0, 63, 64 and 511 are in a set that they were added to, and no others beside them.
fn are_in() -> bool {
    let bits = Bits::none().with(0).with(63).with(64).with(511);
    let has = bits.has(0) && bits.has(63) && bits.has(64) && bits.has(511);
    let has_others = bits.has(1) || bits.has(62) || bits.has(65) || bits.has(512);
    has && !has_others
}

/// Whether those below 64, below 65 and below 0 are told.
fn are_below() -> bool {
    let bits = Bits::none().with(0).with(63).with(64).with(511);
    let few = bits.below(64);
    few == Bits::none().with(0).with(63)
        && bits.below(65).has(64)
        && !bits.below(511).has(511)
        && bits.below(600) == bits
        && bits.below(0).is_none()
}

/// Whether the number behind the last one of a set is told; 0 of a set with none.
fn are_ended() -> bool {
    Bits::none().end() == 0
        && Bits::none().with(0).end() == 1
        && Bits::none().with(63).with(5).end() == 64
        && Bits::none().with(63).with(64).end() == 65
        && Bits::none().with(511).with(0).end() == 512
}

/// Whether one number is gone, and the others are still there.
fn are_without() -> bool {
    let bits = Bits::none().with(0).with(63).with(64).with(511);
    bits.without(64) == Bits::none().with(0).with(63).with(511)
        && bits.without(511) == Bits::none().with(0).with(63).with(64)
        && bits.without(1) == bits
}

/// Whether those are told that two sets have.
fn are_in_both() -> bool {
    let bits = Bits::none().with(0).with(63).with(64).with(511);
    bits.both(Bits::none().with(1).with(63).with(511)) == Bits::none().with(63).with(511)
        && bits.both(Bits::none()).is_none()
}

/// Whether a file tells which of its map pages count, and the last one that is there and doesn't.
fn has_remains() -> Result<bool, AllocError> {
    let pages = Bits::none().with(0).with(3).with(5);
    let map = FileMap::new(9, pages)?.with_remains(Bits::none().with(3).with(4));
    let counts = map.counts(0) && map.counts(5);
    let counts_others = map.counts(3) || map.counts(4) || map.counts(6);
    Ok(counts && !counts_others && map.last_remains() == Some(3))
}

#[test]
fn blocks_are_written_and_cut(rt: HostRuntime) -> Result<(), AllocError> {
    assert_eq!(rt; first_wrong_write(rt.alloc())?, None);
    assert!(rt; is_cut(rt.alloc())?);
    assert!(rt; is_filled(rt.alloc())?);
    assert!(rt; window(b"hello", 1, 2) == b"el".as_slice());
    Ok(())
}

#[test]
fn bits_are_set_and_told(rt: HostRuntime) {
    assert!(rt; are_in());
    assert!(rt; are_below());
    assert!(rt; are_ended());
    assert!(rt; are_without());
    assert!(rt; are_in_both());
}

#[test]
fn remains_are_told_of_files(rt: HostRuntime) -> Result<(), AllocError> {
    assert!(rt; has_remains()?);
    Ok(())
}
