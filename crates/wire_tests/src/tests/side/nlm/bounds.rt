//! The lengths of strings and opaque items.

use crate::tests::arguments::{Format, are_arguments, are_garbage};
use crate::tests::bytes_of;
use std::alloc::{AllocError, Global};
use std::test::Fail;

/// Words, and so many items of 1024 bytes behind them, of which that at this place has 1025, and zeros behind those.
fn long_items(
    alloc: Global,
    front: &[u32],
    items: usize,
    above: usize,
) -> Result<Vec<u8>, AllocError> {
    let mut bytes = bytes_of(alloc, front, &[])?;
    for place in 0..items {
        add_item(&mut bytes, place == above)?;
    }
    bytes.extend_from_slice(&[0; 28])?;
    Ok(bytes)
}

/// Adds an item of 1025 or of 1024 bytes.
fn add_item(bytes: &mut Vec<u8>, is_above: bool) -> Result<(), AllocError> {
    let long = [7; 1028];
    if is_above {
        bytes.extend_from_slice(&[0, 0, 4, 1])?;
        bytes.extend_from_slice(&long)
    } else {
        bytes.extend_from_slice(&[0, 0, 4, 0])?;
        bytes.extend_from_slice(&long[..1024])
    }
}

/// Whether items of a procedure's arguments have at most 1024 bytes, where zeros follow them.
fn have_at_most_1024(alloc: Global, procedure: u32, items: usize) -> Result<bool, Fail> {
    for place in 0..items {
        if !is_above(alloc, procedure, &[], items, place)? {
            return Ok(false);
        }
    }
    is_at_bound(alloc, procedure, &[], items)
}

/// Whether an item of 1025 bytes at this place is garbage.
fn is_above(
    alloc: Global,
    procedure: u32,
    front: &[u32],
    items: usize,
    place: usize,
) -> Result<bool, Fail> {
    let above = long_items(alloc, front, items, place)?;
    are_garbage(alloc, Format::Nlm(procedure), above.as_slice())
}

/// Whether items of 1024 bytes are read.
fn is_at_bound(alloc: Global, procedure: u32, front: &[u32], items: usize) -> Result<bool, Fail> {
    let at_bound = long_items(alloc, front, items, items)?;
    are_arguments(alloc, Format::Nlm(procedure), at_bound.as_slice())
}

#[test]
fn unlocks_and_shares_have_four_items_of_at_most_1024_bytes(rt: HostRuntime) -> Result<(), Fail> {
    for procedure in [4, 9, 20, 21] {
        assert!(rt;
            have_at_most_1024(rt.alloc(), procedure, 4)?,
            "procedure {procedure}"
        );
    }
    Ok(())
}

#[test]
fn a_cookie_has_at_most_1024_bytes(rt: HostRuntime) -> Result<(), Fail> {
    for procedure in [1, 2, 3, 5, 6, 7, 8, 10, 11, 12, 13, 14, 15, 20, 21, 22] {
        assert!(rt;
            is_above(rt.alloc(), procedure, &[], 1, 0)?,
            "procedure {procedure}"
        );
    }
    Ok(())
}

#[test]
fn a_results_cookie_of_1024_bytes_is_read(rt: HostRuntime) -> Result<(), Fail> {
    for procedure in [11, 12, 13, 14, 15] {
        assert!(rt;
            is_at_bound(rt.alloc(), procedure, &[], 1)?,
            "procedure {procedure}"
        );
    }
    Ok(())
}

#[test]
fn a_holders_owner_has_at_most_1024_bytes(rt: HostRuntime) -> Result<(), Fail> {
    assert!(rt; is_above(rt.alloc(), 11, &[0, 1, 0, 7], 1, 0)?);
    assert!(rt; is_at_bound(rt.alloc(), 11, &[0, 1, 0, 7], 1)?);
    Ok(())
}

#[test]
fn a_freed_name_has_at_most_1025_bytes(rt: HostRuntime) -> Result<(), Fail> {
    let freed = Format::Nlm(23);
    let at_bound = bytes_of(rt.alloc(), &[1025], &[7; 1032])?;
    assert!(rt; are_arguments(rt.alloc(), freed, at_bound.as_slice())?);
    let above = bytes_of(rt.alloc(), &[1026], &[7; 1032])?;
    assert!(rt; are_garbage(rt.alloc(), freed, above.as_slice())?);
    Ok(())
}
