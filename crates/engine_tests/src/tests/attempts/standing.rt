//! What stands once a file is written or cut off: its blocks in which bytes lie, and the map pages that tell of them,
//! 512 blocks each. No block stands behind what was written or in a gap before it, nor behind the end once remains are
//! swept.

use super::super::openings::{close, resting};
use super::messages::Store;
use super::stocks::{Stock, resize, stock_up, write};
use nfs_engine::Engine;
use std::alloc::AllocError;
use std::process::Abort;
use std::test::Fail;

/// A WRITE from an offset on, of so many blocks.
type Part = (u32, u8);

/// How many objects more there are once an empty file is written so, and then gets this size, and is swept.
fn left_in(
    rt: &(impl Abort + AllocGlobal),
    engine: &mut Engine,
    parts: &[Part],
    size: Option<u32>,
) -> Result<u64, AllocError> {
    let mut store = Store::new(rt.alloc());
    stock_up(rt, engine, &mut store, Stock::Files(1))?;
    let before = engine.objects();
    for (offset, blocks) in parts {
        write(rt, engine, &mut store, *offset, *blocks)?;
    }
    if let Some(size) = size {
        resize(rt, engine, &mut store, size)?;
        engine.clear_dead(rt.alloc());
    }
    Ok(engine.objects().saturating_sub(before))
}

/// The same in a new store.
fn left_by(
    rt: &(impl Abort + AllocGlobal),
    parts: &[Part],
    size: Option<u32>,
) -> Result<u64, AllocError> {
    let mut engine = resting(rt.alloc(), 16)?;
    let left = left_in(rt, &mut engine, parts, size);
    close(rt, engine);
    left
}

/// What is written, and how many blocks and map pages stand then.
const WRITTEN: &[(&[Part], u64)] = &[
    (&[(0, 1)], 1 + 1),
    (&[(0, 16)], 16 + 1),
    (&[(0, 16), (0, 16)], 16 + 1),
    (&[(0, 1), (4096, 1)], 2 + 1),
    (&[(100, 1)], 2 + 1),
    (&[(0x0001_0000, 1)], 1 + 1),
    (&[(0x001f_f000, 1)], 1 + 1),
    (&[(0x001f_f000, 2)], 2 + 2),
    (&[(0x0020_0000, 16), (0, 1)], 17 + 2),
];

#[test]
fn a_write_leaves_its_blocks_and_their_maps(rt: HostRuntime) -> Result<(), Fail> {
    for (parts, want) in WRITTEN {
        assert_eq!(rt; left_by(&rt, *parts, None)?, *want);
    }
    Ok(())
}

/// What is written, the size that the file gets then, and how many blocks and map pages are left.
const CUT: &[(&[Part], u32, u64)] = &[
    (&[(0, 16)], 0, 0),
    (&[(0, 16)], 1, 1 + 1),
    (&[(0, 16)], 4096, 1 + 1),
    (&[(0, 16)], 5000, 2 + 1),
    (&[(0, 16)], 0x0001_0000, 16 + 1),
    (&[(0, 16)], 0x0100_0000, 16 + 1),
    (&[(0x001f_f000, 2)], 0x001f_f000, 0),
    (&[(0x001f_f000, 2)], 0x0020_0000, 1 + 1),
    (&[(0x001f_f000, 2)], 0x0020_0001, 2 + 2),
    (&[(0, 1), (0x0020_0000, 1)], 4096, 1 + 1),
];

#[test]
fn a_cut_takes_what_is_behind_the_end(rt: HostRuntime) -> Result<(), Fail> {
    for (parts, size, want) in CUT {
        assert_eq!(rt; left_by(&rt, *parts, Some(*size))?, *want);
    }
    Ok(())
}
