//! Made for runs in which one allocation is refused, whichever it is: the step that was refused is made again, and the
//! end is the same.

use super::alone::Alone;
use super::openings::{close, opened};
use super::records::GETATTR;
use nfs_engine::Got;
use nfs_objects::{Addr, Mode};
use std::process::Abort;
use std::test::Fail;

/// The call reads the root and what it uses, and gets a number.
fn reads_and_reserves(rt: &(impl Abort + AllocGlobal), alone: &mut Alone) {
    let used = Addr::Usage {
        export: 1,
        group: 1,
    };
    assert!(rt; alone.asks(rt, Addr::Inode(1), Mode::Exclusive) == Got::Yes);
    assert!(rt; alone.asks(rt, used, Mode::Shared) == Got::Yes);
    assert!(rt; alone.reserves(rt, 1).is_some());
}

#[test]
fn a_refused_step_is_made_again(rt: HostRuntime) -> Result<(), Fail> {
    let engine = opened(rt.alloc())?;
    let mut alone = Alone::begun(&rt, engine, &GETATTR);
    reads_and_reserves(&rt, &mut alone);
    assert_eq!(rt; alone.counts(), (1, 3));
    let waiting = alone.abort().let_go_last(&rt);
    assert_eq!(rt; waiting.counts(), (1, 0));
    let mut alone = waiting.again(rt.alloc());
    reads_and_reserves(&rt, &mut alone);
    assert_eq!(rt; alone.counts(), (1, 3));
    close(&rt, alone.end(&rt));
    Ok(())
}
