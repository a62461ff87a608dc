//! What dead files leave goes at the ends of eras, page by page.

ghost use Rattle.std.specs.Prelude.{◌≡◌, Option};
ghost use Rattle.nfs_objects.specs.declared.address.Addr.{Addr};
ghost use Rattle.nfs_objects.specs.declared.object.Object.{Object};
ghost use Rattle.nfs_engine.specs.Sweeps.{swept_at};
ghost use Rattle.nfs_stamps.specs.Marking.{AreMarks};

use crate::desk::Desk;
use crate::locking::{LockedShard, lock_spinning};
use crate::pool::Pool;
use nfs_engine::{Looked, SHARDS, SWEEP_LOOKS, SWEPT, Sweep, shard_index};
use nfs_objects::{Addr, MAP_BLOCKS, Object};
use nfs_stamps::{Marks, Naming, Stamp};
use std::alloc::Global;
use std::sync::ledger::Ledger;
use std::sync::{Arc, Wait};

/// How many objects go at most at the end of an era: eight map pages of 512 blocks. All callers wait meanwhile, for
/// some milliseconds.
pub(crate) const MOST_GONE: usize = 8 * SWEPT;

/// How many map pages go then at most, where they have few blocks.
const PAGES: usize = 64;

impl<L: Ledger + Naming> Pool<L> {
    /// Sweeps some pages of dead files. What stood there is handed out, to be let go where nobody waits for it. Where
    /// there is no memory for it less is swept, or nothing.
    pub(crate) fn sweep(&mut self, alloc: Global, gone: &mut Vec<Arc<Object>>) {
        let Pool {
            desk,
            places,
            count: _,
            log: _,
            key: _,
        } = self;
        let desk = desk.get_mut();
        let mut pages: usize = 0;
        for _look in 0..SWEEP_LOOKS {
            if pages >= PAGES || gone.len() > MOST_GONE - SWEPT {
                return;
            }
            match sweep_next(alloc, desk, places, gone) {
                Looked::Swept => pages = pages.saturating_add(1),
                Looked::Passed => {}
                Looked::Ended => return,
            }
        }
    }

    /// Whether something of dead files may be left to be swept.
    pub fn has_dead<R: Wait>(&self, rt: &R) -> bool {
        let guard = lock_spinning(rt, &self.desk);
        guard.has_dead()
    }
}

/// Sweeps the last page of the file that is to be swept next, if it is dead.
fn sweep_next<L: Ledger + Naming>(
    alloc: Global,
    desk: &mut Desk<L>,
    places: &mut [LockedShard<L>; SHARDS],
    gone: &mut Vec<Arc<Object>>,
) -> Looked {
    let Some(number) = desk.next_dead() else {
        return Looked::Ended;
    };
    match desk.sweep_of(alloc, number) {
        Ok(Some(sweep)) => {
            let index = shard_index(Addr::Inode(number));
            let placed = places[index].placed.get_mut();
            if !placed.sweep(&sweep, gone) {
                return Looked::Ended;
            }
            desk.sweep(sweep);
            Looked::Swept
        }
        Ok(None) => {
            desk.go_on();
            Looked::Passed
        }
        Err(_) => Looked::Ended,
    }
}

/// Takes away the marks of what a sweep takes away.
pub(crate) fn unmark<L: Naming>(marks: &mut Marks<L>, sweep: &Sweep)
    ensures { (old new : Addr → Option Object) → AreMarks marks.old old
        → ((a : Addr) → new a ≡ swept_at sweep.now old a) → AreMarks marks.new new }
{
    let none: Option<Stamp<L>> = None;
    let file = sweep.file();
    let first = sweep.first_block();
    let page = first / MAP_BLOCKS;
    marks.set(Addr::Inode(file), none.as_ref());
    marks.set(Addr::Map { file, page }, none.as_ref());
    for index in first..first + MAP_BLOCKS {
        marks.set(Addr::Block { file, index }, none.as_ref());
    }
}
