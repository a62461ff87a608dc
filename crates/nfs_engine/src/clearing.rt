//! What dead files leave goes between calls, page by page, over an engine that one thread has.

ghost use Rattle.nfs_engine.specs.Clearing.{Clears};

use crate::engine::Engine;
use crate::sweeping::SWEPT;
use nfs_objects::Object;
use std::alloc::Global;
use std::sync::Arc;

/// How many map pages, of 512 blocks, go at once at most.
const PAGES: usize = 8;

/// How many files are looked at, where dead files are swept, at most.
pub const SWEEP_LOOKS: usize = 4096;

/// What looking at a file comes to, where dead files are swept.
pub enum Looked {
    /// A page of it was swept.
    Swept,
    /// Nothing of it is to be swept.
    Passed,
    /// There is no file to be looked at, or no memory to sweep it.
    Ended,
}

impl Engine {
    /// Sweeps a few pages of dead files, where there is memory for that. What stood there is let go.
    pub fn clear_dead(&mut self, alloc: Global)
        ensures { Clears self.old self.new }
    {
        if self.dead.is_empty() {
            return;
        }
        let Ok(mut swept) = Vec::with_capacity(alloc, PAGES * SWEPT) else {
            return;
        };
        let mut pages: usize = 0;
        for _look in 0..SWEEP_LOOKS {
            match self.clear_next(alloc, &mut swept) {
                Looked::Swept => pages = pages.saturating_add(1),
                Looked::Passed => {}
                Looked::Ended => return,
            }
            if pages >= PAGES {
                return;
            }
        }
    }

    /// Sweeps the last page of the file that is to be swept next, if it is dead.
    fn clear_next(&mut self, alloc: Global, swept: &mut Vec<Arc<Object>>) -> Looked
        ensures { Clears self.old self.new }
    {
        let Some(number) = self.dead.next() else {
            return Looked::Ended;
        };
        match self.sweep(alloc, number, swept) {
            Ok(Some(false)) => Looked::Swept,
            Ok(Some(true)) => {
                self.dead.go_on();
                Looked::Swept
            }
            Ok(None) => {
                self.dead.go_on();
                Looked::Passed
            }
            Err(_) => Looked::Ended,
        }
    }
}
