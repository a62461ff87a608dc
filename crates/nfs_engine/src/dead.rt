//! Which files may be dead or have remains, and are not yet swept. Who commits notes it.

use nfs_objects::{Addr, Content, Object, Write};
use std::alloc::{AllocError, Global};

/// The numbers of files that may be dead, since their last link went or their export was replaced, and whose blocks
/// stand; or that may have remains, since they were cut off. A sweep tests whether it is so, and nothing is proved of
/// these numbers.
#[derive(Drop)]
pub struct Dead {
    /// Files whose last link went, or that have remains.
    buried: Vec<u64>,
    /// The next one that is looked at since exports were replaced, each up to `end`.
    next: u64,
    end: u64,
    /// Above each number that was written.
    above: u64,
}

impl Dead {
    /// None.
    pub fn new(alloc: Global) -> Dead {
        Dead {
            buried: Vec::new(alloc),
            next: 0,
            end: 0,
            above: 0,
        }
    }

    /// Whether there is none.
    pub fn is_empty(&self) -> bool {
        self.buried.is_empty() && self.next >= self.end
    }

    /// Makes room to note these writes.
    ///
    /// # Errors
    ///
    /// There is no memory for it.
    pub fn make_room(&mut self, writes: &[Write]) -> Result<(), AllocError> {
        let count = writes.iter().filter(|write| leaves_blocks(write)).count();
        if count > 0 {
            self.buried.reserve(count)?;
        }
        Ok(())
    }

    /// Notes what these writes leave of files, once room is made. It takes no memory.
    pub fn note(&mut self, writes: &[Write]) {
        for write in writes {
            match write.address {
                Addr::Inode(number) => self.note_number(number, leaves_blocks(write)),
                Addr::Exports => {
                    self.next = 0;
                    self.end = self.above;
                }
                _ => {}
            }
        }
    }

    /// Notes that an inode was written, and whether it leaves blocks.
    fn note_number(&mut self, number: u64, leaves: bool) {
        self.above = self.above.max(number.saturating_add(1));
        let is_noted = self.buried.last().is_some_and(|last| *last == number);
        if leaves && !is_noted && self.buried.len() < self.buried.capacity() {
            self.buried.push_reserved(number);
        }
    }

    /// The one that is to be swept next.
    pub fn next(&self) -> Option<u64> {
        if let Some(number) = self.buried.last() {
            return Some(*number);
        }
        (self.next < self.end).then_some(self.next)
    }

    /// A page of that one was swept: where it was the last one the next file comes.
    pub fn swept(&mut self, is_last: bool) {
        if is_last {
            self.go_on();
        }
    }

    /// Goes on behind that one, of which nothing is left.
    pub fn go_on(&mut self) {
        if self.buried.pop().is_none() {
            self.next = self.next.saturating_add(1);
        }
    }
}

/// Whether a write puts an inode that leaves blocks: it has no export, since its last link went, or it has remains.
fn leaves_blocks(write: &Write) -> bool {
    match write.object.as_deref() {
        Some(Object::Inode(inode)) => inode.export == 0 || has_remains(&inode.content),
        _ => false,
    }
}

/// Whether a file has remains.
fn has_remains(content: &Content) -> bool {
    match content {
        Content::Regular(map) => map.last_remains().is_some(),
        _ => false,
    }
}
