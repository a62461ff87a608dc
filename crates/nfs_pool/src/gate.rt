//! Gates, which hold a call up between its steps.

/// A step of a call, which holds the locks that it needs.
#[derive(Clone, Copy, Debug, PartialEq, Eq)]
pub enum Step {
    /// The book's.
    Admit,
    /// That of the address's shard.
    Acquire,
    /// That of the seat's shard.
    Reserve,
    /// Those of the shards that are written, rising, and then the book's.
    Commit,
    /// That of one shard.
    Release,
    /// The book's.
    GiveUp,
}

/// What is called beside the steps of a call. It may hold the call up.
pub trait Gate {
    /// This step comes next; no lock is held.
    fn before(&self, step: Step);

    /// An address of this shard is acquired next; the shard's lock is held.
    fn inside(&self, shard: usize);
}

/// A gate that is open.
#[derive(Clone, Copy)]
pub struct Open;

impl Gate for Open {
    fn before(&self, step: Step) {
        let _ = step;
    }

    fn inside(&self, shard: usize) {
        let _ = shard;
    }
}
