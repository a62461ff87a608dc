//! Why the scenes end early.

use std::alloc::{AllocError, AllocFailed};
use std::io;

/// What keeps the scenes from being played.
#[derive(Debug, Drop)]
pub enum Fault {
    /// A line of the scenes says nothing that is understood: why.
    Line(&'static str),
    /// There was no memory.
    Memory,
    /// The scenes could not be read, or what was found not be written.
    Stream,
}

impl From<AllocError> for Fault {
    fn from(_error: AllocError) -> Fault {
        Fault::Memory
    }
}

impl<T: Drop> From<AllocFailed<T>> for Fault {
    fn from(_error: AllocFailed<T>) -> Fault {
        Fault::Memory
    }
}

impl From<io::Error> for Fault {
    fn from(_error: io::Error) -> Fault {
        Fault::Stream
    }
}
