//! What a call comes to.

use crate::address::Addr;
use crate::modes::Mode;
use crate::object::Object;
use nfs_machine::Reply;
use side_wire::Message;
use std::alloc::{AllocError, AllocFailed};
use std::sync::Arc;

/// What is to stand at an address from then on; None frees it.
#[derive(Drop)]
pub struct Write {
    pub address: Addr,
    pub object: Option<Arc<Object>>,
}

/// What a call that is done writes, puts and answers.
#[derive(Drop)]
pub struct Change {
    pub writes: Vec<Write>,
    pub messages: Vec<Message>,
    pub reply: Reply,
}

/// An address, with the mode in which it is wanted.
pub type Wish = (Addr, Mode);

/// Why a call is not done yet.
#[derive(Drop)]
pub enum Missing {
    /// These addresses have to be held first, in these modes.
    Need(Vec<Wish>),
    /// So many new numbers are wanted first.
    Fresh(u32),
    /// There is no memory for it.
    Memory,
}

/// What an attempt comes to.
#[derive(Drop)]
pub enum Outcome {
    /// These addresses have to be held first, in these modes.
    Need(Vec<Wish>),
    /// So many new numbers are wanted first.
    Fresh(u32),
    /// The call is done.
    Done(Change),
}

impl From<AllocError> for Missing {
    ghost use Rattle.std.specs.Prelude.{◌≡◌};
    ghost use Rattle.nfs_objects.specs.declared.change.Missing.TheVariants.{Memory};

    ghost from_gives = { λ _ halt. halt ≡ Memory };

    fn from(_error: AllocError) -> Missing {
        Missing::Memory
    }
}

impl<T: Drop> From<AllocFailed<T>> for Missing {
    ghost use Rattle.std.specs.Prelude.{◌≡◌};
    ghost use Rattle.nfs_objects.specs.declared.change.Missing.TheVariants.{Memory};

    ghost from_gives = { λ _ halt. halt ≡ Memory };

    fn from(_error: AllocFailed<T>) -> Missing {
        Missing::Memory
    }
}
