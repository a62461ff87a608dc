//! Calls and replies of the three programs.

ghost use Rattle.std.specs.Prelude.{◌≡◌};
ghost use Rattle.nfs_machine.specs.Changing.{is_changing};

use crate::exports::Exports;
use nfs_wire::{NfsCall, NfsReply};
use side_wire::{MountCall, MountReply, NlmCall, NlmReply};

/// What a caller asks.
#[derive(Drop)]
pub enum Call {
    Nfs(NfsCall),
    Mount(MountCall),
    Nlm(NlmCall),
    /// These are the exports from now on. No host asks it.
    Replace(Exports),
}

impl Call {
    /// Whether a call may change something that a host sees: objects, mounts, locks, or the messages that are to be
    /// sent.
    pub fn is_changing(&self) -> bool
        ensures { result ≡ is_changing self.now }
    {
        match self {
            Call::Nfs(call) => call.is_changing(),
            Call::Mount(call) => call.is_changing(),
            Call::Nlm(call) => call.is_changing(),
            Call::Replace(_) => false,
        }
    }
}

/// What the machine answers.
#[derive(Drop, PartialEq, Eq)]
pub enum Reply {
    Nfs(NfsReply),
    Mount(MountReply),
    Nlm(NlmReply),
    /// The exports were replaced: there is nothing to answer.
    Replaced,
}

/// What a call that cannot be executed for want of memory is answered.
#[derive(Drop, PartialEq, Eq)]
pub enum Refusal {
    /// By a status of the procedure's own.
    Reply(Reply),
    /// By SYSTEM_ERR (RFC 5531, section 9), where the procedure has no status.
    SystemError,
    /// Nothing is answered.
    Silent,
}
