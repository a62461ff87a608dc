//! Who holds a lock.

ghost use Rattle.std.specs.Prelude.{◌≡◌, IfOk};

use bytes::Bytes;
use side_wire::message::NlmLock;
use std::alloc::{AllocError, Global};
use std::marker::Model;

/// Who holds a lock: an owner within a caller, and a process within it (RFC 1813, 6.1.4). A clause sees it as the
/// machine does.
#[derive(Drop)]
pub struct LockOwner {
    caller_name: Bytes,
    owner: Bytes,
    process: i32,
}

impl Model for LockOwner {
    ghost use Rattle.nfs_machine.specs.State.{Owner};

    ghost Value = { Owner };

    ghost view = { λ o. record { caller_name = o.caller_name; owner = o.owner; process = o.process } };
}

impl LockOwner {
    ghost use Rattle.nfs_machine.specs.Locks.{range_of, same_owner};

    /// The owner that a call names. Its byte strings are copied, so that it keeps no record alive that they were cut
    /// from.
    pub(crate) fn of(alloc: Global, lock: &NlmLock) -> Result<LockOwner, AllocError>
        ensures { IfOk result (λ owner. owner ≡ (range_of lock.now).owner) }
    {
        Ok(LockOwner {
            caller_name: Bytes::copy_from_slice(alloc, lock.caller_name.as_slice())?,
            owner: Bytes::copy_from_slice(alloc, lock.owner.as_slice())?,
            process: lock.process,
        })
    }

    /// The caller's name.
    pub fn caller_name(&self) -> &Bytes
        ensures { result.now ≡ self.now.caller_name }
    {
        &self.caller_name
    }

    /// The owner within the caller (`oh`).
    pub fn owner(&self) -> &Bytes
        ensures { result.now ≡ self.now.owner }
    {
        &self.owner
    }

    /// The process within the caller (`svid`).
    pub fn process(&self) -> i32
        ensures { result ≡ self.now.process }
    {
        self.process
    }

    /// Whether both are one owner.
    pub(crate) fn is_same(&self, other: &LockOwner) -> bool
        ensures { result ≡ same_owner self.now other.now }
    {
        self.process == other.process
            && self.caller_name == other.caller_name
            && self.owner == other.owner
    }

    /// Whether the call names this owner.
    pub(crate) fn is_named_by(&self, lock: &NlmLock) -> bool
        ensures { result ≡ same_owner (range_of lock.now).owner self.now }
    {
        lock.process == self.process
            && lock.caller_name == self.caller_name
            && lock.owner == self.owner
    }
}
