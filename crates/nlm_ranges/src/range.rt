//! Ranges that calls name.

ghost use Rattle.std.specs.Prelude.{◌≡◌, ◌↔◌, ◌≤◌, ◌&&◌, true, nat_le, IfSome, IsSome};
ghost use Rattle.nfs_machine.specs.Locks.{fits_offsets, lies_within, range_of, same_owner};

use crate::owner::LockOwner;
use side_wire::message::NlmLock;
use std::marker::Model;

/// A range of a file's offsets, for the owner that a call names. A clause sees it as the machine does.
#[derive(Drop)]
pub struct LockRange<'a> {
    /// The call's lock, which names the owner.
    lock: &'a NlmLock,
    first: u64,
    last: u64,
}

impl<'a> Model for LockRange<'a> {
    ghost use Rattle.std.specs.Prelude.{◌≤◌};
    ghost use Rattle.nfs_machine.specs.State.{Range};
    ghost use Rattle.nfs_machine.specs.Locks.{range_of};

    ghost Value = { Range };

    ghost view = { λ r. record { owner = (range_of r.lock.now).owner; first = r.first; last = r.last } };

    ghost invariant = { λ r. r.first ≤ r.last };
}

impl<'a> LockRange<'a> {
    /// The range that the call's lock names; None where an offset of it needs more than 64 bits (RFC 1813, 6.3.1).
    pub fn of(lock: &'a NlmLock) -> Option<LockRange<'a>>
        ensures fits { IsSome result ↔ (fits_offsets lock.now ≡ true) }
        ensures range { IfSome result (λ range. range ≡ range_of lock.now) }
    {
        let first = lock.offset;
        let length = lock.length;
        if length == 0 {
            return Some(LockRange {
                lock,
                first,
                last: u64::MAX,
            });
        }
        let more = length - 1;
        let room = u64::MAX - first;
        if more > room {
            return None;
        }
        Some(LockRange {
            lock,
            first,
            last: first + more,
        })
    }

    /// The same owner's range from and to other offsets.
    pub(crate) fn between(&self, first: u64, last: u64) -> LockRange<'a>
        requires { first ≤ last }
        ensures { result ≡ record self.now { first = first; last = last } }
    {
        LockRange {
            lock: self.lock,
            first,
            last,
        }
    }

    /// The call's lock, which names the owner.
    pub(crate) fn lock(&self) -> &'a NlmLock
        ensures { (range_of result.now).owner ≡ self.now.owner }
    {
        self.lock
    }

    /// The process of its owner.
    pub(crate) fn process(&self) -> i32
        ensures { result ≡ self.now.owner.process }
    {
        self.lock.process
    }

    /// Its first offset.
    pub fn first(&self) -> u64
        ensures { result ≡ self.now.first }
    {
        self.first
    }

    /// Its last offset.
    pub fn last(&self) -> u64
        ensures last { result ≡ self.now.last }
        ensures rises { self.now.first ≤ self.now.last }
    {
        self.last
    }

    /// Whether it is this owner's.
    pub(crate) fn is_of(&self, owner: &LockOwner) -> bool
        ensures { result ≡ same_owner self.now.owner owner.now }
    {
        owner.is_named_by(self.lock)
    }

    /// Whether another range is its owner's and lies within it.
    pub(crate) fn contains(&self, other: &LockRange<'_>) -> bool
        ensures { result ≡ lies_within self.now other.now }
    {
        self.lock.process == other.lock.process
            && self.first <= other.first
            && other.last <= self.last
            && self.lock.caller_name == other.lock.caller_name
            && self.lock.owner == other.lock.owner
    }

    /// Whether it has one of these offsets.
    pub(crate) fn meets(&self, first: u64, last: u64) -> bool
        ensures { result ≡ (nat_le first self.now.last && nat_le self.now.first last) }
    {
        first <= self.last && self.first <= last
    }
}
