//! Requests for locks that wait, or that were granted and are not answered yet.

ghost use Rattle.std.specs.Prelude.{◌≡◌, false, true, IfOk};
ghost use Rattle.nfs_machine.specs.Locks.{fits_offsets};
ghost use Rattle.nlm_ranges.specs.Same.{equal_locks};

use crate::locks::LockTable;
use crate::range::LockRange;
use bytes::Bytes;
use side_wire::message::NlmLock;
use std::alloc::{AllocError, Global};
use std::marker::Model;

/// A request for a lock that waits, with the number that its grant has (RFC 1813, 6.2: NLMPROC4_GRANTED). Its range
/// has no offset that needs more than 64 bits. A clause sees it as the machine does.
#[derive(Drop)]
pub struct LockRequest {
    number: u64,
    host: Bytes,
    exclusive: bool,
    asked: NlmLock,
    by_message: bool,
}

impl Model for LockRequest {
    ghost use Rattle.std.specs.Prelude.{◌≡◌, true};
    ghost use Rattle.nfs_machine.specs.Locks.{fits_offsets};
    ghost use Rattle.nfs_machine.specs.State.{Request};

    ghost Value = { Request };

    ghost view = { λ r. record {
      number = r.number;
      host = r.host;
      exclusive = r.exclusive;
      asked = r.asked;
      by_message = r.by_message;
    } };

    ghost invariant = { λ r. fits_offsets r.asked ≡ true };
}

impl PartialEq for LockRequest {
    ghost use Rattle.std.specs.Bool.{Decides};
    ghost use Rattle.std.specs.Cmp.{decided, partial_equiv_from_equiv};
    ghost use Rattle.nlm_ranges.specs.Same.{equal_requests};
    ghost use Rattle.nlm_ranges.specs.SameLaws.{requests_equal};

    ghost eq = { equal_requests };

    ghost laws = { partial_equiv_from_equiv (decided equal_requests requests_equal) };

    fn eq(&self, other: &LockRequest) -> bool
        ensures test { result ≡ equal_requests self.now other.now }
        ensures same { Decides result (self.now ≡ other.now) }
    {
        self.number == other.number
            && self.exclusive == other.exclusive
            && self.by_message == other.by_message
            && self.host == other.host
            && are_equal(&self.asked, &other.asked)
    }
}

impl Eq for LockRequest {
    ghost use Rattle.std.specs.Cmp.{decided};
    ghost use Rattle.nlm_ranges.specs.Same.{equal_requests};
    ghost use Rattle.nlm_ranges.specs.SameLaws.{requests_equal};

    ghost laws = { decided equal_requests requests_equal };
}

impl LockRequest {
    ghost use Rattle.nfs_machine.specs.Bytes.{same_bytes};
    ghost use Rattle.nfs_machine.specs.LockSteps.{is_request};
    ghost use Rattle.nfs_machine.specs.OneFile.{IsHeldUp, requested};

    /// The request of a host for a lock, which it asks for exclusively or shared, in a call that is answered or by a
    /// message. Its byte strings are copied, so that it keeps no record alive that they were cut from.
    ///
    /// # Errors
    ///
    /// `AllocError` where the memory for the request was refused.
    pub fn new(
        alloc: Global,
        number: u64,
        host: &Bytes,
        exclusive: bool,
        lock: &NlmLock,
        by_message: bool,
    ) -> Result<LockRequest, AllocError>
        requires { fits_offsets lock.now ≡ true }
        ensures { IfOk result (λ request. request ≡ record {
          number = number;
          host = host.now;
          exclusive = exclusive;
          asked = lock.now;
          by_message = by_message;
        }) }
    {
        Ok(LockRequest {
            number,
            host: Bytes::copy_from_slice(alloc, host.as_slice())?,
            exclusive,
            asked: copied(alloc, lock)?,
            by_message,
        })
    }

    /// The number of its grant.
    pub fn number(&self) -> u64
        ensures { result ≡ self.now.number }
    {
        self.number
    }

    /// The host that asked, whose grant goes to it.
    pub fn host(&self) -> &Bytes
        ensures { result.now ≡ self.now.host }
    {
        &self.host
    }

    /// Whether it is for an exclusive lock, and not for a shared one.
    pub fn is_exclusive(&self) -> bool
        ensures { result ≡ self.now.exclusive }
    {
        self.exclusive
    }

    /// The lock, as it was asked for.
    pub fn asked(&self) -> &NlmLock
        ensures asked { result.now ≡ self.now.asked }
        ensures fits { fits_offsets self.now.asked ≡ true }
    {
        &self.asked
    }

    /// Whether it was asked for by LOCK_MSG, so that its grant is GRANTED_MSG.
    pub fn is_by_message(&self) -> bool
        ensures { result ≡ self.now.by_message }
    {
        self.by_message
    }

    /// The range that it is for.
    pub fn range(&self) -> LockRange<'_>
        ensures { result ≡ requested self.now }
    {
        match LockRange::of(&self.asked) {
            Some(range) => range,
            None => unreachable!(),
        }
    }

    /// Whether it conflicts with nothing that is held.
    pub(crate) fn is_free(&self, locks: &LockTable) -> bool
        ensures free { result ≡ true → IsHeldUp locks.now self.now → ⊥ }
        ensures held_up { result ≡ false → IsHeldUp locks.now self.now }
    {
        locks.test(&self.range(), self.exclusive).is_none()
    }

    /// Whether it is one for this lock, asked for in the same terms.
    pub(crate) fn is_for(&self, exclusive: bool, lock: &NlmLock) -> bool
        ensures { result ≡ is_request exclusive lock.now self.now }
    {
        self.asked.caller_name == lock.caller_name
            && self.asked.owner == lock.owner
            && self.asked.process == lock.process
            && self.asked.offset == lock.offset
            && self.asked.length == lock.length
            && self.exclusive == exclusive
    }

    /// Whether it is of this caller.
    pub(crate) fn is_of_caller(&self, caller_name: &[u8]) -> bool
        ensures { result ≡ same_bytes self.now.asked.caller_name caller_name.now }
    {
        self.asked.caller_name.as_slice() == caller_name
    }
}

/// Whether a call names the same lock as another, the file among it.
fn are_equal(lock: &NlmLock, other: &NlmLock) -> bool
    ensures { result ≡ equal_locks lock.now other.now }
{
    lock.process == other.process
        && lock.offset == other.offset
        && lock.length == other.length
        && lock.caller_name == other.caller_name
        && lock.file == other.file
        && lock.owner == other.owner
}

/// The lock that a call names, with byte strings of its own.
fn copied(alloc: Global, lock: &NlmLock) -> Result<NlmLock, AllocError>
    ensures { IfOk result (λ copy. copy ≡ lock.now) }
{
    Ok(NlmLock {
        caller_name: Bytes::copy_from_slice(alloc, lock.caller_name.as_slice())?,
        file: Bytes::copy_from_slice(alloc, lock.file.as_slice())?,
        owner: Bytes::copy_from_slice(alloc, lock.owner.as_slice())?,
        process: lock.process,
        offset: lock.offset,
        length: lock.length,
    })
}
