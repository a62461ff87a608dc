//! What one file has of locks, of share reservations and of requests, and what a change of its locks grants.

ghost use Rattle.std.specs.Prelude.{◌≡◌, ◌++◌, ◌∷◌, ◌==◌, [], false, None, Some};
ghost use Rattle.std.specs.Prelude.{IfNone, IfOk, IfSome};
ghost use Rattle.std.specs.Arc.{arc_value};
ghost use Rattle.std.specs.List.{list_any};
ghost use Rattle.nfs_machine.specs.FileLists.{all_but};
ghost use Rattle.nfs_machine.specs.Locks.{Conflicts, lies_within};
ghost use Rattle.nfs_machine.specs.LockSteps.{is_request, share_of};
ghost use Rattle.nfs_machine.specs.OneFile.{is_denied, requested, shared, unshared};
ghost use Rattle.nlm_ranges.specs.Files.{has_nothing, no_file};
ghost use Rattle.nlm_ranges.specs.Granting.{IsFreed, IsSet, IsSettled};
ghost use Rattle.nlm_ranges.specs.Held.{IsInTheWay};

use crate::held::HeldLock;
use crate::locks::LockTable;
use crate::range::LockRange;
use crate::request::LockRequest;
use crate::requests::{Going, RequestList};
use crate::settling::{Settling, settle};
use crate::shares::ShareTable;
use side_wire::message::NlmLock;
use side_wire::nlm::NlmShare;
use std::alloc::{AllocError, Global};
use std::marker::Model;
use std::sync::Arc;

/// What one file has of locks, of share reservations, of requests that wait for a lock, and of grants that are not
/// answered yet (RFC 1813, appendix II). It is never changed: a change makes another one, which shares what stays.
#[derive(Drop)]
pub struct OneFile {
    locks: Arc<LockTable>,
    shares: Arc<ShareTable>,
    /// In order of arrival.
    waiting: Arc<RequestList>,
    /// The requests that were granted, and of which the host has not answered GRANTED.
    pending: Arc<RequestList>,
}

impl Model for OneFile {
    ghost use Rattle.std.specs.Arc.{arc_value};
    ghost use Rattle.nlm_ranges.specs.Files.{FileValue};

    ghost Value = { FileValue };

    ghost view = { λ f. record {
      held = record {
        locks = arc_value f.locks;
        shares = arc_value f.shares;
        waiting = arc_value f.waiting;
      };
      pending = arc_value f.pending;
    } };
}

impl Clone for OneFile {
    ghost is_clone = { λ file copy. copy ≡ file };

    fn clone(&self) -> Result<OneFile, AllocError> {
        Ok(OneFile {
            locks: Arc::try_clone(&self.locks)?,
            shares: Arc::try_clone(&self.shares)?,
            waiting: Arc::try_clone(&self.waiting)?,
            pending: Arc::try_clone(&self.pending)?,
        })
    }
}

impl PartialEq for OneFile {
    ghost use Rattle.std.specs.Bool.{Decides};
    ghost use Rattle.std.specs.Cmp.{decided, partial_equiv_from_equiv};
    ghost use Rattle.nlm_ranges.specs.Same.{same_file};
    ghost use Rattle.nlm_ranges.specs.SameLaws.{file_decides};

    ghost eq = { same_file };

    ghost laws = { partial_equiv_from_equiv (decided same_file file_decides) };

    fn eq(&self, other: &OneFile) -> bool
        ensures test { result ≡ same_file self.now other.now }
        ensures same { Decides result (self.now ≡ other.now) }
    {
        self.locks == other.locks
            && self.shares == other.shares
            && self.waiting == other.waiting
            && self.pending == other.pending
    }
}

impl Eq for OneFile {
    ghost use Rattle.std.specs.Cmp.{decided};
    ghost use Rattle.nlm_ranges.specs.Same.{same_file};
    ghost use Rattle.nlm_ranges.specs.SameLaws.{file_decides};

    ghost laws = { decided same_file file_decides };
}

/// A file whose locks were changed, with the requests that were granted by it, one after the other.
#[derive(Drop)]
pub struct Settled {
    pub file: OneFile,
    pub granted: Vec<Arc<LockRequest>>,
}

impl OneFile {
    /// What a file has of which nothing was asked.
    ///
    /// # Errors
    ///
    /// `AllocError` where the memory for it was refused.
    pub fn new(alloc: Global) -> Result<OneFile, AllocError>
        ensures { IfOk result (λ file. file ≡ no_file) }
    {
        Ok(OneFile {
            locks: Arc::new(alloc, LockTable::new(alloc))?,
            shares: Arc::new(alloc, ShareTable::new(alloc))?,
            waiting: Arc::new(alloc, RequestList::new(alloc))?,
            pending: Arc::new(alloc, RequestList::new(alloc))?,
        })
    }

    /// Whether it has nothing.
    pub fn is_empty(&self) -> bool
        ensures { result ≡ has_nothing self.now }
    {
        self.locks.is_empty()
            && self.shares.is_empty()
            && self.waiting.is_empty()
            && self.pending.is_empty()
    }

    /// The requests that wait, in order of arrival.
    pub fn waiting(&self) -> &RequestList
        ensures { result.now ≡ self.now.held.waiting }
    {
        &self.waiting
    }

    /// The grants that are not answered yet.
    pub fn pending(&self) -> &RequestList
        ensures { result.now ≡ self.now.pending }
    {
        &self.pending
    }

    /// What stands in the way of the range in this mode, exclusive or shared; None where nothing does. It takes no
    /// memory.
    pub fn test(&self, range: &LockRange<'_>, exclusive: bool) -> Option<&HeldLock>
        ensures free { IfNone result (Conflicts self.now.held.locks range.now (Some exclusive) → ⊥) }
        ensures held { IfSome result (λ held.
            IsInTheWay self.now.held.locks range.now (Some exclusive) held.now) }
    {
        self.locks.test(range, exclusive)
    }

    /// The file where the range's owner has it in this mode, exclusive or shared, and what waits was tried.
    ///
    /// # Errors
    ///
    /// `AllocError` where the memory for it was refused.
    pub fn set(
        &self,
        alloc: Global,
        range: &LockRange<'_>,
        exclusive: bool,
    ) -> Result<Settled, AllocError>
        requires { Conflicts self.now.held.locks range.now (Some exclusive) → ⊥ }
        ensures { IfOk result (IsSet self.now range.now (Some exclusive)) }
    {
        self.settled_with(alloc, self.locks.set(alloc, range, exclusive)?)
    }

    /// The file where the range's owner has nothing of it, and what waits was tried.
    ///
    /// # Errors
    ///
    /// `AllocError` where the memory for it was refused.
    pub fn clear(&self, alloc: Global, range: &LockRange<'_>) -> Result<Settled, AllocError>
        ensures { IfOk result (IsSet self.now range.now None) }
    {
        self.settled_with(alloc, self.locks.clear(alloc, range)?)
    }

    /// The file where what waits was tried: the earliest request that conflicts with nothing is held, and waits for its
    /// answer, until each that waits conflicts.
    ///
    /// # Errors
    ///
    /// `AllocError` where the memory for it was refused.
    pub fn settle(&self, alloc: Global) -> Result<Settled, AllocError>
        ensures { IfOk result (IsSettled self.now) }
    {
        if self.waiting.are_held_up(&self.locks) {
            return Ok(Settled {
                file: self.clone()?,
                granted: Vec::new(alloc),
            });
        }
        let Settling {
            locks,
            waiting,
            granted,
        } = settle(alloc, &self.locks, &self.waiting)?;
        let file = OneFile {
            locks,
            shares: Arc::try_clone(&self.shares)?,
            waiting: Arc::new(alloc, RequestList::of(alloc, &waiting)?)?,
            pending: Arc::new(alloc, self.pending.with_all(alloc, &granted)?)?,
        };
        Ok(Settled { file, granted })
    }

    /// The same with other locks.
    fn settled_with(&self, alloc: Global, locks: LockTable) -> Result<Settled, AllocError>
        ensures { IfOk result (IsSettled (record self.now
            { held = record self.now.held { locks = locks } })) }
    {
        let changed = OneFile {
            locks: Arc::new(alloc, locks)?,
            shares: Arc::try_clone(&self.shares)?,
            waiting: Arc::try_clone(&self.waiting)?,
            pending: Arc::try_clone(&self.pending)?,
        };
        changed.settle(alloc)
    }

    /// The file with one more request that waits, last.
    ///
    /// # Errors
    ///
    /// `AllocError` where the memory for it was refused.
    pub fn with_waiting(&self, alloc: Global, request: LockRequest) -> Result<OneFile, AllocError>
        ensures { IfOk result (λ file. file ≡ record self.now
            { held = record self.now.held { waiting = self.now.held.waiting ++ request ∷ [] } }) }
    {
        let request = Arc::new(alloc, request)?;
        let waiting = self.waiting.with(alloc, request)?;
        let mut file = self.clone()?;
        file.waiting = Arc::new(alloc, waiting)?;
        Ok(file)
    }

    /// The file where no request for this lock, asked for in the same terms, waits.
    ///
    /// # Errors
    ///
    /// `AllocError` where the memory for it was refused.
    pub fn without_waiting(
        &self,
        alloc: Global,
        exclusive: bool,
        lock: &NlmLock,
    ) -> Result<OneFile, AllocError>
        ensures { IfOk result (λ file. file ≡ record self.now {
          held = record self.now.held
              { waiting = all_but (is_request exclusive lock.now) self.now.held.waiting };
        }) }
    {
        let waiting = self.waiting.without(alloc, Going::For { exclusive, lock })?;
        let mut file = self.clone()?;
        file.waiting = Arc::new(alloc, waiting)?;
        Ok(file)
    }

    /// Whether a request for this lock, asked for in the same terms, waits. It takes no memory.
    pub fn is_waiting(&self, exclusive: bool, lock: &NlmLock) -> bool
        ensures { result ≡ list_any (is_request exclusive lock.now) self.now.held.waiting }
    {
        self.waiting.has(Going::For { exclusive, lock })
    }

    /// The file where the grant under a number is not waited for any more.
    ///
    /// # Errors
    ///
    /// `AllocError` where the memory for it was refused.
    pub fn without_pending(&self, alloc: Global, number: u64) -> Result<OneFile, AllocError>
        ensures { IfOk result (λ file. file ≡ record self.now
            { pending = all_but (λ r. r.number == number) self.now.pending }) }
    {
        let pending = self.pending.without(alloc, Going::Under(number))?;
        let mut file = self.clone()?;
        file.pending = Arc::new(alloc, pending)?;
        Ok(file)
    }

    /// The file where no grant to the range's owner that lies within it is waited for any more.
    ///
    /// # Errors
    ///
    /// `AllocError` where the memory for it was refused.
    pub fn without_pending_within(
        &self,
        alloc: Global,
        range: &LockRange<'_>,
    ) -> Result<OneFile, AllocError>
        ensures { IfOk result (λ file. file ≡ record self.now
            { pending = all_but (λ r. lies_within range.now (requested r)) self.now.pending }) }
    {
        let pending = self.pending.without(alloc, Going::Within(range))?;
        let mut file = self.clone()?;
        file.pending = Arc::new(alloc, pending)?;
        Ok(file)
    }

    /// Whether a share of another sharer conflicts with the one that a call names. It takes no memory.
    pub fn is_denied(&self, share: &NlmShare) -> bool
        ensures { result ≡ is_denied (share_of share.now) self.now.held.shares }
    {
        self.shares.is_denied(share)
    }

    /// The file with the share that a call names, in the place of the sharer's own.
    ///
    /// # Errors
    ///
    /// `AllocError` where the memory for it was refused.
    pub fn share(&self, alloc: Global, share: &NlmShare) -> Result<OneFile, AllocError>
        requires { is_denied (share_of share.now) self.now.held.shares ≡ false }
        ensures { IfOk result (λ file. file ≡ record self.now
            { held = record self.now.held { shares = shared (share_of share.now) self.now.held.shares } }) }
    {
        let shares = self.shares.share(alloc, share)?;
        let mut file = self.clone()?;
        file.shares = Arc::new(alloc, shares)?;
        Ok(file)
    }

    /// The file where the sharer that a call names has no share.
    ///
    /// # Errors
    ///
    /// `AllocError` where the memory for it was refused.
    pub fn unshare(&self, alloc: Global, share: &NlmShare) -> Result<OneFile, AllocError>
        ensures { IfOk result (λ file. file ≡ record self.now
            { held = record self.now.held { shares = unshared (share_of share.now) self.now.held.shares } }) }
    {
        let shares = self.shares.unshare(alloc, share)?;
        let mut file = self.clone()?;
        file.shares = Arc::new(alloc, shares)?;
        Ok(file)
    }

    /// The file where a caller has nothing: no lock, no share, no request that waits, and no grant that is waited for.
    /// What waits is not tried yet.
    ///
    /// # Errors
    ///
    /// `AllocError` where the memory for it was refused.
    pub fn free(&self, alloc: Global, caller_name: &[u8]) -> Result<OneFile, AllocError>
        ensures { IfOk result (IsFreed self.now caller_name.now) }
    {
        Ok(OneFile {
            locks: Arc::new(alloc, self.locks.free(alloc, caller_name)?)?,
            shares: Arc::new(alloc, self.shares.free(alloc, caller_name)?)?,
            waiting: Arc::new(alloc, self.waiting.without(alloc, Going::Of(caller_name))?)?,
            pending: Arc::new(alloc, self.pending.without(alloc, Going::Of(caller_name))?)?,
        })
    }
}
