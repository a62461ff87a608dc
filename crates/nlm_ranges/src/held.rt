//! Locks that are held.

ghost use Rattle.std.specs.Prelude.{◌≡◌, ◌++◌, ◌&&◌, Some, IfOk, OnOk};
ghost use Rattle.std.specs.Arc.{arc_value};

use crate::owner::LockOwner;
use crate::range::LockRange;
use std::alloc::AllocError;
use std::marker::Model;
use std::sync::Arc;

/// A lock that its owner holds, exclusively or shared. A clause sees it as the machine does.
#[derive(Drop)]
pub struct HeldLock {
    owner: Arc<LockOwner>,
    /// The owner's, which is looked at before the owner is.
    process: i32,
    first: u64,
    last: u64,
    exclusive: bool,
}

impl Model for HeldLock {
    ghost use Rattle.std.specs.Prelude.{◌≡◌};
    ghost use Rattle.std.specs.Arc.{arc_value};
    ghost use Rattle.nfs_machine.specs.State.{Lock};

    ghost Value = { Lock };

    ghost view = { λ l. record {
      range = record { owner = arc_value l.owner; first = l.first; last = l.last };
      exclusive = l.exclusive;
    } };

    ghost invariant = { λ l. l.process ≡ (arc_value l.owner).process };
}

impl Clone for HeldLock {
    ghost is_clone = { λ lock copy. copy ≡ lock };

    fn clone(&self) -> Result<HeldLock, AllocError> {
        Ok(HeldLock {
            owner: Arc::try_clone(&self.owner)?,
            process: self.process,
            first: self.first,
            last: self.last,
            exclusive: self.exclusive,
        })
    }
}

impl PartialEq for HeldLock {
    ghost use Rattle.std.specs.Bool.{Decides};
    ghost use Rattle.std.specs.Cmp.{decided, partial_equiv_from_equiv};
    ghost use Rattle.nlm_ranges.specs.Same.{same_lock};
    ghost use Rattle.nlm_ranges.specs.SameLaws.{lock_decides};

    ghost eq = { same_lock };

    ghost laws = { partial_equiv_from_equiv (decided same_lock lock_decides) };

    fn eq(&self, other: &HeldLock) -> bool
        ensures test { result ≡ same_lock self.now other.now }
        ensures same { Decides result (self.now ≡ other.now) }
    {
        self.first == other.first
            && self.last == other.last
            && self.exclusive == other.exclusive
            && self.owner.is_same(&other.owner)
    }
}

impl Eq for HeldLock {
    ghost use Rattle.std.specs.Cmp.{decided};
    ghost use Rattle.nlm_ranges.specs.Same.{same_lock};
    ghost use Rattle.nlm_ranges.specs.SameLaws.{lock_decides};

    ghost laws = { decided same_lock lock_decides };
}

impl HeldLock {
    ghost use Rattle.nfs_machine.specs.LockLaws.{stands_in_way};
    ghost use Rattle.nfs_machine.specs.Locks.{is_in, same_owner};
    ghost use Rattle.nlm_ranges.specs.Cutting.{before, behind, between, cut, is_of_caller, is_touched};

    /// The range's lock, by an owner that is the range's.
    pub(crate) fn of(owner: Arc<LockOwner>, range: &LockRange<'_>, exclusive: bool) -> HeldLock
        requires { arc_value owner ≡ range.now.owner }
        ensures { result ≡ record { range = range.now; exclusive = exclusive } }
    {
        HeldLock {
            owner,
            process: range.process(),
            first: range.first(),
            last: range.last(),
            exclusive,
        }
    }

    /// Who holds it.
    pub fn owner(&self) -> &LockOwner
        ensures { result.now ≡ self.now.owner }
    {
        &self.owner
    }

    /// One more owner of its owner.
    pub(crate) fn share_owner(&self) -> Result<Arc<LockOwner>, AllocError>
        ensures { IfOk result (λ owner. arc_value owner ≡ self.now.owner) }
    {
        Arc::try_clone(&self.owner)
    }

    /// Its first offset.
    pub fn first(&self) -> u64
        ensures { result ≡ self.now.first }
    {
        self.first
    }

    /// Its last offset.
    pub fn last(&self) -> u64
        ensures { result ≡ self.now.last }
    {
        self.last
    }

    /// Whether it is exclusive, and not shared.
    pub fn is_exclusive(&self) -> bool
        ensures { result ≡ self.now.exclusive }
    {
        self.exclusive
    }

    /// Whether it is the range's owner's.
    pub(crate) fn is_of(&self, range: &LockRange<'_>) -> bool
        ensures { result ≡ same_owner range.now.owner self.now.owner }
    {
        range.process() == self.process && range.is_of(&self.owner)
    }

    /// Whether it stands in the way of the range: it is another owner's, it has an offset of the range, and one of the
    /// two is exclusive.
    pub(crate) fn stands_in_way(&self, range: &LockRange<'_>, exclusive: bool) -> bool
        ensures { result ≡ stands_in_way range.now (Some exclusive) self.now }
    {
        range.meets(self.first, self.last) && (exclusive || self.exclusive) && !self.is_of(range)
    }

    /// Whether it is the range's owner's, and has this offset.
    pub(crate) fn has(&self, range: &LockRange<'_>, offset: u64) -> bool
        ensures { result ≡ is_in self.now.range range.now.owner offset }
    {
        self.first <= offset && offset <= self.last && self.is_of(range)
    }

    /// Whether it is of the range's owner, and has an offset of it.
    pub(crate) fn is_touched(&self, range: &LockRange<'_>) -> bool
        ensures { result ≡ is_touched range.now self.now }
    {
        range.meets(self.first, self.last) && self.is_of(range)
    }

    /// Whether it is of this caller.
    pub(crate) fn is_of_caller(&self, caller_name: &[u8]) -> bool
        ensures { result ≡ is_of_caller caller_name.now self.now }
    {
        self.owner.caller_name().as_slice() == caller_name
    }

    /// The lock from and to other offsets.
    fn between(&self, first: u64, last: u64) -> Result<HeldLock, AllocError>
        ensures { IfOk result (λ lock. lock ≡ between self.now first last) }
    {
        Ok(HeldLock {
            owner: self.share_owner()?,
            process: self.process,
            first,
            last,
            exclusive: self.exclusive,
        })
    }

    /// Adds what it has before the range.
    fn push_before(
        &self,
        range: &LockRange<'_>,
        locks: &mut Vec<HeldLock>,
    ) -> Result<(), AllocError>
        ensures { OnOk result (locks.new.items ≡ locks.old.items ++ before range.now self.now) }
    {
        if self.first < range.first() {
            locks.push(self.between(self.first, range.first() - 1)?)?;
        }
        Ok(())
    }

    /// Adds what it has behind the range.
    fn push_behind(
        &self,
        range: &LockRange<'_>,
        locks: &mut Vec<HeldLock>,
    ) -> Result<(), AllocError>
        ensures { OnOk result (locks.new.items ≡ locks.old.items ++ behind range.now self.now) }
    {
        if range.last() < self.last {
            locks.push(self.between(range.last() + 1, self.last)?)?;
        }
        Ok(())
    }

    /// Adds what is left of it where the range's owner gives the range back.
    pub(crate) fn push_rest(
        &self,
        range: &LockRange<'_>,
        locks: &mut Vec<HeldLock>,
    ) -> Result<(), AllocError>
        ensures { OnOk result (locks.new.items ≡ locks.old.items ++ cut range.now self.now) }
    {
        if !self.is_touched(range) {
            locks.push(self.clone()?)?;
            return Ok(());
        }
        self.push_before(range, locks)?;
        self.push_behind(range, locks)?;
        Ok(())
    }
}
