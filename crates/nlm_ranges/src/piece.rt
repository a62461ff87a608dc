//! Parts of the list of locks.

ghost use Rattle.std.specs.Prelude.{◌≡◌, ◌≤◌, ◌++◌, false, true, filter, not, Some, Contains, IfNone};
ghost use Rattle.std.specs.Prelude.{IfOk};
ghost use Rattle.std.specs.Prelude.{IfSome, OnOk};
ghost use Rattle.std.specs.List.{AllByRecursion, flat_map, list_any};
ghost use Rattle.std.specs.Arc.{arc_value};
ghost use Rattle.nfs_machine.specs.LockLaws.{stands_in_way};
ghost use Rattle.nfs_machine.specs.Locks.{is_in};
ghost use Rattle.nlm_ranges.specs.Cutting.{Inserts, cut, is_of_caller, is_touched};
ghost use Rattle.nlm_ranges.specs.Held.{IsBetween};

use crate::held::HeldLock;
use crate::owner::LockOwner;
use crate::range::LockRange;
use std::alloc::{AllocError, Global};
use std::marker::Model;
use std::sync::Arc;

/// Locks, and between which offsets all of them are. Copies share the locks.
#[derive(Drop)]
pub(crate) struct LockPiece {
    first: u64,
    last: u64,
    locks: Arc<Vec<HeldLock>>,
}

impl Model for LockPiece {
    ghost use Rattle.std.specs.Prelude.{List};
    ghost use Rattle.std.specs.Arc.{arc_value};
    ghost use Rattle.std.specs.List.{AllByRecursion};
    ghost use Rattle.nfs_machine.specs.State.{Lock};
    ghost use Rattle.nlm_ranges.specs.Held.{IsBetween};

    ghost Value = { List Lock };

    ghost view = { λ p. (arc_value p.locks).items };

    ghost invariant = { λ p. AllByRecursion (IsBetween p.first p.last) (arc_value p.locks).items };
}

impl Clone for LockPiece {
    ghost is_clone = { λ piece copy. copy ≡ piece };

    fn clone(&self) -> Result<LockPiece, AllocError> {
        Ok(LockPiece {
            first: self.first,
            last: self.last,
            locks: Arc::try_clone(&self.locks)?,
        })
    }
}

impl LockPiece {
    ghost use Rattle.nfs_machine.specs.LockLaws.{stands_in_way};
    ghost use Rattle.nfs_machine.specs.Locks.{is_in};
    ghost use Rattle.nlm_ranges.specs.Cutting.{Inserts, cut, is_of_caller, is_touched};

    /// A piece of these locks.
    pub(crate) fn of(alloc: Global, locks: Vec<HeldLock>) -> Result<LockPiece, AllocError>
        ensures { IfOk result (λ piece. piece ≡ locks.items) }
    {
        let (first, last) = ends(&locks);
        Ok(LockPiece {
            first,
            last,
            locks: Arc::new(alloc, locks)?,
        })
    }

    /// The locks.
    pub(crate) fn locks(&self) -> &[HeldLock]
        ensures { result.now ≡ self.now }
    {
        self.locks.as_slice()
    }

    /// The least first offset.
    pub(crate) fn first(&self) -> u64 {
        self.first
    }

    /// A lock that stands in the way of the range.
    pub(crate) fn in_way(&self, range: &LockRange<'_>, exclusive: bool) -> Option<&HeldLock>
        ensures none { IfNone result (list_any (stands_in_way range.now (Some exclusive)) self.now ≡ false) }
        ensures some { IfSome result (λ lock.
            Contains self.now lock.now × (stands_in_way range.now (Some exclusive) lock.now ≡ true)) }
    {
        if !range.meets(self.first, self.last) {
            return None;
        }
        first_in_way(self.locks(), range, exclusive)
    }

    /// The lock of the range's owner that has this offset.
    pub(crate) fn at(&self, range: &LockRange<'_>, offset: u64) -> Option<&HeldLock>
        ensures { IfSome result (λ lock.
            Contains self.now lock.now × (is_in lock.now.range range.now.owner offset ≡ true)) }
    {
        if offset < self.first || self.last < offset {
            return None;
        }
        first_at(self.locks(), range, offset)
    }

    /// Whether a lock of the range's owner has an offset of the range.
    pub(crate) fn is_touched(&self, range: &LockRange<'_>) -> bool
        ensures { result ≡ list_any (is_touched range.now) self.now }
    {
        if !range.meets(self.first, self.last) {
            return false;
        }
        any_touched(self.locks(), range)
    }

    /// What its locks have where the range's owner gives the range back.
    pub(crate) fn rest(
        &self,
        alloc: Global,
        range: &LockRange<'_>,
    ) -> Result<Vec<HeldLock>, AllocError>
        ensures { IfOk result (λ locks. locks.items ≡ flat_map (cut range.now) self.now) }
    {
        rest_of(alloc, self.locks(), range)
    }

    /// Whether a lock of the caller is among them.
    pub(crate) fn has_caller(&self, caller_name: &[u8]) -> bool
        ensures { result ≡ list_any (is_of_caller caller_name.now) self.now }
    {
        any_of_caller(self.locks(), caller_name)
    }

    /// The locks of other callers.
    pub(crate) fn others(
        &self,
        alloc: Global,
        caller_name: &[u8],
    ) -> Result<Vec<HeldLock>, AllocError>
        ensures { IfOk result
            (λ locks. locks.items ≡ filter (λ l. not (is_of_caller caller_name.now l)) self.now) }
    {
        others_of(alloc, self.locks(), caller_name)
    }

    /// Its locks, and one more.
    pub(crate) fn with_lock(
        &self,
        alloc: Global,
        range: &LockRange<'_>,
        exclusive: bool,
    ) -> Result<Vec<HeldLock>, AllocError>
        ensures { IfOk result
            (λ locks. Inserts self.now (record { range = range.now; exclusive = exclusive }) locks.items) }
    {
        let held = self.locks();
        let lock = HeldLock::of(owner_of(alloc, held, range)?, range, exclusive);
        inserted(alloc, held, lock)
    }

    /// The locks of both, those of the other last.
    pub(crate) fn joined_with(
        &self,
        alloc: Global,
        other: &LockPiece,
    ) -> Result<Vec<HeldLock>, AllocError>
        ensures { IfOk result (λ locks. locks.items ≡ self.now ++ other.now) }
    {
        let mut locks = Vec::new(alloc);
        push_locks(&mut locks, self.locks())?;
        push_locks(&mut locks, other.locks())?;
        Ok(locks)
    }
}

/// The least first offset of the locks, and the greatest last one.
fn ends(locks: &[HeldLock]) -> (u64, u64)
    ensures { AllByRecursion (IsBetween result.0 result.1) locks.now }
{
    let mut ends = (u64::MAX, 0);
    for lock in locks {
        ends = widened(ends, lock);
    }
    ends
}

/// The ends, with those of one more lock.
fn widened(ends: (u64, u64), lock: &HeldLock) -> (u64, u64)
    ensures first { result.0 ≤ ends.0 }
    ensures last { ends.1 ≤ result.1 }
    ensures lock { IsBetween result.0 result.1 lock.now }
{
    let (first, last) = ends;
    (first.min(lock.first()), last.max(lock.last()))
}

/// A lock that stands in the way of the range.
fn first_in_way<'a>(
    locks: &'a [HeldLock],
    range: &LockRange<'_>,
    exclusive: bool,
) -> Option<&'a HeldLock>
    ensures none { IfNone result (list_any (stands_in_way range.now (Some exclusive)) locks.now ≡ false) }
    ensures some { IfSome result (λ lock.
        Contains locks.now lock.now × (stands_in_way range.now (Some exclusive) lock.now ≡ true)) }
{
    for lock in locks {
        if lock.stands_in_way(range, exclusive) {
            return Some(lock);
        }
    }
    None
}

/// The lock of the range's owner that has this offset.
fn first_at<'a>(locks: &'a [HeldLock], range: &LockRange<'_>, offset: u64) -> Option<&'a HeldLock>
    ensures { IfSome result (λ lock.
        Contains locks.now lock.now × (is_in lock.now.range range.now.owner offset ≡ true)) }
{
    for lock in locks {
        if lock.has(range, offset) {
            return Some(lock);
        }
    }
    None
}

/// Whether a lock of the range's owner has an offset of the range.
fn any_touched(locks: &[HeldLock], range: &LockRange<'_>) -> bool
    ensures { result ≡ list_any (is_touched range.now) locks.now }
{
    locks.iter().any(|lock| lock.is_touched(range))
}

/// Whether a lock of the caller is among these.
fn any_of_caller(locks: &[HeldLock], caller_name: &[u8]) -> bool
    ensures { result ≡ list_any (is_of_caller caller_name.now) locks.now }
{
    locks.iter().any(|lock| lock.is_of_caller(caller_name))
}

/// What the locks have where the range's owner gives the range back.
fn rest_of(
    alloc: Global,
    locks: &[HeldLock],
    range: &LockRange<'_>,
) -> Result<Vec<HeldLock>, AllocError>
    ensures { IfOk result (λ rest. rest.items ≡ flat_map (cut range.now) locks.now) }
{
    let mut rest = Vec::new(alloc);
    for lock in locks {
        lock.push_rest(range, &mut rest)?;
    }
    Ok(rest)
}

/// The locks of other callers.
fn others_of(
    alloc: Global,
    locks: &[HeldLock],
    caller_name: &[u8],
) -> Result<Vec<HeldLock>, AllocError>
    ensures { IfOk result
        (λ others. others.items ≡ filter (λ l. not (is_of_caller caller_name.now l)) locks.now) }
{
    let mut others = Vec::new(alloc);
    for lock in locks {
        if !lock.is_of_caller(caller_name) {
            others.push(lock.clone()?)?;
        }
    }
    Ok(others)
}

/// The locks and one more, before those that begin no earlier.
fn inserted(alloc: Global, held: &[HeldLock], lock: HeldLock) -> Result<Vec<HeldLock>, AllocError>
    ensures { IfOk result (λ locks. Inserts held.now lock locks.items) }
{
    let place = held.partition_point(|other| other.first() < lock.first());
    let (earlier, later) = held.split_at(place);
    let mut locks = Vec::with_capacity(alloc, held.len() + 1)?;
    push_locks(&mut locks, earlier)?;
    locks.push(lock)?;
    push_locks(&mut locks, later)?;
    Ok(locks)
}

/// The range's owner, shared with a lock of it where one is among these.
fn owner_of(
    alloc: Global,
    locks: &[HeldLock],
    range: &LockRange<'_>,
) -> Result<Arc<LockOwner>, AllocError>
    ensures { IfOk result (λ owner. arc_value owner ≡ range.now.owner) }
{
    for lock in locks {
        if lock.is_of(range) {
            return lock.share_owner();
        }
    }
    Ok(Arc::new(alloc, LockOwner::of(alloc, range.lock())?)?)
}

/// Adds copies of these locks.
pub(crate) fn push_locks(locks: &mut Vec<HeldLock>, others: &[HeldLock]) -> Result<(), AllocError>
    ensures { OnOk result (locks.new.items ≡ locks.old.items ++ others.now) }
{
    for other in others {
        locks.push(other.clone()?)?;
    }
    Ok(())
}
