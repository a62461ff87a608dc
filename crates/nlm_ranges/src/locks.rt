//! The locks that are held of a file.

ghost use Rattle.std.specs.Prelude.{◌≡◌, ◌==◌, [], false, length, None, Some, Contains, IfNone, IfOk, IfSome};
ghost use Rattle.nfs_machine.specs.Locks.{AreListed, Conflicts, HasModes, modes_with, modes_without};
ghost use Rattle.nfs_machine.specs.LocksFormed.{NoLocksConflict};
ghost use Rattle.nfs_machine.specs.State.{Lock};
ghost use Rattle.nlm_ranges.specs.Held.{AreAll, BeginsWith, EndsWith, HasNoneAlone, IsInTheWay, IsWidened};

use crate::held::HeldLock;
use crate::iter::{Locks, are_same};
use crate::list::LockList;
use crate::range::LockRange;
use std::alloc::{AllocError, Global};
use std::marker::Model;

/// The locks that are held of one file (RFC 1813, appendix II): of each owner ranges that have no offset twice, and
/// no two owners have an offset in modes that conflict. A table is never changed: a change makes another one, which
/// shares with it all pieces but a few.
#[derive(Drop)]
pub struct LockTable {
    exclusive: LockList,
    shared: LockList,
}

impl Model for LockTable {
    ghost use Rattle.std.specs.Prelude.{List, ◌++◌};
    ghost use Rattle.nfs_machine.specs.State.{Lock};
    ghost use Rattle.nlm_ranges.specs.Held.{AreHeld};

    ghost Value = { List Lock };

    ghost view = { λ t. t.exclusive ++ t.shared };

    ghost invariant = { λ t. AreHeld t.exclusive t.shared };
}

impl LockTable {
    /// A table without locks.
    pub fn new(alloc: Global) -> LockTable
        ensures { result ≡ [] }
    {
        LockTable {
            exclusive: LockList::new(alloc),
            shared: LockList::new(alloc),
        }
    }

    /// Whether nothing is held.
    pub fn is_empty(&self) -> bool
        ensures empty { result ≡ (length self.now == 0) }
        ensures listed { AreListed self.now }
        ensures apart { NoLocksConflict self.now }
    {
        if !self.exclusive.is_empty() {
            return false;
        }
        self.shared.is_empty()
    }

    /// The locks, the exclusive ones first.
    pub fn iter(&self) -> Locks<'_>
        ensures { result ≡ self.now }
    {
        Locks::of(self.exclusive.pieces(), self.shared.pieces())
    }

    /// What stands in the way of the range in this mode, exclusive or shared; None where nothing does. It takes no
    /// memory.
    pub fn test(&self, range: &LockRange<'_>, exclusive: bool) -> Option<&HeldLock>
        ensures free { IfNone result (Conflicts self.now range.now (Some exclusive) → ⊥) }
        ensures held { IfSome result (λ held. IsInTheWay self.now range.now (Some exclusive) held.now) }
    {
        let _last = range.last();
        if let Some(held) = self.exclusive.in_way(range, exclusive) {
            return Some(held);
        }
        if !exclusive {
            return None;
        }
        self.shared.in_way(range, exclusive)
    }

    /// Whether the range's owner has an offset of it exclusively.
    pub(crate) fn has_exclusive(&self, range: &LockRange<'_>) -> bool
        ensures { result ≡ false → HasNoneAlone self.now range.now }
    {
        self.exclusive.is_touched(range)
    }

    /// A table where the range's owner has it in this mode, exclusive or shared.
    ///
    /// # Errors
    ///
    /// `AllocError` where the memory for the table was refused.
    pub fn set(
        &self,
        alloc: Global,
        range: &LockRange<'_>,
        exclusive: bool,
    ) -> Result<LockTable, AllocError>
        requires { Conflicts self.now range.now (Some exclusive) → ⊥ }
        ensures { IfOk result (λ table. HasModes table (modes_with self.now range.now (Some exclusive))) }
    {
        let _last = range.last();
        let wide = self.widened(range, exclusive);
        let exclusives = self.exclusive.without(alloc, &wide)?;
        let shares = self.shared.without(alloc, &wide)?;
        if exclusive {
            let more = exclusives.with_lock(alloc, &wide, true)?;
            return Ok(LockTable {
                exclusive: more,
                shared: shares,
            });
        }
        let shared = shares.with_lock(alloc, &wide, false)?;
        Ok(LockTable {
            exclusive: exclusives,
            shared,
        })
    }

    /// A table where the range's owner does not have it, whether it had it or not.
    ///
    /// # Errors
    ///
    /// `AllocError` where the memory for the table was refused.
    pub fn clear(&self, alloc: Global, range: &LockRange<'_>) -> Result<LockTable, AllocError>
        ensures { IfOk result (λ table. HasModes table (modes_with self.now range.now None)) }
    {
        let exclusive = self.exclusive.without(alloc, range)?;
        let shared = self.shared.without(alloc, range)?;
        Ok(LockTable { exclusive, shared })
    }

    /// A table where the caller has nothing.
    ///
    /// # Errors
    ///
    /// `AllocError` where the memory for the table was refused.
    pub fn free(&self, alloc: Global, caller_name: &[u8]) -> Result<LockTable, AllocError>
        ensures { IfOk result (λ table. HasModes table (modes_without self.now caller_name.now)) }
    {
        let exclusive = self.exclusive.without_caller(alloc, caller_name)?;
        let shared = self.shared.without_caller(alloc, caller_name)?;
        Ok(LockTable { exclusive, shared })
    }

    /// The range with the locks of its owner in this mode that it continues.
    fn widened<'a>(&self, range: &LockRange<'a>, exclusive: bool) -> LockRange<'a>
        ensures { IsWidened self.now range.now (Some exclusive) result }
    {
        let _last = range.last();
        let list = self.of_mode(exclusive);
        range.between(first_with(list, range), last_with(list, range))
    }

    /// The exclusive locks, or the shared ones.
    fn of_mode(&self, exclusive: bool) -> &LockList
        ensures mode { AreAll exclusive result.now }
        ensures has { (l : Lock) → Contains result.now l → Contains self.now l }
        ensures listed { AreListed self.now }
    {
        if exclusive {
            return &self.exclusive;
        }
        &self.shared
    }
}

impl PartialEq for LockTable {
    ghost use Rattle.std.specs.Bool.{Decides};
    ghost use Rattle.std.specs.Cmp.{decided, partial_equiv_from_equiv};
    ghost use Rattle.std.specs.Cmp.Lexicographic.{pointwise};
    ghost use Rattle.nlm_ranges.specs.Same.{same_lock};
    ghost use Rattle.nlm_ranges.specs.SameLaws.{locks_decide};

    ghost eq = { pointwise same_lock };

    ghost laws = { partial_equiv_from_equiv (decided (pointwise same_lock) locks_decide) };

    fn eq(&self, other: &LockTable) -> bool
        ensures test { result ≡ pointwise same_lock self.now other.now }
        ensures same { Decides result (self.now ≡ other.now) }
    {
        are_same(self.iter(), other.iter())
    }
}

impl Eq for LockTable {
    ghost use Rattle.std.specs.Cmp.{decided};
    ghost use Rattle.std.specs.Cmp.Lexicographic.{pointwise};
    ghost use Rattle.nlm_ranges.specs.Same.{same_lock};
    ghost use Rattle.nlm_ranges.specs.SameLaws.{locks_decide};

    ghost laws = { decided (pointwise same_lock) locks_decide };
}

/// The first offset of the range with the lock of its owner that it continues.
fn first_with(list: &LockList, range: &LockRange<'_>) -> u64
    ensures { BeginsWith list.now range.now result }
{
    match list.before(range) {
        Some(lock) => lock.first(),
        None => range.first(),
    }
}

/// The last offset of the range with the lock of its owner that continues it.
fn last_with(list: &LockList, range: &LockRange<'_>) -> u64
    ensures { EndsWith list.now range.now result }
{
    match list.behind(range) {
        Some(lock) => lock.last(),
        None => range.last(),
    }
}
