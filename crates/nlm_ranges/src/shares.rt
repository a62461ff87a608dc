//! The share reservations that are held of a file.

ghost use Rattle.std.specs.Prelude.{◌≡◌, ◌==◌, [], false, length, IfOk};
ghost use Rattle.std.specs.List.{IsDistinct};
ghost use Rattle.nfs_machine.specs.Locks.{denies, same_sharer};
ghost use Rattle.nfs_machine.specs.LocksFormed.{NoSharesConflict};
ghost use Rattle.nfs_machine.specs.LockSteps.{share_of};
ghost use Rattle.nfs_machine.specs.OneFile.{shares_without, unshared};

use bytes::Bytes;
use side_wire::nlm::{NlmShare, ShareAccess, ShareMode};
use std::alloc::{AllocError, Global};
use std::marker::Model;

/// A share reservation: the access that its owner has, and the mode that denies others theirs (RFC 1813, 6.3.20). A
/// clause sees it as the machine does.
#[derive(Drop)]
pub struct HeldShare {
    caller_name: Bytes,
    owner: Bytes,
    mode: ShareMode,
    access: ShareAccess,
}

impl Model for HeldShare {
    ghost use Rattle.nfs_machine.specs.State.{Share};

    ghost Value = { Share };

    ghost view = { λ s. record
        { caller_name = s.caller_name; owner = s.owner; mode = s.mode; access = s.access } };
}

impl Clone for HeldShare {
    ghost is_clone = { λ share copy. copy ≡ share };

    fn clone(&self) -> Result<HeldShare, AllocError> {
        Ok(HeldShare {
            caller_name: self.caller_name.clone()?,
            owner: self.owner.clone()?,
            mode: self.mode,
            access: self.access,
        })
    }
}

impl PartialEq for HeldShare {
    ghost use Rattle.std.specs.Bool.{Decides};
    ghost use Rattle.std.specs.Cmp.{decided, partial_equiv_from_equiv};
    ghost use Rattle.nlm_ranges.specs.Same.{same_share};
    ghost use Rattle.nlm_ranges.specs.SameLaws.{share_decides};

    ghost eq = { same_share };

    ghost laws = { partial_equiv_from_equiv (decided same_share share_decides) };

    fn eq(&self, other: &HeldShare) -> bool
        ensures test { result ≡ same_share self.now other.now }
        ensures same { Decides result (self.now ≡ other.now) }
    {
        self.mode == other.mode
            && self.access == other.access
            && self.caller_name == other.caller_name
            && self.owner == other.owner
    }
}

impl Eq for HeldShare {
    ghost use Rattle.std.specs.Cmp.{decided};
    ghost use Rattle.nlm_ranges.specs.Same.{same_share};
    ghost use Rattle.nlm_ranges.specs.SameLaws.{share_decides};

    ghost laws = { decided same_share share_decides };
}

impl HeldShare {
    ghost use Rattle.nfs_machine.specs.Bytes.{same_bytes};
    ghost use Rattle.nfs_machine.specs.LockSteps.{share_of};
    ghost use Rattle.nfs_machine.specs.Locks.{same_sharer, shares_conflict};

    /// The share that a call names. Its byte strings are copied, so that it keeps no record alive that they were cut
    /// from.
    fn of(alloc: Global, share: &NlmShare) -> Result<HeldShare, AllocError>
        ensures { IfOk result (λ held. held ≡ share_of share.now) }
    {
        Ok(HeldShare {
            caller_name: Bytes::copy_from_slice(alloc, share.caller_name.as_slice())?,
            owner: Bytes::copy_from_slice(alloc, share.owner.as_slice())?,
            mode: share.mode,
            access: share.access,
        })
    }

    /// Whether it is the sharer's that the call names.
    fn is_of(&self, share: &NlmShare) -> bool
        ensures { result ≡ same_sharer (share_of share.now) self.now }
    {
        share.caller_name == self.caller_name && share.owner == self.owner
    }

    /// Whether it can't be had beside the share that a call names.
    fn conflicts_with(&self, share: &NlmShare) -> bool
        ensures { result ≡ shares_conflict (share_of share.now) self.now }
    {
        !self.is_of(share) && (denies(share.mode, self.access) || denies(self.mode, share.access))
    }

    /// Whether it is of this caller.
    fn is_of_caller(&self, caller_name: &[u8]) -> bool
        ensures { result ≡ same_bytes self.now.caller_name caller_name.now }
    {
        self.caller_name.as_slice() == caller_name
    }
}

/// Whether the mode denies the access to others.
fn denies(mode: ShareMode, access: ShareAccess) -> bool
    ensures { result ≡ denies mode access }
{
    match mode {
        ShareMode::DenyNone => false,
        ShareMode::DenyRead => matches!(access, ShareAccess::Read | ShareAccess::ReadWrite),
        ShareMode::DenyWrite => matches!(access, ShareAccess::Write | ShareAccess::ReadWrite),
        ShareMode::DenyReadWrite => !matches!(access, ShareAccess::Neither),
    }
}

/// The share reservations that are held of one file (RFC 1813, appendix II): one of each sharer at most, and no two
/// that conflict. A table is never changed: a change makes another one.
#[derive(Drop)]
pub struct ShareTable {
    shares: Vec<HeldShare>,
}

impl Model for ShareTable {
    ghost use Rattle.std.specs.Prelude.{List};
    ghost use Rattle.nfs_machine.specs.State.{Share};
    ghost use Rattle.nlm_ranges.specs.Held.{AreShares};

    ghost Value = { List Share };

    ghost view = { λ t. t.shares.items };

    ghost invariant = { λ t. AreShares t.shares.items };
}

impl ShareTable {
    ghost use Rattle.nfs_machine.specs.LockSteps.{share_of};
    ghost use Rattle.nfs_machine.specs.OneFile.{is_denied, shared, shares_without, unshared};

    /// A table without shares.
    pub fn new(alloc: Global) -> ShareTable
        ensures { result ≡ [] }
    {
        ShareTable {
            shares: Vec::new(alloc),
        }
    }

    /// Whether there are no shares.
    pub fn is_empty(&self) -> bool
        ensures empty { result ≡ (length self.now == 0) }
        ensures once { IsDistinct same_sharer self.now }
        ensures apart { NoSharesConflict self.now }
    {
        self.shares.is_empty()
    }

    /// Whether a share of another sharer conflicts with the one that a call names. It takes no memory.
    pub fn is_denied(&self, share: &NlmShare) -> bool
        ensures { result ≡ is_denied (share_of share.now) self.now }
    {
        self.shares.iter().any(|held| held.conflicts_with(share))
    }

    /// A table with the share that a call names, in the place of the sharer's own.
    ///
    /// # Errors
    ///
    /// `AllocError` where the memory for the table was refused.
    pub fn share(&self, alloc: Global, share: &NlmShare) -> Result<ShareTable, AllocError>
        requires { is_denied (share_of share.now) self.now ≡ false }
        ensures { IfOk result (λ table. table ≡ shared (share_of share.now) self.now) }
    {
        let mut shares = others(alloc, &self.shares, share)?;
        shares.push(HeldShare::of(alloc, share)?)?;
        Ok(ShareTable { shares })
    }

    /// A table where the sharer that a call names has no share.
    ///
    /// # Errors
    ///
    /// `AllocError` where the memory for the table was refused.
    pub fn unshare(&self, alloc: Global, share: &NlmShare) -> Result<ShareTable, AllocError>
        ensures { IfOk result (λ table. table ≡ unshared (share_of share.now) self.now) }
    {
        let shares = others(alloc, &self.shares, share)?;
        Ok(ShareTable { shares })
    }

    /// A table where the caller has no share.
    ///
    /// # Errors
    ///
    /// `AllocError` where the memory for the table was refused.
    pub fn free(&self, alloc: Global, caller_name: &[u8]) -> Result<ShareTable, AllocError>
        ensures { IfOk result (λ table. table ≡ shares_without caller_name.now self.now) }
    {
        let shares = of_others(alloc, &self.shares, caller_name)?;
        Ok(ShareTable { shares })
    }
}

impl PartialEq for ShareTable {
    ghost use Rattle.std.specs.Bool.{Decides};
    ghost use Rattle.std.specs.Cmp.{decided, partial_equiv_from_equiv};
    ghost use Rattle.std.specs.Cmp.Lexicographic.{pointwise};
    ghost use Rattle.nlm_ranges.specs.Same.{same_share};
    ghost use Rattle.nlm_ranges.specs.SameLaws.{shares_decide};

    ghost eq = { pointwise same_share };

    ghost laws = { partial_equiv_from_equiv (decided (pointwise same_share) shares_decide) };

    fn eq(&self, other: &ShareTable) -> bool
        ensures test { result ≡ pointwise same_share self.now other.now }
        ensures same { Decides result (self.now ≡ other.now) }
    {
        self.shares == other.shares
    }
}

impl Eq for ShareTable {
    ghost use Rattle.std.specs.Cmp.{decided};
    ghost use Rattle.std.specs.Cmp.Lexicographic.{pointwise};
    ghost use Rattle.nlm_ranges.specs.Same.{same_share};
    ghost use Rattle.nlm_ranges.specs.SameLaws.{shares_decide};

    ghost laws = { decided (pointwise same_share) shares_decide };
}

/// The shares of other sharers than the one that a call names.
fn others(
    alloc: Global,
    shares: &[HeldShare],
    share: &NlmShare,
) -> Result<Vec<HeldShare>, AllocError>
    ensures { IfOk result (λ others. others.items ≡ unshared (share_of share.now) shares.now) }
{
    let mut others = Vec::new(alloc);
    for held in shares {
        if !held.is_of(share) {
            others.push(held.clone()?)?;
        }
    }
    Ok(others)
}

/// The shares of other callers.
fn of_others(
    alloc: Global,
    shares: &[HeldShare],
    caller_name: &[u8],
) -> Result<Vec<HeldShare>, AllocError>
    ensures { IfOk result (λ others. others.items ≡ shares_without caller_name.now shares.now) }
{
    let mut others = Vec::new(alloc);
    for held in shares {
        if !held.is_of_caller(caller_name) {
            others.push(held.clone()?)?;
        }
    }
    Ok(others)
}
