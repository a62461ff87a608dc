//! Items of NLM as they were read, before their byte strings are shared (RFC 1813, 6.1.4).

ghost use Rattle.nfs_xdr.specs.Reading.{Shares};
ghost use Rattle.side_wire.specs.NlmTypes.{nlm4_lock, lock_value, nlm4_holder, holder_value, nlm4_testrply};
ghost use Rattle.side_wire.specs.NlmTypes.{test_status_value, nlm4_share, share_value};
ghost use Rattle.side_wire.specs.Parts.{lock_parts_value, holder_parts_value, status_parts_value, share_parts_value};

use super::{LockHolder, NlmShare, ShareAccess, ShareMode, TestStatus};
use crate::message::NlmLock;
use nfs_xdr::{Part, XdrError};

/// A lock (`nlm4_lock`).
#[derive(Drop)]
pub(super) struct LockParts<'a> {
    pub caller_name: Part<'a>,
    pub file: Part<'a>,
    pub owner: Part<'a>,
    pub process: i32,
    pub offset: u64,
    pub length: u64,
}

impl<'a> LockParts<'a> {
    /// The lock, with its bytes shared.
    pub(super) fn share(self) -> Result<NlmLock, XdrError>
        ensures { Shares nlm4_lock lock_value (lock_parts_value self.entry) result }
    {
        let LockParts {
            caller_name,
            file,
            owner,
            process,
            offset,
            length,
        } = self;
        Ok(NlmLock {
            caller_name: caller_name.share()?,
            file: file.share()?,
            owner: owner.share()?,
            process,
            offset,
            length,
        })
    }
}

/// Who holds a lock (`nlm4_holder`).
#[derive(Drop)]
pub(super) struct HolderParts<'a> {
    pub exclusive: bool,
    pub process: i32,
    pub owner: Part<'a>,
    pub offset: u64,
    pub length: u64,
}

impl<'a> HolderParts<'a> {
    /// The holder, with its bytes shared.
    pub(super) fn share(self) -> Result<LockHolder, XdrError>
        ensures { Shares nlm4_holder holder_value (holder_parts_value self.entry) result }
    {
        let HolderParts {
            exclusive,
            process,
            owner,
            offset,
            length,
        } = self;
        Ok(LockHolder {
            exclusive,
            process,
            owner: owner.share()?,
            offset,
            length,
        })
    }
}

/// What became of a TEST (`nlm4_testrply`).
#[derive(Drop)]
pub(super) enum StatusParts<'a> {
    Granted,
    Denied(HolderParts<'a>),
    DeniedNoLocks,
    Blocked,
    DeniedGracePeriod,
    Deadlock,
    ReadOnly,
    StaleHandle,
    FileTooBig,
    Failed,
}

impl<'a> StatusParts<'a> {
    /// The status, with the bytes of a holder shared.
    pub(super) fn share(self) -> Result<TestStatus, XdrError>
        ensures { Shares nlm4_testrply test_status_value (status_parts_value self.entry) result }
    {
        match self {
            StatusParts::Granted => Ok(TestStatus::Granted),
            StatusParts::Denied(holder) => Ok(TestStatus::Denied(holder.share()?)),
            StatusParts::DeniedNoLocks => Ok(TestStatus::DeniedNoLocks),
            StatusParts::Blocked => Ok(TestStatus::Blocked),
            StatusParts::DeniedGracePeriod => Ok(TestStatus::DeniedGracePeriod),
            StatusParts::Deadlock => Ok(TestStatus::Deadlock),
            StatusParts::ReadOnly => Ok(TestStatus::ReadOnly),
            StatusParts::StaleHandle => Ok(TestStatus::StaleHandle),
            StatusParts::FileTooBig => Ok(TestStatus::FileTooBig),
            StatusParts::Failed => Ok(TestStatus::Failed),
        }
    }
}

/// A share (`nlm4_share`).
#[derive(Drop)]
pub(super) struct ShareParts<'a> {
    pub caller_name: Part<'a>,
    pub file: Part<'a>,
    pub owner: Part<'a>,
    pub mode: ShareMode,
    pub access: ShareAccess,
}

impl<'a> ShareParts<'a> {
    /// The share, with its bytes shared.
    pub(super) fn share(self) -> Result<NlmShare, XdrError>
        ensures { Shares nlm4_share share_value (share_parts_value self.entry) result }
    {
        let ShareParts {
            caller_name,
            file,
            owner,
            mode,
            access,
        } = self;
        Ok(NlmShare {
            caller_name: caller_name.share()?,
            file: file.share()?,
            owner: owner.share()?,
            mode,
            access,
        })
    }
}
