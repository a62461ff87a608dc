//! What a call is answered for want of memory (RFC 1813, section 2.6: NFS3ERR_JUKEBOX; RFC 5531, section 9:
//! SYSTEM_ERR).

ghost use Rattle.std.specs.Prelude.{◌≡◌, true, is_some, IfOk, OnErr, MatchOption};
ghost use Rattle.side_wire.specs.declared.nlm.NlmCall.{NlmCall as NlmCallValue};
ghost use Rattle.nfs_machine.specs.declared.calls.Call.TheVariants as calls;
ghost use Rattle.nfs_machine.specs.declared.calls.Refusal.TheVariants as refusals;
ghost use Rattle.nfs_machine.specs.Refusal.{nfs_refusal, nlm_refusal, no_locks, refusal_of};

use crate::calls::{Call, Refusal, Reply};
use bytes::Bytes;
use nfs_wire::{
    AccessReply, CommitReply, FsinfoReply, FsstatReply, LinkedReply, LookupReply, MadeReply,
    NfsCall, NfsReply, NfsStatus, PathconfReply, ReadReply, ReaddirReply, ReaddirplusReply,
    ReadlinkReply, RemovedReply, RenamedReply, SetattrReply, Wcc, WriteReply,
};
use side_wire::{
    MountCall, MountReply, MountStatus, NlmCall, NlmReply, NlmResult, NlmStatus, TestResult,
    TestStatus,
};
use std::alloc::AllocError;

/// Nothing is shown of an object.
const NOTHING: Wcc = Wcc {
    before: None,
    after: None,
};

impl Call {
    /// What this call is answered where it cannot be executed for want of memory.
    ///
    /// # Errors
    ///
    /// The refusal gives a cookie back, which could not be shared. No other refusal takes memory.
    #[tactic(auto, unfolding(crate::specs::Refusal::refusal_of))]
    pub fn refusal(&self) -> Result<Refusal, AllocError>
        ensures ok { IfOk result (λ refusal. refusal ≡ refusal_of self.now) }
        ensures err { OnErr result
            ((call : NlmCallValue) × (self.now ≡ calls.Nlm call) × (is_some (nlm_refusal call) ≡ true)) }
    {
        match self {
            Call::Nfs(call) => Ok(refusal_by(nfs_refusal(call).map(Reply::Nfs))),
            Call::Mount(call) => Ok(mount_refusal(call)),
            Call::Nlm(call) => Ok(refusal_by(nlm_refusal(call)?.map(Reply::Nlm))),
            Call::Replace(_) => Ok(Refusal::Silent),
        }
    }
}

/// The refusal by a status, or by SYSTEM_ERR where the procedure has none.
fn refusal_by(reply: Option<Reply>) -> Refusal
    ensures { MatchOption reply (result ≡ refusals.SystemError) (λ r. result ≡ refusals.Reply r) }
{
    match reply {
        Some(reply) => Refusal::Reply(reply),
        None => Refusal::SystemError,
    }
}

fn nfs_refusal(call: &NfsCall) -> Option<NfsReply>
    ensures { result ≡ nfs_refusal call.now }
{
    match call {
        NfsCall::Null => None,
        NfsCall::Getattr(_) => Some(NfsReply::Getattr(Err(NfsStatus::Jukebox))),
        NfsCall::Setattr(_) => Some(NfsReply::Setattr(SetattrReply {
            wcc: NOTHING,
            result: Err(NfsStatus::Jukebox),
        })),
        NfsCall::Lookup(_) => Some(NfsReply::Lookup(LookupReply {
            directory: None,
            result: Err(NfsStatus::Jukebox),
        })),
        NfsCall::Access(_) => Some(NfsReply::Access(AccessReply {
            attributes: None,
            result: Err(NfsStatus::Jukebox),
        })),
        NfsCall::Readlink(_) => Some(NfsReply::Readlink(ReadlinkReply {
            attributes: None,
            result: Err(NfsStatus::Jukebox),
        })),
        NfsCall::Read(_) => Some(NfsReply::Read(ReadReply {
            attributes: None,
            result: Err(NfsStatus::Jukebox),
        })),
        NfsCall::Write(_) => Some(NfsReply::Write(WriteReply {
            wcc: NOTHING,
            result: Err(NfsStatus::Jukebox),
        })),
        NfsCall::Create(_) => Some(NfsReply::Create(MadeReply {
            directory: NOTHING,
            result: Err(NfsStatus::Jukebox),
        })),
        NfsCall::Mkdir(_) => Some(NfsReply::Mkdir(MadeReply {
            directory: NOTHING,
            result: Err(NfsStatus::Jukebox),
        })),
        NfsCall::Symlink(_) => Some(NfsReply::Symlink(MadeReply {
            directory: NOTHING,
            result: Err(NfsStatus::Jukebox),
        })),
        NfsCall::Mknod(_) => Some(NfsReply::Mknod(MadeReply {
            directory: NOTHING,
            result: Err(NfsStatus::Jukebox),
        })),
        NfsCall::Remove(_) => Some(NfsReply::Remove(RemovedReply {
            directory: NOTHING,
            result: Err(NfsStatus::Jukebox),
        })),
        NfsCall::Rmdir(_) => Some(NfsReply::Rmdir(RemovedReply {
            directory: NOTHING,
            result: Err(NfsStatus::Jukebox),
        })),
        NfsCall::Rename(_) => Some(NfsReply::Rename(RenamedReply {
            from: NOTHING,
            to: NOTHING,
            result: Err(NfsStatus::Jukebox),
        })),
        NfsCall::Link(_) => Some(NfsReply::Link(LinkedReply {
            attributes: None,
            directory: NOTHING,
            result: Err(NfsStatus::Jukebox),
        })),
        NfsCall::Readdir(_) => Some(NfsReply::Readdir(ReaddirReply {
            attributes: None,
            result: Err(NfsStatus::Jukebox),
        })),
        NfsCall::Readdirplus(_) => Some(NfsReply::Readdirplus(ReaddirplusReply {
            attributes: None,
            result: Err(NfsStatus::Jukebox),
        })),
        NfsCall::Fsstat(_) => Some(NfsReply::Fsstat(FsstatReply {
            attributes: None,
            result: Err(NfsStatus::Jukebox),
        })),
        NfsCall::Fsinfo(_) => Some(NfsReply::Fsinfo(FsinfoReply {
            attributes: None,
            result: Err(NfsStatus::Jukebox),
        })),
        NfsCall::Pathconf(_) => Some(NfsReply::Pathconf(PathconfReply {
            attributes: None,
            result: Err(NfsStatus::Jukebox),
        })),
        NfsCall::Commit(_) => Some(NfsReply::Commit(CommitReply {
            wcc: NOTHING,
            result: Err(NfsStatus::Jukebox),
        })),
    }
}

#[tactic(auto, unfolding(crate::specs::Refusal::refusal_of))]
fn mount_refusal(call: &MountCall) -> Refusal
    ensures { result ≡ refusal_of (calls.Mount call.now) }
{
    match call {
        MountCall::Mnt(_) => Refusal::Reply(Reply::Mount(MountReply::Mnt(Err(
            MountStatus::ServerFault,
        )))),
        MountCall::Null
        | MountCall::Dump
        | MountCall::Unmount(_)
        | MountCall::UnmountAll
        | MountCall::Export => Refusal::SystemError,
    }
}

fn nlm_refusal(call: &NlmCall) -> Result<Option<NlmReply>, AllocError>
    ensures ok { IfOk result (λ reply. reply ≡ nlm_refusal call.now) }
    ensures err { OnErr result (is_some (nlm_refusal call.now) ≡ true) }
{
    Ok(match call {
        NlmCall::Test(arguments) => Some(NlmReply::Test(TestResult {
            cookie: arguments.cookie.clone()?,
            status: TestStatus::DeniedNoLocks,
        })),
        NlmCall::Lock(arguments) => Some(NlmReply::Lock(no_locks(&arguments.cookie)?)),
        NlmCall::Cancel(arguments) => Some(NlmReply::Cancel(no_locks(&arguments.cookie)?)),
        NlmCall::Unlock(arguments) => Some(NlmReply::Unlock(no_locks(&arguments.cookie)?)),
        NlmCall::Granted(arguments) => Some(NlmReply::Granted(no_locks(&arguments.cookie)?)),
        NlmCall::Share(arguments) => Some(NlmReply::Share(no_locks(&arguments.cookie)?)),
        NlmCall::Unshare(arguments) => Some(NlmReply::Unshare(no_locks(&arguments.cookie)?)),
        NlmCall::NmLock(arguments) => Some(NlmReply::NmLock(no_locks(&arguments.cookie)?)),
        NlmCall::Null
        | NlmCall::TestMsg(_)
        | NlmCall::LockMsg(_)
        | NlmCall::CancelMsg(_)
        | NlmCall::UnlockMsg(_)
        | NlmCall::GrantedMsg(_)
        | NlmCall::TestRes(_)
        | NlmCall::LockRes(_)
        | NlmCall::CancelRes(_)
        | NlmCall::UnlockRes(_)
        | NlmCall::GrantedRes(_)
        | NlmCall::FreeAll(_) => None,
    })
}

/// The lock is denied for want of memory, with the caller's cookie.
fn no_locks(cookie: &Bytes) -> Result<NlmResult, AllocError>
    ensures { IfOk result (λ answer. answer ≡ no_locks cookie.now) }
{
    Ok(NlmResult {
        cookie: cookie.clone()?,
        status: NlmStatus::DeniedNoLocks,
    })
}
