//! NLM version 4 (RFC 1813, appendix II).

ghost use Rattle.std.specs.Prelude.{◌≡◌, ◌++◌, IfOk, IfErr, IsErrOf, OnOk, option_copied, slice_get};
ghost use Rattle.nfs_xdr.specs.Laws.{IsItsSpelling};
ghost use Rattle.nfs_xdr.specs.declared.XdrError.TheVariants.{Memory};
ghost use Rattle.nfs_xdr.specs.Programs.{CallHoldsBytes, IsFrontedBy, IsGarbage, SpellsOneCall};
ghost use Rattle.nfs_xdr.specs.Writing.{WritesResult};
ghost use Rattle.side_wire.specs.Changing.{changes_locks, is_changing_nlm};
ghost use Rattle.side_wire.specs.Handles.{nlm_handles};
ghost use Rattle.side_wire.specs.Nlm.{nlm_procedure_of, SpellsNlmArguments, nlm_result_of, nlm_result_bytes};
ghost use Rattle.side_wire.specs.Nlm.{nlm_arguments, HasNlmForm, ReadsNlmCall};

pub(crate) mod items;
mod parts;
mod procedures;

use crate::message::NlmLock;
use bytes::Bytes;
use nfs_xdr::{ArgumentsError, SharedReader, Writer, XdrError, are_bytes};

/// What became of a call (`nlm4_stats`).
#[derive(Clone, Copy, Debug, PartialEq, Eq)]
pub enum NlmStatus {
    Granted,
    Denied,
    DeniedNoLocks,
    Blocked,
    DeniedGracePeriod,
    Deadlock,
    ReadOnly,
    StaleHandle,
    FileTooBig,
    Failed,
}

/// Who holds a lock, and on which bytes (`nlm4_holder`).
#[derive(Clone, Drop, PartialEq, Eq)]
pub struct LockHolder {
    pub exclusive: bool,
    /// The process within the caller (`svid`).
    pub process: i32,
    /// The owner within the caller (`oh`), of at most 1024 bytes.
    pub owner: Bytes,
    /// In bytes.
    pub offset: u64,
    /// In bytes; 0 runs to the end.
    pub length: u64,
}

/// What became of a TEST (`nlm4_testrply`).
#[derive(Drop, PartialEq, Eq)]
pub enum TestStatus {
    Granted,
    /// With one who holds what conflicts.
    Denied(LockHolder),
    DeniedNoLocks,
    Blocked,
    DeniedGracePeriod,
    Deadlock,
    ReadOnly,
    StaleHandle,
    FileTooBig,
    Failed,
}

/// The result of TEST (`nlm4_testres`).
#[derive(Clone, Drop, PartialEq, Eq)]
pub struct TestResult {
    /// What the caller gave, of at most 1024 bytes.
    pub cookie: Bytes,
    pub status: TestStatus,
}

/// The result of every other procedure that has one (`nlm4_res`, and but for its sequence `nlm4_shareres`).
#[derive(Clone, Drop, PartialEq, Eq)]
pub struct NlmResult {
    /// What the caller gave, of at most 1024 bytes.
    pub cookie: Bytes,
    pub status: NlmStatus,
}

/// The arguments of TEST and GRANTED (`nlm4_testargs`).
#[derive(Clone, Drop, PartialEq, Eq)]
pub struct TestArguments {
    pub cookie: Bytes,
    pub exclusive: bool,
    pub lock: NlmLock,
}

/// The arguments of LOCK and NM_LOCK (`nlm4_lockargs`).
#[derive(Drop, PartialEq, Eq)]
pub struct LockArguments {
    pub cookie: Bytes,
    /// Whether the call waits where the lock conflicts.
    pub block: bool,
    pub exclusive: bool,
    pub lock: NlmLock,
    pub reclaim: bool,
    pub state: i32,
}

/// The arguments of CANCEL (`nlm4_cancargs`).
#[derive(Drop, PartialEq, Eq)]
pub struct CancelArguments {
    pub cookie: Bytes,
    pub block: bool,
    pub exclusive: bool,
    pub lock: NlmLock,
}

/// The arguments of UNLOCK (`nlm4_unlockargs`).
#[derive(Drop, PartialEq, Eq)]
pub struct UnlockArguments {
    pub cookie: Bytes,
    pub lock: NlmLock,
}

/// What a share denies to others (`fsh4_mode`).
#[derive(Clone, Copy, Debug, PartialEq, Eq)]
pub enum ShareMode {
    DenyNone,
    DenyRead,
    DenyWrite,
    DenyReadWrite,
}

/// What a share is for (`fsh4_access`).
#[derive(Clone, Copy, Debug, PartialEq, Eq)]
pub enum ShareAccess {
    Neither,
    Read,
    Write,
    ReadWrite,
}

/// A share as a caller names it (`nlm4_share`).
#[derive(Drop, PartialEq, Eq)]
pub struct NlmShare {
    pub caller_name: Bytes,
    /// The file's handle.
    pub file: Bytes,
    /// The owner within the caller (`oh`).
    pub owner: Bytes,
    pub mode: ShareMode,
    pub access: ShareAccess,
}

/// The arguments of SHARE and UNSHARE (`nlm4_shareargs`).
#[derive(Drop, PartialEq, Eq)]
pub struct ShareArguments {
    pub cookie: Bytes,
    pub share: NlmShare,
    pub reclaim: bool,
}

/// The arguments of FREE_ALL (`nlm4_notify`).
#[derive(Drop, PartialEq, Eq)]
pub struct FreeAllArguments {
    /// The caller whose locks and shares are freed.
    pub name: Bytes,
    pub state: i32,
}

/// A call of NLM version 4 (RFC 1813, 6.2).
#[derive(Drop, PartialEq, Eq)]
pub enum NlmCall {
    /// Procedure 0, NULL.
    Null,
    /// Procedure 1, TEST.
    Test(TestArguments),
    /// Procedure 2, LOCK.
    Lock(LockArguments),
    /// Procedure 3, CANCEL.
    Cancel(CancelArguments),
    /// Procedure 4, UNLOCK.
    Unlock(UnlockArguments),
    /// Procedure 5, GRANTED.
    Granted(TestArguments),
    /// Procedure 6, TEST_MSG.
    TestMsg(TestArguments),
    /// Procedure 7, LOCK_MSG.
    LockMsg(LockArguments),
    /// Procedure 8, CANCEL_MSG.
    CancelMsg(CancelArguments),
    /// Procedure 9, UNLOCK_MSG.
    UnlockMsg(UnlockArguments),
    /// Procedure 10, GRANTED_MSG.
    GrantedMsg(TestArguments),
    /// Procedure 11, TEST_RES.
    TestRes(TestResult),
    /// Procedure 12, LOCK_RES.
    LockRes(NlmResult),
    /// Procedure 13, CANCEL_RES.
    CancelRes(NlmResult),
    /// Procedure 14, UNLOCK_RES.
    UnlockRes(NlmResult),
    /// Procedure 15, GRANTED_RES.
    GrantedRes(NlmResult),
    /// Procedure 20, SHARE.
    Share(ShareArguments),
    /// Procedure 21, UNSHARE.
    Unshare(ShareArguments),
    /// Procedure 22, NM_LOCK.
    NmLock(LockArguments),
    /// Procedure 23, FREE_ALL.
    FreeAll(FreeAllArguments),
}

impl NlmCall {
    /// Whether a call may change locks, or puts a message, so that it is not executed again where its record comes once
    /// more.
    pub fn is_changing(&self) -> bool
        ensures { result ≡ is_changing_nlm self.now }
    {
        match self {
            NlmCall::TestMsg(_) | NlmCall::GrantedMsg(_) => true,
            _ => self.changes_locks(),
        }
    }

    /// Whether a call may change what files have of locks.
    pub fn changes_locks(&self) -> bool
        ensures { result ≡ changes_locks self.now }
    {
        match self {
            NlmCall::Lock(_) => true,
            NlmCall::Cancel(_) => true,
            NlmCall::Unlock(_) => true,
            NlmCall::LockMsg(_) => true,
            NlmCall::CancelMsg(_) => true,
            NlmCall::UnlockMsg(_) => true,
            NlmCall::GrantedRes(_) => true,
            NlmCall::Share(_) => true,
            NlmCall::Unshare(_) => true,
            NlmCall::NmLock(_) => true,
            NlmCall::FreeAll(_) => true,
            _ => false,
        }
    }

    /// The handle of a call, if it has one.
    pub fn handle(&self) -> Option<&Bytes>
        ensures { option_copied result ≡ slice_get (nlm_handles self.now) 0 }
    {
        match self {
            NlmCall::Test(arguments) | NlmCall::TestMsg(arguments) => Some(&arguments.lock.file),
            NlmCall::Lock(arguments) | NlmCall::NmLock(arguments) | NlmCall::LockMsg(arguments) => {
                Some(&arguments.lock.file)
            }
            NlmCall::Cancel(arguments) | NlmCall::CancelMsg(arguments) => Some(
                &arguments.lock.file,
            ),
            NlmCall::Unlock(arguments) | NlmCall::UnlockMsg(arguments) => Some(
                &arguments.lock.file,
            ),
            NlmCall::Share(arguments) | NlmCall::Unshare(arguments) => Some(&arguments.share.file),
            _ => None,
        }
    }
}

/// The results of a call of NLM version 4 (RFC 1813, 6.2).
#[derive(Drop, PartialEq, Eq)]
pub enum NlmReply {
    /// Procedure 0, NULL.
    Null,
    /// Procedure 1, TEST.
    Test(TestResult),
    /// Procedure 2, LOCK.
    Lock(NlmResult),
    /// Procedure 3, CANCEL.
    Cancel(NlmResult),
    /// Procedure 4, UNLOCK.
    Unlock(NlmResult),
    /// Procedure 5, GRANTED.
    Granted(NlmResult),
    /// Procedure 6, TEST_MSG.
    TestMsg,
    /// Procedure 7, LOCK_MSG.
    LockMsg,
    /// Procedure 8, CANCEL_MSG.
    CancelMsg,
    /// Procedure 9, UNLOCK_MSG.
    UnlockMsg,
    /// Procedure 10, GRANTED_MSG.
    GrantedMsg,
    /// Procedure 11, TEST_RES.
    TestRes,
    /// Procedure 12, LOCK_RES.
    LockRes,
    /// Procedure 13, CANCEL_RES.
    CancelRes,
    /// Procedure 14, UNLOCK_RES.
    UnlockRes,
    /// Procedure 15, GRANTED_RES.
    GrantedRes,
    /// Procedure 20, SHARE.
    Share(NlmResult),
    /// Procedure 21, UNSHARE.
    Unshare(NlmResult),
    /// Procedure 22, NM_LOCK.
    NmLock(NlmResult),
    /// Procedure 23, FREE_ALL.
    FreeAll,
}

/// One list of bytes holds at its front the arguments of at most one call of a procedure.
pub fn one_call_is_spelled()
    ensures { SpellsOneCall nlm_procedure_of SpellsNlmArguments }
{}

/// The call of the procedure of this number that the bytes hold. Bytes after its arguments are ignored.
///
/// The byte strings of a call are shared when all of it was read, so `Memory` says that it is one.
pub fn read_args(procedure: u32, mut arguments: SharedReader<'_>) -> Result<NlmCall, ArgumentsError>
    // A call that is read is of that procedure, and a front of the bytes spells its arguments.
    ensures procedure { IfOk result (λ call. nlm_procedure_of call ≡ procedure) }
    ensures found { IfOk result (λ call. IsFrontedBy SpellsNlmArguments call arguments.entry) }
    // Garbage is what no front spells, as arguments of that procedure.
    ensures garbage { IsErrOf result ArgumentsError.Garbage →
        IsGarbage nlm_procedure_of SpellsNlmArguments procedure arguments.entry }
    // There is no memory only for a call that a front spells, and that holds bytes.
    ensures memory { IsErrOf result ArgumentsError.Memory →
        CallHoldsBytes nlm_arguments procedure arguments.entry }
{
    are_bytes(arguments.as_slice());
    Ok(read_call(procedure, &mut arguments)?)
}

/// Writes the result of a reply at the end. An error is want of memory; what the writer then holds of
/// the result is not said.
pub fn write_result(writer: &mut Writer, reply: &NlmReply) -> Result<(), XdrError>
    requires { HasNlmForm reply.now }
    ensures written { OnOk result (writer.new ≡ writer.old ++ nlm_result_bytes reply.now) }
    // Those bytes are the one spelling of the result with zeros as padding.
    ensures spelled { OnOk result
        (IsItsSpelling (nlm_result_of reply.now).0 (nlm_result_of reply.now).1 (nlm_result_bytes reply.now)) }
    ensures err { IfErr result (λ e. e ≡ Memory) }
{
    append_result(writer, reply)
}

/// The arguments of a call, of the procedure of this number. Bytes after them are ignored.
#[tactic(auto, unfolding(nfs_xdr::specs::Reading::read))]
fn read_call(procedure: u32, arguments: &mut SharedReader<'_>) -> Result<NlmCall, XdrError>
    ensures { ReadsNlmCall procedure arguments.old arguments.new result }
{
    match procedure {
        0 => Ok(NlmCall::Null),
        1 => procedures::read_test(arguments),
        2 => procedures::read_lock(arguments),
        3 => procedures::read_cancel(arguments),
        4 => procedures::read_unlock(arguments),
        5 => procedures::read_granted(arguments),
        6 => procedures::read_test_msg(arguments),
        7 => procedures::read_lock_msg(arguments),
        8 => procedures::read_cancel_msg(arguments),
        9 => procedures::read_unlock_msg(arguments),
        10 => procedures::read_granted_msg(arguments),
        11 => procedures::read_test_res(arguments),
        12 => procedures::read_lock_res(arguments),
        13 => procedures::read_cancel_res(arguments),
        14 => procedures::read_unlock_res(arguments),
        15 => procedures::read_granted_res(arguments),
        20 => procedures::read_share(arguments),
        21 => procedures::read_unshare(arguments),
        22 => procedures::read_nm_lock(arguments),
        23 => procedures::read_free_all(arguments),
        _ => Err(XdrError::BadValue),
    }
}

/// Writes the result of a reply at the end, procedure by procedure.
#[tactic(auto, unfolding(nfs_xdr::specs::Writing::appended))]
fn append_result(writer: &mut Writer, reply: &NlmReply) -> Result<(), XdrError>
    requires { HasNlmForm reply.now }
    ensures { WritesResult (nlm_result_of reply.now) writer.old writer.new result }
{
    match reply {
        NlmReply::Null
        | NlmReply::TestMsg
        | NlmReply::LockMsg
        | NlmReply::CancelMsg
        | NlmReply::UnlockMsg
        | NlmReply::GrantedMsg
        | NlmReply::TestRes
        | NlmReply::LockRes
        | NlmReply::CancelRes
        | NlmReply::UnlockRes
        | NlmReply::GrantedRes
        | NlmReply::FreeAll => Ok(()),
        NlmReply::Test(result) => items::write_test_result(writer, result),
        NlmReply::Lock(result)
        | NlmReply::Cancel(result)
        | NlmReply::Unlock(result)
        | NlmReply::Granted(result)
        | NlmReply::NmLock(result) => items::write_plain_result(writer, result),
        NlmReply::Share(result) | NlmReply::Unshare(result) => {
            items::write_share_result(writer, result)
        }
    }
}
