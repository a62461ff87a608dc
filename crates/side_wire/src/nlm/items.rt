//! Items of NLM (RFC 1813, 6.1.4), read and written.

ghost use Rattle.nfs_xdr.specs.Reading.{ReadsFront, ReadsShared};
ghost use Rattle.nfs_xdr.specs.Types.{HasSpelling};
ghost use Rattle.nfs_xdr.specs.Writing.{WritesFront};
ghost use Rattle.nfs_xdr.specs.Writing.{WritesResult};
ghost use Rattle.side_wire.specs.declared.nlm.TestStatus.TheVariants.{Denied};
ghost use Rattle.side_wire.specs.Nlm.{test_result, plain_result, share_result, HasTestResultForm, HasTestStatusForm};
ghost use Rattle.side_wire.specs.Nlm.{HasResultForm, IsNetobj};
ghost use Rattle.side_wire.specs.Parts.{lock_parts_value, holder_parts_value, status_parts_value, share_parts_value};
ghost use Rattle.side_wire.specs.NlmTypes.{netobj, nlm4_stats, nlm_status_number, nlm4_lock, nlm4_holder};
ghost use Rattle.side_wire.specs.NlmTypes.{nlm4_testrply, test_status_value, nlm4_testres};
ghost use Rattle.side_wire.specs.NlmTypes.{test_result_value, nlm4_res, result_value, nlm4_testargs, test_value};
ghost use Rattle.side_wire.specs.NlmTypes.{nlm4_lockargs, lock_arguments_value, nlm4_cancargs, cancel_value};
ghost use Rattle.side_wire.specs.NlmTypes.{nlm4_unlockargs, unlock_value, fsh4_mode, mode_number, fsh4_access};
ghost use Rattle.side_wire.specs.NlmTypes.{access_number, nlm4_share, nlm4_shareargs};
ghost use Rattle.side_wire.specs.NlmTypes.{share_arguments_value, nlm4_notify, free_all_value};

use super::parts::{HolderParts, LockParts, ShareParts, StatusParts};
use super::{
    CancelArguments, FreeAllArguments, LockArguments, LockHolder, NlmResult, NlmStatus,
    ShareAccess, ShareArguments, ShareMode, TestArguments, TestResult, TestStatus, UnlockArguments,
};
use nfs_xdr::{Part, SharedReader, Writer, XdrError};

/// Whether a lock is claimed again, and the caller's state.
#[derive(Clone, Copy)]
struct Claim {
    reclaim: bool,
    state: i32,
}

/// The arguments of TEST and GRANTED (`nlm4_testargs`).
#[tactic(auto, unfolding(nfs_xdr::specs::Reading::read))]
pub(super) fn read_test_arguments(reader: &mut SharedReader<'_>) -> Result<TestArguments, XdrError>
    ensures { ReadsShared nlm4_testargs test_value reader.old reader.new result }
{
    let cookie = read_netobj(reader)?;
    let exclusive = reader.bool()?;
    let lock = read_lock(reader)?;
    Ok(TestArguments {
        cookie: cookie.share()?,
        exclusive,
        lock: lock.share()?,
    })
}

/// The arguments of LOCK and NM_LOCK (`nlm4_lockargs`).
#[tactic(auto, unfolding(nfs_xdr::specs::Reading::read))]
pub(super) fn read_lock_arguments(reader: &mut SharedReader<'_>) -> Result<LockArguments, XdrError>
    ensures { ReadsShared nlm4_lockargs lock_arguments_value reader.old reader.new result }
{
    let cookie = read_netobj(reader)?;
    let block = reader.bool()?;
    let exclusive = reader.bool()?;
    let lock = read_lock(reader)?;
    let reclaim = reader.bool()?;
    let state = reader.i32()?;
    Ok(LockArguments {
        cookie: cookie.share()?,
        block,
        exclusive,
        lock: lock.share()?,
        reclaim,
        state,
    })
}

/// The arguments of CANCEL (`nlm4_cancargs`).
#[tactic(auto, unfolding(nfs_xdr::specs::Reading::read))]
pub(super) fn read_cancel_arguments(
    reader: &mut SharedReader<'_>,
) -> Result<CancelArguments, XdrError>
    ensures { ReadsShared nlm4_cancargs cancel_value reader.old reader.new result }
{
    let cookie = read_netobj(reader)?;
    let block = reader.bool()?;
    let exclusive = reader.bool()?;
    let lock = read_lock(reader)?;
    Ok(CancelArguments {
        cookie: cookie.share()?,
        block,
        exclusive,
        lock: lock.share()?,
    })
}

/// The arguments of UNLOCK (`nlm4_unlockargs`).
#[tactic(auto, unfolding(nfs_xdr::specs::Reading::read))]
pub(super) fn read_unlock_arguments(
    reader: &mut SharedReader<'_>,
) -> Result<UnlockArguments, XdrError>
    ensures { ReadsShared nlm4_unlockargs unlock_value reader.old reader.new result }
{
    let cookie = read_netobj(reader)?;
    let lock = read_lock(reader)?;
    Ok(UnlockArguments {
        cookie: cookie.share()?,
        lock: lock.share()?,
    })
}

/// The arguments of SHARE and UNSHARE (`nlm4_shareargs`).
#[tactic(auto, unfolding(nfs_xdr::specs::Reading::read))]
pub(super) fn read_share_arguments(
    reader: &mut SharedReader<'_>,
) -> Result<ShareArguments, XdrError>
    ensures { ReadsShared nlm4_shareargs share_arguments_value reader.old reader.new result }
{
    let cookie = read_netobj(reader)?;
    let share = read_share(reader)?;
    let reclaim = reader.bool()?;
    Ok(ShareArguments {
        cookie: cookie.share()?,
        share: share.share()?,
        reclaim,
    })
}

/// The arguments of FREE_ALL (`nlm4_notify`), whose name has at most 1025 bytes.
#[tactic(auto, unfolding(nfs_xdr::specs::Reading::read))]
pub(super) fn read_free_all_arguments(
    reader: &mut SharedReader<'_>,
) -> Result<FreeAllArguments, XdrError>
    ensures { ReadsShared nlm4_notify free_all_value reader.old reader.new result }
{
    let name = reader.opaque(1025)?;
    let state = reader.i32()?;
    Ok(FreeAllArguments {
        name: name.share()?,
        state,
    })
}

/// The result of TEST (`nlm4_testres`).
#[tactic(auto, unfolding(nfs_xdr::specs::Reading::read))]
pub(super) fn read_test_result(reader: &mut SharedReader<'_>) -> Result<TestResult, XdrError>
    ensures { ReadsShared nlm4_testres test_result_value reader.old reader.new result }
{
    let cookie = read_netobj(reader)?;
    let status = read_test_status(reader)?;
    Ok(TestResult {
        cookie: cookie.share()?,
        status: status.share()?,
    })
}

/// The result of LOCK, CANCEL, UNLOCK and GRANTED (`nlm4_res`).
#[tactic(auto, unfolding(nfs_xdr::specs::Reading::read))]
pub(crate) fn read_plain_result(reader: &mut SharedReader<'_>) -> Result<NlmResult, XdrError>
    ensures { ReadsShared nlm4_res result_value reader.old reader.new result }
{
    let cookie = read_netobj(reader)?;
    let status = read_status(reader)?;
    Ok(NlmResult {
        cookie: cookie.share()?,
        status,
    })
}

/// An opaque item or a string of at most 1024 bytes (`netobj`, `caller_name`).
fn read_netobj<'a>(reader: &mut SharedReader<'a>) -> Result<Part<'a>, XdrError>
    ensures { ReadsFront netobj (λ bytes. bytes) reader.entry.now reader.exit.now result }
{
    reader.opaque(1024)
}

/// A lock (`nlm4_lock`).
#[tactic(auto, unfolding(nfs_xdr::specs::Reading::read))]
fn read_lock<'a>(reader: &mut SharedReader<'a>) -> Result<LockParts<'a>, XdrError>
    ensures { ReadsFront nlm4_lock lock_parts_value reader.entry.now reader.exit.now result }
{
    Ok(LockParts {
        caller_name: read_netobj(reader)?,
        file: read_netobj(reader)?,
        owner: read_netobj(reader)?,
        process: reader.i32()?,
        offset: reader.u64()?,
        length: reader.u64()?,
    })
}

/// A share (`nlm4_share`).
#[tactic(auto, unfolding(nfs_xdr::specs::Reading::read))]
fn read_share<'a>(reader: &mut SharedReader<'a>) -> Result<ShareParts<'a>, XdrError>
    ensures { ReadsFront nlm4_share share_parts_value reader.entry.now reader.exit.now result }
{
    Ok(ShareParts {
        caller_name: read_netobj(reader)?,
        file: read_netobj(reader)?,
        owner: read_netobj(reader)?,
        mode: read_mode(reader)?,
        access: read_access(reader)?,
    })
}

/// Who holds a lock (`nlm4_holder`).
#[tactic(auto, unfolding(nfs_xdr::specs::Reading::read))]
fn read_holder<'a>(reader: &mut SharedReader<'a>) -> Result<HolderParts<'a>, XdrError>
    ensures { ReadsFront nlm4_holder holder_parts_value reader.entry.now reader.exit.now result }
{
    Ok(HolderParts {
        exclusive: reader.bool()?,
        process: reader.i32()?,
        owner: read_netobj(reader)?,
        offset: reader.u64()?,
        length: reader.u64()?,
    })
}

/// What a share denies to others (`fsh4_mode`).
#[tactic(auto, unfolding(nfs_xdr::specs::Reading::read))]
fn read_mode(reader: &mut SharedReader<'_>) -> Result<ShareMode, XdrError>
    ensures { ReadsFront fsh4_mode mode_number reader.old reader.new result }
{
    match reader.u32()? {
        0 => Ok(ShareMode::DenyNone),
        1 => Ok(ShareMode::DenyRead),
        2 => Ok(ShareMode::DenyWrite),
        3 => Ok(ShareMode::DenyReadWrite),
        _ => Err(XdrError::BadValue),
    }
}

/// What a share is for (`fsh4_access`).
#[tactic(auto, unfolding(nfs_xdr::specs::Reading::read))]
fn read_access(reader: &mut SharedReader<'_>) -> Result<ShareAccess, XdrError>
    ensures { ReadsFront fsh4_access access_number reader.old reader.new result }
{
    match reader.u32()? {
        0 => Ok(ShareAccess::Neither),
        1 => Ok(ShareAccess::Read),
        2 => Ok(ShareAccess::Write),
        3 => Ok(ShareAccess::ReadWrite),
        _ => Err(XdrError::BadValue),
    }
}

/// A status (`nlm4_stats`).
#[tactic(auto, unfolding(nfs_xdr::specs::Reading::read))]
fn read_status(reader: &mut SharedReader<'_>) -> Result<NlmStatus, XdrError>
    ensures { ReadsFront nlm4_stats nlm_status_number reader.old reader.new result }
{
    match reader.u32()? {
        0 => Ok(NlmStatus::Granted),
        1 => Ok(NlmStatus::Denied),
        2 => Ok(NlmStatus::DeniedNoLocks),
        3 => Ok(NlmStatus::Blocked),
        4 => Ok(NlmStatus::DeniedGracePeriod),
        5 => Ok(NlmStatus::Deadlock),
        6 => Ok(NlmStatus::ReadOnly),
        7 => Ok(NlmStatus::StaleHandle),
        8 => Ok(NlmStatus::FileTooBig),
        9 => Ok(NlmStatus::Failed),
        _ => Err(XdrError::BadValue),
    }
}

/// What became of a TEST (`nlm4_testrply`).
#[tactic(auto, using(crate::proofs::NlmLaws::ten_arms), unfolding(nfs_xdr::specs::Reading::read))]
fn read_test_status<'a>(reader: &mut SharedReader<'a>) -> Result<StatusParts<'a>, XdrError>
    ensures { ReadsFront nlm4_testrply status_parts_value reader.entry.now reader.exit.now result }
{
    match reader.u32()? {
        0 => Ok(StatusParts::Granted),
        1 => Ok(StatusParts::Denied(read_holder(reader)?)),
        2 => Ok(StatusParts::DeniedNoLocks),
        3 => Ok(StatusParts::Blocked),
        4 => Ok(StatusParts::DeniedGracePeriod),
        5 => Ok(StatusParts::Deadlock),
        6 => Ok(StatusParts::ReadOnly),
        7 => Ok(StatusParts::StaleHandle),
        8 => Ok(StatusParts::FileTooBig),
        9 => Ok(StatusParts::Failed),
        _ => Err(XdrError::BadValue),
    }
}

/// Writes the result of TEST (`nlm4_testres`).
#[tactic(auto, unfolding(nfs_xdr::specs::Writing::appended))]
pub(crate) fn write_test_result(writer: &mut Writer, tested: &TestResult) -> Result<(), XdrError>
    requires { HasTestResultForm tested.now }
    ensures { WritesResult (test_result tested.now) writer.old writer.new result }
{
    writer.opaque(tested.cookie.as_slice())?;
    write_test_status(writer, &tested.status)
}

/// Writes the result of LOCK, CANCEL, UNLOCK and GRANTED (`nlm4_res`).
#[tactic(auto, unfolding(nfs_xdr::specs::Writing::appended))]
pub(crate) fn write_plain_result(writer: &mut Writer, answer: &NlmResult) -> Result<(), XdrError>
    requires { HasResultForm answer.now }
    ensures { WritesResult (plain_result answer.now) writer.old writer.new result }
{
    writer.opaque(answer.cookie.as_slice())?;
    write_status(writer, answer.status)
}

/// Writes the result of SHARE and UNSHARE (`nlm4_shareres`), with 0 as sequence.
#[tactic(auto, unfolding(nfs_xdr::specs::Writing::appended))]
pub(super) fn write_share_result(writer: &mut Writer, answer: &NlmResult) -> Result<(), XdrError>
    requires { HasResultForm answer.now }
    ensures { WritesResult (share_result answer.now) writer.old writer.new result }
{
    writer.opaque(answer.cookie.as_slice())?;
    write_status(writer, answer.status)?;
    writer.i32(0)
}

/// Writes a status (`nlm4_stats`).
#[tactic(auto, unfolding(nfs_xdr::specs::Writing::appended))]
fn write_status(writer: &mut Writer, status: NlmStatus) -> Result<(), XdrError>
    ensures written { WritesFront nlm4_stats (nlm_status_number status) writer.old writer.new result }
    ensures form { HasSpelling nlm4_stats (nlm_status_number status) }
{
    writer.u32(match status {
        NlmStatus::Granted => 0,
        NlmStatus::Denied => 1,
        NlmStatus::DeniedNoLocks => 2,
        NlmStatus::Blocked => 3,
        NlmStatus::DeniedGracePeriod => 4,
        NlmStatus::Deadlock => 5,
        NlmStatus::ReadOnly => 6,
        NlmStatus::StaleHandle => 7,
        NlmStatus::FileTooBig => 8,
        NlmStatus::Failed => 9,
    })
}

/// Writes what became of a TEST (`nlm4_testrply`).
#[tactic(auto, using(nfs_xdr::proofs::UnionArmLemmas::unions), unfolding(nfs_xdr::specs::Writing::appended))]
fn write_test_status(writer: &mut Writer, status: &TestStatus) -> Result<(), XdrError>
    requires { HasTestStatusForm status.now }
    ensures { WritesResult (nlm4_testrply, test_status_value status.now) writer.old writer.new result }
{
    match status {
        TestStatus::Granted => writer.u32(0),
        TestStatus::Denied(holder) => write_denied(writer, holder),
        TestStatus::DeniedNoLocks => writer.u32(2),
        TestStatus::Blocked => writer.u32(3),
        TestStatus::DeniedGracePeriod => writer.u32(4),
        TestStatus::Deadlock => writer.u32(5),
        TestStatus::ReadOnly => writer.u32(6),
        TestStatus::StaleHandle => writer.u32(7),
        TestStatus::FileTooBig => writer.u32(8),
        TestStatus::Failed => writer.u32(9),
    }
}

/// Writes NLM4_DENIED with its arm, who holds the lock (`nlm4_holder`).
#[tactic(auto, unfolding(nfs_xdr::specs::Writing::appended, nfs_xdr::specs::Writing::with_arm))]
fn write_denied(writer: &mut Writer, holder: &LockHolder) -> Result<(), XdrError>
    requires { IsNetobj holder.now.owner }
    ensures { WritesResult (nlm4_testrply, test_status_value (Denied holder.now)) writer.old writer.new result }
{
    writer.u32(1)?;
    writer.bool(holder.exclusive)?;
    writer.i32(holder.process)?;
    writer.opaque(holder.owner.as_slice())?;
    writer.u64(holder.offset)?;
    writer.u64(holder.length)
}
