//! The arguments of each procedure of NLM (RFC 1813, 6.2).

ghost use Rattle.side_wire.specs.Nlm.{ReadsNlmCall};

use super::NlmCall;
use super::items::{
    read_cancel_arguments, read_free_all_arguments, read_lock_arguments, read_plain_result,
    read_share_arguments, read_test_arguments, read_test_result, read_unlock_arguments,
};
use nfs_xdr::{SharedReader, XdrError};

/// The arguments of TEST.
pub(super) fn read_test(arguments: &mut SharedReader<'_>) -> Result<NlmCall, XdrError>
    ensures { ReadsNlmCall 1 arguments.old arguments.new result }
{
    Ok(NlmCall::Test(read_test_arguments(arguments)?))
}

/// The arguments of LOCK.
pub(super) fn read_lock(arguments: &mut SharedReader<'_>) -> Result<NlmCall, XdrError>
    ensures { ReadsNlmCall 2 arguments.old arguments.new result }
{
    Ok(NlmCall::Lock(read_lock_arguments(arguments)?))
}

/// The arguments of CANCEL.
pub(super) fn read_cancel(arguments: &mut SharedReader<'_>) -> Result<NlmCall, XdrError>
    ensures { ReadsNlmCall 3 arguments.old arguments.new result }
{
    Ok(NlmCall::Cancel(read_cancel_arguments(arguments)?))
}

/// The arguments of UNLOCK.
pub(super) fn read_unlock(arguments: &mut SharedReader<'_>) -> Result<NlmCall, XdrError>
    ensures { ReadsNlmCall 4 arguments.old arguments.new result }
{
    Ok(NlmCall::Unlock(read_unlock_arguments(arguments)?))
}

/// The arguments of GRANTED.
pub(super) fn read_granted(arguments: &mut SharedReader<'_>) -> Result<NlmCall, XdrError>
    ensures { ReadsNlmCall 5 arguments.old arguments.new result }
{
    Ok(NlmCall::Granted(read_test_arguments(arguments)?))
}

/// The arguments of TEST_MSG.
pub(super) fn read_test_msg(arguments: &mut SharedReader<'_>) -> Result<NlmCall, XdrError>
    ensures { ReadsNlmCall 6 arguments.old arguments.new result }
{
    Ok(NlmCall::TestMsg(read_test_arguments(arguments)?))
}

/// The arguments of LOCK_MSG.
pub(super) fn read_lock_msg(arguments: &mut SharedReader<'_>) -> Result<NlmCall, XdrError>
    ensures { ReadsNlmCall 7 arguments.old arguments.new result }
{
    Ok(NlmCall::LockMsg(read_lock_arguments(arguments)?))
}

/// The arguments of CANCEL_MSG.
pub(super) fn read_cancel_msg(arguments: &mut SharedReader<'_>) -> Result<NlmCall, XdrError>
    ensures { ReadsNlmCall 8 arguments.old arguments.new result }
{
    Ok(NlmCall::CancelMsg(read_cancel_arguments(arguments)?))
}

/// The arguments of UNLOCK_MSG.
pub(super) fn read_unlock_msg(arguments: &mut SharedReader<'_>) -> Result<NlmCall, XdrError>
    ensures { ReadsNlmCall 9 arguments.old arguments.new result }
{
    Ok(NlmCall::UnlockMsg(read_unlock_arguments(arguments)?))
}

/// The arguments of GRANTED_MSG.
pub(super) fn read_granted_msg(arguments: &mut SharedReader<'_>) -> Result<NlmCall, XdrError>
    ensures { ReadsNlmCall 10 arguments.old arguments.new result }
{
    Ok(NlmCall::GrantedMsg(read_test_arguments(arguments)?))
}

/// The arguments of TEST_RES.
pub(super) fn read_test_res(arguments: &mut SharedReader<'_>) -> Result<NlmCall, XdrError>
    ensures { ReadsNlmCall 11 arguments.old arguments.new result }
{
    Ok(NlmCall::TestRes(read_test_result(arguments)?))
}

/// The arguments of LOCK_RES.
pub(super) fn read_lock_res(arguments: &mut SharedReader<'_>) -> Result<NlmCall, XdrError>
    ensures { ReadsNlmCall 12 arguments.old arguments.new result }
{
    Ok(NlmCall::LockRes(read_plain_result(arguments)?))
}

/// The arguments of CANCEL_RES.
pub(super) fn read_cancel_res(arguments: &mut SharedReader<'_>) -> Result<NlmCall, XdrError>
    ensures { ReadsNlmCall 13 arguments.old arguments.new result }
{
    Ok(NlmCall::CancelRes(read_plain_result(arguments)?))
}

/// The arguments of UNLOCK_RES.
pub(super) fn read_unlock_res(arguments: &mut SharedReader<'_>) -> Result<NlmCall, XdrError>
    ensures { ReadsNlmCall 14 arguments.old arguments.new result }
{
    Ok(NlmCall::UnlockRes(read_plain_result(arguments)?))
}

/// The arguments of GRANTED_RES.
pub(super) fn read_granted_res(arguments: &mut SharedReader<'_>) -> Result<NlmCall, XdrError>
    ensures { ReadsNlmCall 15 arguments.old arguments.new result }
{
    Ok(NlmCall::GrantedRes(read_plain_result(arguments)?))
}

/// The arguments of SHARE.
pub(super) fn read_share(arguments: &mut SharedReader<'_>) -> Result<NlmCall, XdrError>
    ensures { ReadsNlmCall 20 arguments.old arguments.new result }
{
    Ok(NlmCall::Share(read_share_arguments(arguments)?))
}

/// The arguments of UNSHARE.
pub(super) fn read_unshare(arguments: &mut SharedReader<'_>) -> Result<NlmCall, XdrError>
    ensures { ReadsNlmCall 21 arguments.old arguments.new result }
{
    Ok(NlmCall::Unshare(read_share_arguments(arguments)?))
}

/// The arguments of NM_LOCK.
pub(super) fn read_nm_lock(arguments: &mut SharedReader<'_>) -> Result<NlmCall, XdrError>
    ensures { ReadsNlmCall 22 arguments.old arguments.new result }
{
    Ok(NlmCall::NmLock(read_lock_arguments(arguments)?))
}

/// The arguments of FREE_ALL.
pub(super) fn read_free_all(arguments: &mut SharedReader<'_>) -> Result<NlmCall, XdrError>
    ensures { ReadsNlmCall 23 arguments.old arguments.new result }
{
    Ok(NlmCall::FreeAll(read_free_all_arguments(arguments)?))
}
