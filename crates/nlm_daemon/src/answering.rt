//! How the result of a call goes to its caller: in the reply, or in a message (RFC 1813, appendix II, 6.2).

ghost use Rattle.std.specs.Prelude.{◌≡◌, ◌++◌, ◌∷◌, [], IfOk, MatchResult, OnOk};
ghost use Rattle.nfs_machine.specs.NlmSteps.{result_with};
ghost use Rattle.nfs_objects.specs.Values.{change_value};
ghost use Rattle.nlm_daemon.specs.Answering.{IsAnswered, callback_of, is_message, posted_by, reply_of};

use bytes::Bytes;
use nfs_machine::Reply;
use nfs_objects::{Change, Draft, Missing};
use side_wire::{Callback, Message, NlmReply, NlmResult, NlmStatus};
use std::alloc::{AllocError, Global};

/// A procedure whose result is a status.
#[derive(Clone, Copy, Debug, PartialEq, Eq)]
pub(crate) enum Procedure {
    Lock,
    NmLock,
    LockMsg,
    Cancel,
    CancelMsg,
    Unlock,
    UnlockMsg,
    Granted,
    GrantedMsg,
    Share,
    Unshare,
}

/// The end of a call that comes to this status. The cookie is the caller's own.
///
/// # Errors
///
/// `Memory`.
pub(crate) fn answer(
    mut draft: Draft<'_>,
    procedure: Procedure,
    cookie: &Bytes,
    status: NlmStatus,
) -> Result<Change, Missing>
    ensures { MatchResult result
        (λ change. IsAnswered draft.entry procedure cookie.now status (change_value change))
        (λ halt. halt ≡ Missing.Memory) }
{
    send_result(&mut draft, procedure, cookie, status)?;
    let reply = reply(procedure, cookie, status)?;
    Ok(draft.answer(Reply::Nlm(reply)))
}

/// What a call is answered that comes to this status. The cookie is the caller's own, which is shared.
fn reply(procedure: Procedure, cookie: &Bytes, status: NlmStatus) -> Result<NlmReply, AllocError>
    ensures { IfOk result (λ reply. reply ≡ reply_of procedure cookie.now status) }
{
    match procedure {
        Procedure::Lock => Ok(NlmReply::Lock(shared_result(cookie, status)?)),
        Procedure::NmLock => Ok(NlmReply::NmLock(shared_result(cookie, status)?)),
        Procedure::LockMsg => Ok(NlmReply::LockMsg),
        Procedure::Cancel => Ok(NlmReply::Cancel(shared_result(cookie, status)?)),
        Procedure::CancelMsg => Ok(NlmReply::CancelMsg),
        Procedure::Unlock => Ok(NlmReply::Unlock(shared_result(cookie, status)?)),
        Procedure::UnlockMsg => Ok(NlmReply::UnlockMsg),
        Procedure::Granted => Ok(NlmReply::Granted(shared_result(cookie, status)?)),
        Procedure::GrantedMsg => Ok(NlmReply::GrantedMsg),
        Procedure::Share => Ok(NlmReply::Share(shared_result(cookie, status)?)),
        Procedure::Unshare => Ok(NlmReply::Unshare(shared_result(cookie, status)?)),
    }
}

/// Puts the result of a MSG call to its caller's host.
///
/// # Errors
///
/// `AllocError` where the memory was refused. It changes nothing.
fn send_result(
    draft: &mut Draft<'_>,
    procedure: Procedure,
    cookie: &Bytes,
    status: NlmStatus,
) -> Result<(), AllocError>
    ensures { OnOk result (draft.new ≡ record draft.old
        { messages = draft.old.messages ++ posted_by procedure draft.old.ctx.host cookie.now status }) }
{
    let Some(call) = callback(draft.alloc(), procedure, cookie, status)? else {
        return Ok(());
    };
    post(draft, call)?;
    Ok(())
}

/// The call that takes the result of a MSG call to its caller's host.
fn callback(
    alloc: Global,
    procedure: Procedure,
    cookie: &Bytes,
    status: NlmStatus,
) -> Result<Option<Callback>, AllocError>
    ensures { IfOk result (λ call. call ≡ callback_of procedure cookie.now status) }
{
    match procedure {
        Procedure::LockMsg => Ok(Some(Callback::LockRes(own_result(alloc, cookie, status)?))),
        Procedure::CancelMsg => Ok(Some(Callback::CancelRes(own_result(alloc, cookie, status)?))),
        Procedure::UnlockMsg => Ok(Some(Callback::UnlockRes(own_result(alloc, cookie, status)?))),
        Procedure::GrantedMsg => Ok(Some(Callback::GrantedRes(own_result(alloc, cookie, status)?))),
        Procedure::Lock
        | Procedure::NmLock
        | Procedure::Cancel
        | Procedure::Unlock
        | Procedure::Granted
        | Procedure::Share
        | Procedure::Unshare => Ok(None),
    }
}

impl Procedure {
    /// Whether its result goes to the caller's host in a message.
    pub(crate) fn is_message(self) -> bool
        ensures { result ≡ is_message self }
    {
        matches!(
            self,
            Procedure::LockMsg | Procedure::CancelMsg | Procedure::UnlockMsg | Procedure::GrantedMsg
        )
    }
}

/// Puts a message to the caller's host.
///
/// # Errors
///
/// `AllocError` where the memory was refused. It changes nothing.
pub(crate) fn post(draft: &mut Draft<'_>, call: Callback) -> Result<(), AllocError>
    ensures { OnOk result (draft.new ≡ record draft.old
        { messages = draft.old.messages ++ record { host = draft.old.ctx.host; call = call } ∷ [] }) }
{
    let host = draft.ctx().host.clone()?;
    draft.send(Message { host, call })
}

/// The result with the caller's cookie, which is shared.
fn shared_result(cookie: &Bytes, status: NlmStatus) -> Result<NlmResult, AllocError>
    ensures { IfOk result (λ r. r ≡ result_with cookie.now status) }
{
    Ok(NlmResult {
        cookie: cookie.clone()?,
        status,
    })
}

/// The same with a cookie of its own, so that a message keeps no record alive.
fn own_result(alloc: Global, cookie: &Bytes, status: NlmStatus) -> Result<NlmResult, AllocError>
    ensures { IfOk result (λ r. r ≡ result_with cookie.now status) }
{
    Ok(NlmResult {
        cookie: Bytes::copy_from_slice(alloc, cookie.as_slice())?,
        status,
    })
}
