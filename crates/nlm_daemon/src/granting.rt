//! Grants: the messages that tell of them, and what hosts answer (RFC 1813, appendix II, 6.2: procedures 5, 10 and 15).

ghost use Rattle.std.specs.Prelude.{◌≡◌, ◌∷◌, [], IfOk, MatchOption, MatchResult, OnOk, Some, length, map};
ghost use Rattle.std.specs.Prelude.{true};
ghost use Rattle.std.specs.Arc.{arc_value};
ghost use Rattle.std.specs.Int.{from_be_bytes, w64};
ghost use Rattle.nfs_machine.specs.Grants.{grant_cookie, grant_message};
ghost use Rattle.nfs_machine.specs.LockSteps.{GrantEnds};
ghost use Rattle.nfs_machine.specs.WellFormed.{WellFormed};
ghost use Rattle.nlm_ranges.specs.Granting.{granted_in};
ghost use Rattle.nfs_machine.specs.declared.calls.Call.TheVariants as calls;
ghost use Rattle.nfs_objects.specs.Attempt.{EndsCall, EndsFirst};
ghost use Rattle.nfs_objects.specs.Begins.{Begins};
ghost use Rattle.nfs_objects.specs.Calls.{locks_at};
ghost use Rattle.nfs_objects.specs.Knows.{Knows};
ghost use Rattle.nfs_objects.specs.Only.{EndsFirstOnly};
ghost use Rattle.nfs_inodes.specs.Locks.{MayHave, locks_set};
ghost use Rattle.nfs_inodes.specs.Stops.{StopsAt};
ghost use Rattle.nlm_daemon.specs.Answering.{granting_call, is_granting};
ghost use Rattle.nlm_daemon.specs.Comes.{ComesTo, Sends, TurnsSending};
ghost use Rattle.nlm_daemon.specs.Granted.{FindsGrant, FindsPending, IsPendingNow, grant_of, grant_places};

use crate::answering::{Procedure, answer};
use crate::filing::put;
use bytes::Bytes;
use nfs_inodes::{exports, lives};
use nfs_machine::Reply;
use nfs_objects::{Addr, Change, Draft, LivingExport, Missing, Mode};
use nlm_ranges::{Going, LockRequest, LockedFile, LockedFiles, Settled, bucket_index};
use side_wire::{Callback, Message, NlmCall, NlmReply, NlmResult, NlmStatus, TestArguments};
use std::alloc::{AllocError, Global};
use std::sync::Arc;

/// Tries GRANTED or GRANTED_MSG, which are denied: this server waits for no lock of another's.
///
/// # Errors
///
/// `Need` of the exports, and `Memory`.
pub(crate) fn attempt(
    draft: Draft<'_>,
    procedure: Procedure,
    arguments: &TestArguments,
) -> Result<Change, Missing>
    requires grants { is_granting procedure ≡ true }
    requires begins { Begins (granting_call procedure arguments.now) draft }
    ensures ends { EndsCall (granting_call procedure arguments.now) draft.entry.ctx draft.entry.view result }
    ensures first { EndsFirst (granting_call procedure arguments.now) draft.entry.view result }
    ensures only { EndsFirstOnly (granting_call procedure arguments.now) draft.entry.view result }
{
    exports(&draft)?;
    answer(draft, procedure, &arguments.cookie, NlmStatus::Denied)
}

/// Tries GRANTED_RES: what a host answers to GRANTED.
///
/// # Errors
///
/// `Need` of the exports or of what the file has, and `Memory`.
pub(crate) fn attempt_res(mut draft: Draft<'_>, answer: &NlmResult) -> Result<Change, Missing>
    requires { Begins (calls.Nlm (NlmCall.GrantedRes answer.now)) draft }
    ensures ends { EndsCall (calls.Nlm (NlmCall.GrantedRes answer.now)) draft.entry.ctx draft.entry.view result }
    ensures first { EndsFirst (calls.Nlm (NlmCall.GrantedRes answer.now)) draft.entry.view result }
{
    exports(&draft)?;
    let Some(pending) = answered(&draft, &answer.cookie)? else {
        return Ok(draft.answer(Reply::Nlm(NlmReply::GrantedRes)));
    };
    end_grant(&mut draft, &pending, answer.status)?;
    Ok(draft.answer(Reply::Nlm(NlmReply::GrantedRes)))
}

/// A grant that is not answered yet.
#[derive(Drop)]
pub(crate) struct FoundGrant {
    pub file: LockedFile,
    pub request: Arc<LockRequest>,
}

/// The grant that the caller's host answers with this cookie; None where no grant of that cookie was made for it.
fn answered(draft: &Draft<'_>, cookie: &Bytes) -> Result<Option<FoundGrant>, Missing>
    ensures { MatchResult result
        (λ found. Knows draft.now (λ k. WellFormed k.state →
        FindsGrant k.state draft.now.ctx.host cookie.now found))
        (StopsAt draft.now (Addr.Exports ∷ grant_places cookie.now)) }
{
    let Some(number) = number_in(cookie) else {
        return Ok(None);
    };
    let exports = exports(draft)?;
    let Some(bucket) = draft.locks(bucket_index(number))? else {
        return Ok(None);
    };
    let Some(pending) = pending_in(exports, bucket.files(), number)? else {
        return Ok(None);
    };
    if *pending.request.host() == draft.ctx().host {
        Ok(Some(pending))
    } else {
        Ok(None)
    }
}

/// The number of the grant whose cookie this is, which has 8 bytes.
pub(crate) fn number_in(cookie: &Bytes) -> Option<u64>
    ensures { MatchOption result (length cookie.now ≡ 8 → ⊥)
        (λ number. (length cookie.now ≡ 8) × (number ≡ from_be_bytes w64 cookie.now) ×
        (grant_cookie number ≡ cookie.now)) }
{
    match cookie.as_slice() {
        [a, b, c, d, e, f, g, h] => Some(u64::from_be_bytes([*a, *b, *c, *d, *e, *f, *g, *h])),
        _ => None,
    }
}

/// The grant with this number, among the files of a bucket whose exports live.
fn pending_in(
    exports: &[LivingExport],
    mut files: LockedFiles<'_>,
    number: u64,
) -> Result<Option<FoundGrant>, AllocError>
    ensures { IfOk result (FindsPending exports.now files.entry number) }
{
    while let Some(file) = files.next() {
        if let Some(pending) = pending_of(exports, file, number)? {
            return Ok(Some(pending));
        }
    }
    Ok(None)
}

/// The grant with this number of one file, if its export lives.
fn pending_of(
    exports: &[LivingExport],
    file: &LockedFile,
    number: u64,
) -> Result<Option<FoundGrant>, AllocError>
    ensures { IfOk result (FindsPending exports.now (file.now ∷ []) number) }
{
    if !lives(exports, file.export()) {
        return Ok(None);
    }
    let Some(request) = file.file().pending().find(Going::Under(number)) else {
        return Ok(None);
    };
    Ok(Some(FoundGrant {
        file: file.clone()?,
        request: Arc::try_clone(request)?,
    }))
}

/// Ends a grant that is answered: a status other than GRANTED gives its lock back.
///
/// # Errors
///
/// `Need` of what has to be held for it, and `Memory`. The draft is of no use then.
fn end_grant(draft: &mut Draft<'_>, pending: &FoundGrant, status: NlmStatus) -> Result<(), Missing>
    requires alone { draft.old.modes.locks ≡ Mode.Exclusive }
    requires knows { Knows draft.old (λ k. WellFormed k.state → IsPendingNow k.state pending.now) }
    ensures { MatchResult result
        (ComesTo draft.old draft.new (λ m _. GrantEnds m (arc_value pending.now.request).number
        (Some (grant_of pending.now)) status))
        (StopsAt draft.old (locks_at pending.now.file.number)) }
{
    let alloc = draft.alloc();
    let (number, export) = (pending.file.number(), pending.file.export());
    let left = pending
        .file
        .file()
        .without_pending(alloc, pending.request.number())?;
    match status {
        NlmStatus::Granted => {
            put(draft, number, export, left)?;
            Ok(())
        }
        _ => {
            let settled = left.clear(alloc, &pending.request.range())?;
            put_settled(draft, number, export, settled)?;
            Ok(())
        }
    }
}

/// Puts what a file has, and a message for each request that was granted.
///
/// # Errors
///
/// `Need` of what has to be held for it, and `Memory`. The draft is of no use then.
pub(crate) fn put_settled(
    draft: &mut Draft<'_>,
    number: u64,
    export: u32,
    settled: Settled,
) -> Result<(), Missing>
    requires { draft.old.modes.locks ≡ Mode.Exclusive }
    ensures { MatchResult result
        (λ _. TurnsSending (λ k. MayHave k.state (record { number = number; export = export; file = settled.file }))
        draft.old draft.new (map grant_message (granted_in settled)) (locks_set number settled.file))
        (StopsAt draft.old (locks_at number)) }
{
    let Settled { file, granted } = settled;
    put(draft, number, export, file)?;
    send_grants(draft, &granted)?;
    Ok(())
}

/// Puts a message for each request that was granted, in order.
///
/// # Errors
///
/// `AllocError` where the memory was refused. The draft is of no use then.
pub(crate) fn send_grants(
    draft: &mut Draft<'_>,
    granted: &[Arc<LockRequest>],
) -> Result<(), AllocError>
    ensures { OnOk result (Sends draft.old draft.new (map grant_message (map arc_value granted.now))) }
{
    for request in granted {
        let message = grant_message(draft.alloc(), request)?;
        draft.send(message)?;
    }
    Ok(())
}

/// The message that a request was granted, with the number's 8 bytes as cookie. Lock and mode are as they were asked
/// for.
fn grant_message(alloc: Global, request: &LockRequest) -> Result<Message, AllocError>
    ensures { IfOk result (λ message. message ≡ grant_message request.now) }
{
    let arguments = TestArguments {
        cookie: Bytes::copy_from_slice(alloc, &request.number().to_be_bytes())?,
        exclusive: request.is_exclusive(),
        lock: request.asked().clone()?,
    };
    let call = if request.is_by_message() {
        Callback::GrantedMsg(arguments)
    } else {
        Callback::Granted(arguments)
    };
    Ok(Message {
        host: request.host().clone()?,
        call,
    })
}
