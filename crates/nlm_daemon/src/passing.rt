//! Calls that change nothing and have no result: NULL, and what is answered to calls that this server never makes (RFC
//! 1813, appendix II, 6.2: procedures 0 and 11 to 14).

ghost use Rattle.std.specs.Prelude.{◌≡◌, true};
ghost use Rattle.nfs_machine.specs.declared.calls.Call.TheVariants as calls;
ghost use Rattle.nfs_objects.specs.Attempt.{EndsCall, EndsFirst};
ghost use Rattle.nfs_objects.specs.Begins.{Begins};
ghost use Rattle.nfs_objects.specs.Only.{EndsAtOnce, EndsFirstOnly};
ghost use Rattle.nlm_daemon.specs.Answering.{is_passed, reply_passed};

use nfs_inodes::exports;
use nfs_machine::Reply;
use nfs_objects::{Change, Draft, Missing};
use side_wire::{NlmCall, NlmReply};

/// NULL does nothing.
pub(crate) fn null(draft: Draft<'_>) -> Result<Change, Missing>
    requires { Begins (calls.Nlm NlmCall.Null) draft }
    ensures ends { EndsCall (calls.Nlm NlmCall.Null) draft.entry.ctx draft.entry.view result }
    ensures first { EndsFirst (calls.Nlm NlmCall.Null) draft.entry.view result }
    ensures only { EndsFirstOnly (calls.Nlm NlmCall.Null) draft.entry.view result }
    ensures at_once { EndsAtOnce (calls.Nlm NlmCall.Null) draft.entry.view result }
{
    Ok(draft.answer(Reply::Nlm(NlmReply::Null)))
}

/// A call that is passed over.
///
/// # Errors
///
/// `Need` of the exports, and `Memory`.
pub(crate) fn pass(draft: Draft<'_>, call: &NlmCall) -> Result<Change, Missing>
    requires passes { is_passed call.now ≡ true }
    requires begins { Begins (calls.Nlm call.now) draft }
    ensures ends { EndsCall (calls.Nlm call.now) draft.entry.ctx draft.entry.view result }
    ensures first { EndsFirst (calls.Nlm call.now) draft.entry.view result }
    ensures only { EndsFirstOnly (calls.Nlm call.now) draft.entry.view result }
    ensures at_once { EndsAtOnce (calls.Nlm call.now) draft.entry.view result }
{
    exports(&draft)?;
    Ok(draft.answer(Reply::Nlm(reply_to(call))))
}

/// What is answered to a call that is passed over.
fn reply_to(call: &NlmCall) -> NlmReply
    ensures { result ≡ reply_passed call.now }
{
    match call {
        NlmCall::TestRes(_) => NlmReply::TestRes,
        NlmCall::LockRes(_) => NlmReply::LockRes,
        NlmCall::CancelRes(_) => NlmReply::CancelRes,
        NlmCall::UnlockRes(_) => NlmReply::UnlockRes,
        _ => NlmReply::Null,
    }
}
