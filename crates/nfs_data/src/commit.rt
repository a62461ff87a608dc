//! COMMIT: what was written is there already, so nothing changes (RFC 1813, 3.3.21).

ghost use Rattle.std.specs.Prelude.{◌≡◌, Err, Ok};
ghost use Rattle.nfs_machine.specs.Attributes.{type_of};
ghost use Rattle.nfs_machine.specs.Checks.{bytes_in};
ghost use Rattle.nfs_machine.specs.DataSteps.{verifier_of};
ghost use Rattle.nfs_machine.specs.State.{Content};
ghost use Rattle.nfs_machine.specs.declared.calls.Call.TheVariants as calls;
ghost use Rattle.nfs_objects.specs.Attempt.{EndsCall, EndsFirst};
ghost use Rattle.nfs_objects.specs.Begins.{Begins};
ghost use Rattle.nfs_objects.specs.Only.{EndsAtOnce, EndsFirstOnly};

use nfs_inodes::{Known, named, nothing_shown, regular, verifier, wcc_of};
use nfs_machine::{Ctx, Reply};
use nfs_objects::{Change, Draft, Missing};
use nfs_wire::{CommitArguments, CommitReply, NfsCall, NfsReply, NfsStatus, Verifier};

/// Tries COMMIT.
pub(crate) fn attempt(draft: Draft<'_>, arguments: &CommitArguments) -> Result<Change, Missing>
    requires { Begins (calls.Nfs (NfsCall.Commit arguments.now)) draft }
    ensures ends { EndsCall (calls.Nfs (NfsCall.Commit arguments.now)) draft.entry.ctx draft.entry.view result }
    ensures first { EndsFirst (calls.Nfs (NfsCall.Commit arguments.now)) draft.entry.view result }
    ensures only { EndsFirstOnly (calls.Nfs (NfsCall.Commit arguments.now)) draft.entry.view result }
    ensures at_once { EndsAtOnce (calls.Nfs (NfsCall.Commit arguments.now)) draft.entry.view result }
{
    let reply = match named(&draft, arguments.file.as_slice())? {
        Ok(known) => CommitReply {
            wcc: wcc_of(&known, Some(known.attributes)),
            result: committed(draft.ctx(), &known),
        },
        Err(status) => CommitReply {
            wcc: nothing_shown(),
            result: Err(status),
        },
    };
    Ok(draft.answer(Reply::Nfs(NfsReply::Commit(reply))))
}

/// The verifier of what was written to a file.
fn committed(ctx: &Ctx, known: &Known) -> Result<Verifier, NfsStatus>
    ensures { (content : Content) → type_of content ≡ known.now.attributes.kind →
        (elim (bytes_in content) [ Ok bytes ↦ Ok (verifier_of ctx.now) | Err e ↦ Err e ]) ≡ result }
{
    regular(known)?;
    Ok(verifier(ctx))
}
