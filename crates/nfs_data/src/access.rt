//! ACCESS: the rights that a caller has to an object (RFC 1813, 3.3.4).

ghost use Rattle.std.specs.Prelude.{◌≡◌, ◌≢◌, ◌≤◌, ◌/◌, ◌%◌, ◌==◌, ◌&&◌, ◌||◌};
ghost use Rattle.std.specs.Prelude.{◌∷◌, [], MatchResult, if◌then◌else◌};
ghost use Rattle.nfs_machine.specs.AttributeSteps.{granted};
ghost use Rattle.nfs_machine.specs.Attributes.{type_of};
ghost use Rattle.nfs_machine.specs.Checks.{is_writable};
ghost use Rattle.nfs_machine.specs.Permission.{class_bits, may, reads, runs};
ghost use Rattle.nfs_machine.specs.State.{Content, Socket};
ghost use Rattle.nfs_machine.specs.declared.calls.Call.TheVariants as calls;
ghost use Rattle.nfs_objects.specs.Attempt.{EndsCall, EndsFirst};
ghost use Rattle.nfs_objects.specs.Begins.{Begins};
ghost use Rattle.nfs_objects.specs.Knows.{Knows};
ghost use Rattle.nfs_objects.specs.Only.{EndsAtOnce, EndsFirstOnly};
ghost use Rattle.nfs_objects.specs.declared.address.Addr.TheVariants as addresses;
ghost use Rattle.nfs_inodes.specs.Known.{IsKnown, object_at, shell};
ghost use Rattle.nfs_inodes.specs.Rights.{right_of};
ghost use Rattle.nfs_inodes.specs.Stops.{ReadsAt, StopsAt};
ghost use Rattle.nfs_data.specs.Grants.{empty_directory};

use nfs_inodes::{Known, Right, class_bits, exports, is_writable, may, named, reads, runs};
use nfs_machine::{Ctx, Reply};
use nfs_objects::{Change, Draft, LivingExport, Missing};
use nfs_rpc::Ids;
use nfs_wire::{AccessArguments, AccessReply, FileType, NfsCall, NfsReply};

const READ: u32 = 1;

const LOOKUP: u32 = 2;

const MODIFY: u32 = 4;

const EXTEND: u32 = 8;

const DELETE: u32 = 16;

const EXECUTE: u32 = 32;

/// Tries ACCESS.
pub(crate) fn attempt(draft: Draft<'_>, arguments: &AccessArguments) -> Result<Change, Missing>
    requires { Begins (calls.Nfs (NfsCall.Access arguments.now)) draft }
    ensures ends { EndsCall (calls.Nfs (NfsCall.Access arguments.now)) draft.entry.ctx draft.entry.view result }
    ensures first { EndsFirst (calls.Nfs (NfsCall.Access arguments.now)) draft.entry.view result }
    ensures only { EndsFirstOnly (calls.Nfs (NfsCall.Access arguments.now)) draft.entry.view result }
    ensures at_once { EndsAtOnce (calls.Nfs (NfsCall.Access arguments.now)) draft.entry.view result }
{
    let reply = match named(&draft, arguments.object.as_slice())? {
        Ok(known) => {
            let rights = rights_to(&draft, &known, arguments.rights)?;
            AccessReply {
                attributes: Some(known.attributes),
                result: Ok(rights),
            }
        }
        Err(status) => AccessReply {
            attributes: None,
            result: Err(status),
        },
    };
    Ok(draft.answer(Reply::Nfs(NfsReply::Access(reply))))
}

/// The rights to an object that are asked and granted.
fn rights_to(draft: &Draft<'_>, known: &Known, asked: u32) -> Result<u32, Missing>
    requires { Knows draft.now (λ k. IsKnown k.state known.now) }
    ensures rights { MatchResult result
        (λ rights. Knows draft.now (λ k.
        granted k.state.exports draft.now.ctx (object_at k.state known.now) asked ≡ rights))
        (StopsAt draft.now (addresses.Exports ∷ [])) }
    ensures reads { ReadsAt draft.now addresses.Exports result }
{
    Ok(granted(exports(draft)?, draft.ctx(), known, asked))
}

fn granted(exports: &[LivingExport], ctx: &Ctx, known: &Known, asked: u32) -> u32
    ensures { (content : Content) → type_of content ≡ known.now.attributes.kind →
        granted exports.now ctx.now (shell known.now content) asked ≡ result }
{
    match known.attributes.kind {
        FileType::Directory => granted_in_directory(exports, ctx, known, asked),
        _ => granted_elsewhere(exports, ctx, known, asked),
    }
}

fn granted_in_directory(exports: &[LivingExport], ctx: &Ctx, known: &Known, asked: u32) -> u32
    ensures { result ≡ granted exports.now ctx.now (shell known.now empty_directory) asked }
{
    let changes = may_change(exports, ctx, known, Right::ToChange);
    bit(asked, READ, may(&ctx.ids, known, Right::ToList))
        + bit(asked, LOOKUP, may(&ctx.ids, known, Right::ToSearch))
        + bit(asked, MODIFY, changes)
        + bit(asked, EXTEND, changes)
        + bit(asked, DELETE, changes)
}

fn granted_elsewhere(exports: &[LivingExport], ctx: &Ctx, known: &Known, asked: u32) -> u32
    ensures { result ≡ granted exports.now ctx.now (shell known.now Socket) asked }
{
    let changes = may_change(exports, ctx, known, Right::ToWrite);
    bit(asked, READ, may_read(&ctx.ids, known))
        + bit(asked, MODIFY, changes)
        + bit(asked, EXTEND, changes)
        + bit(asked, EXECUTE, may_execute(&ctx.ids, known))
}

/// A right, where it is asked and the caller has it.
fn bit(asked: u32, right: u32, holds: bool) -> u32
    requires { right ≢ 0 }
    ensures value { result ≡ (if (asked / right % 2 == 1) && holds then right else 0) }
    ensures small { result ≤ right }
{
    if asked / right % 2 == 1 && holds {
        right
    } else {
        0
    }
}

/// Whether the caller has a right that changes the object, and its export lets it.
fn may_change(exports: &[LivingExport], ctx: &Ctx, known: &Known, right: Right) -> bool
    ensures { result ≡ (is_writable exports.now (shell known.now Socket)
        && may ctx.now.ids (shell known.now Socket) (right_of right)) }
{
    is_writable(exports, known) && may(&ctx.ids, known, right)
}

/// Whether the caller may read what is no directory: its owner always may.
fn may_read(ids: &Ids, known: &Known) -> bool
    ensures { result ≡ ((ids.now.uid == 0) || (ids.now.uid == known.now.attributes.uid)
        || reads (class_bits ids.now (shell known.now Socket))) }
{
    ids.uid == 0 || ids.uid == known.attributes.uid || reads(class_bits(ids, known))
}

/// Whether the caller may execute what is no directory: the user 0 what any class may.
fn may_execute(ids: &Ids, known: &Known) -> bool
    ensures { result ≡ (if ids.now.uid == 0 then
        runs (known.now.attributes.mode / 64) || runs (known.now.attributes.mode / 8)
        || runs known.now.attributes.mode
        else runs (class_bits ids.now (shell known.now Socket))) }
{
    if ids.uid == 0 {
        let mode = known.attributes.mode;
        runs(mode / 0o100) || runs(mode / 0o10) || runs(mode)
    } else {
        runs(class_bits(ids, known))
    }
}
