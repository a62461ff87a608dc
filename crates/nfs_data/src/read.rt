//! READ: bytes of a file (RFC 1813, 3.3.6).

ghost use Rattle.std.specs.Prelude.{◌≡◌, IfErr, IfOk, MatchResult};
ghost use Rattle.nfs_machine.specs.Attributes.{type_of};
ghost use Rattle.nfs_machine.specs.DataSteps.{read_object};
ghost use Rattle.nfs_machine.specs.State.{Content};
ghost use Rattle.nfs_machine.specs.declared.calls.Call.TheVariants as calls;
ghost use Rattle.nfs_objects.specs.Attempt.{EndsCall, EndsFirst};
ghost use Rattle.nfs_objects.specs.Begins.{Begins};
ghost use Rattle.nfs_objects.specs.Knows.{Knows};
ghost use Rattle.nfs_inodes.specs.Blocks.{read_from};
ghost use Rattle.nfs_inodes.specs.Known.{IsKnown, object_at, shell};
ghost use Rattle.nfs_inodes.specs.Stops.{StopsAt};
ghost use Rattle.nfs_data.specs.Plans.{MayHalt};
ghost use Rattle.nfs_data.specs.Reads.{read_found};

use nfs_inodes::{Known, KnownFile, Right, named, permitted, read, regular};
use nfs_machine::{Ctx, Reply};
use nfs_objects::{Change, Draft, Missing};
use nfs_wire::{NfsCall, NfsReply, NfsStatus, ReadArguments, ReadData, ReadReply};

/// Tries READ.
pub(crate) fn attempt(draft: Draft<'_>, arguments: &ReadArguments) -> Result<Change, Missing>
    requires { Begins (calls.Nfs (NfsCall.Read arguments.now)) draft }
    ensures ends { EndsCall (calls.Nfs (NfsCall.Read arguments.now)) draft.entry.ctx draft.entry.view result }
    ensures first { EndsFirst (calls.Nfs (NfsCall.Read arguments.now)) draft.entry.view result }
{
    let (attributes, result) = match named(&draft, arguments.file.as_slice())? {
        Ok(known) => (Some(known.attributes), read_of(&draft, &known, arguments)?),
        Err(status) => (None, Err(status)),
    };
    let reply = ReadReply { attributes, result };
    Ok(draft.answer(Reply::Nfs(NfsReply::Read(reply))))
}

/// Asks for the blocks that READ reads, where its checks pass.
///
/// # Errors
///
/// `Need` of what it lacks, and `Memory`.
pub(crate) fn ask(draft: &Draft<'_>, arguments: &ReadArguments) -> Result<(), Missing>
    requires { Begins (calls.Nfs (NfsCall.Read arguments.now)) draft.now }
    ensures { IfErr result (MayHalt (NfsCall.Read arguments.now) draft.now) }
{
    if let Ok(known) = named(draft, arguments.file.as_slice())? {
        let _found = read_of(draft, &known, arguments)?;
    }
    Ok(())
}

/// What is read of an object, or why nothing is.
fn read_of(
    draft: &Draft<'_>,
    known: &Known,
    arguments: &ReadArguments,
) -> Result<Result<ReadData, NfsStatus>, Missing>
    requires { Knows draft.now (λ k. IsKnown k.state known.now) }
    ensures { MatchResult result
        (λ found. Knows draft.now (λ k.
        read_object draft.now.ctx (object_at k.state known.now) arguments.now ≡ found))
        (StopsAt draft.now (read_from draft.now.view known.now.number arguments.now.offset)) }
{
    match readable(draft.ctx(), known) {
        Ok(file) => Ok(Ok(read(draft, &file, arguments.offset, arguments.count)?)),
        Err(status) => Ok(Err(status)),
    }
}

/// The checks of READ.
fn readable(ctx: &Ctx, known: &Known) -> Result<KnownFile, NfsStatus>
    ensures known { IfOk result (λ file. file.known ≡ known.now) }
    ensures checks { (content : Content) (a : ReadArguments) → type_of content ≡ known.now.attributes.kind →
        read_object ctx.now (shell known.now content) a ≡ read_found content a result }
{
    let file = regular(known)?;
    permitted(ctx, known, Right::ToRead)?;
    Ok(file)
}
