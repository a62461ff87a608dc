//! LOOKUP: the object that a name leads to (RFC 1813, 3.3.3).

ghost use Rattle.std.specs.Prelude.{◌≡◌, [], IfOk, MatchResult};
ghost use Rattle.nfs_machine.specs.declared.calls.Call.TheVariants as calls;
ghost use Rattle.nfs_objects.specs.Attempt.{EndsCall, EndsFirst};
ghost use Rattle.nfs_objects.specs.Begins.{Begins};
ghost use Rattle.nfs_objects.specs.Knows.{Knows};
ghost use Rattle.nfs_inodes.specs.Known.{IsKnown};
ghost use Rattle.nfs_names.specs.Checking.{ComesTo};
ghost use Rattle.nfs_names.specs.Lookup.{found_in, searched};
ghost use Rattle.nfs_inodes.specs.Stops.{StopsAt};

use nfs_inodes::{
    Known, KnownDirectory, Right, directory, handle, leads_to, name_checked, named, object,
    permitted,
};
use nfs_machine::{Ctx, Reply};
use nfs_objects::{Change, Draft, Missing};
use nfs_wire::{Attributes, DirOp, Found as Object, LookupReply, NfsCall, NfsReply, NfsStatus};

/// Tries LOOKUP.
pub(crate) fn attempt(draft: Draft<'_>, place: &DirOp) -> Result<Change, Missing>
    requires { Begins (calls.Nfs (NfsCall.Lookup place.now)) draft }
    ensures ends { EndsCall (calls.Nfs (NfsCall.Lookup place.now)) draft.entry.ctx draft.entry.view result }
    ensures first { EndsFirst (calls.Nfs (NfsCall.Lookup place.now)) draft.entry.view result }
{
    match named(&draft, place.directory.as_slice())? {
        Ok(directory) => {
            let result = found(&draft, &directory, place.name.as_slice())?;
            Ok(draft.answer(reply(Some(directory.attributes), result)))
        }
        Err(status) => Ok(draft.answer(reply(None, Err(status)))),
    }
}

/// What the name leads to in the directory, or why nothing is found.
fn found(
    draft: &Draft<'_>,
    known: &Known,
    name: &[u8],
) -> Result<Result<Object, NfsStatus>, Missing>
    requires none { draft.now.writes ≡ [] }
    requires known { Knows draft.now (λ k. IsKnown k.state known.now) }
    ensures { MatchResult result
        (λ found. Knows draft.now (λ k. found_in k draft.now.ctx known.now name.now ≡ found))
        (StopsAt draft.now []) }
{
    let directory = match searchable(draft.ctx(), known, name) {
        Ok(directory) => directory,
        Err(status) => return Ok(Err(status)),
    };
    let Some(number) = leads_to(draft, &directory, name)? else {
        return Ok(Err(NfsStatus::NoEntry));
    };
    let Some(object) = object(draft, number)? else {
        return Ok(Err(NfsStatus::NoEntry));
    };
    Ok(Ok(Object {
        object: handle(draft.alloc(), draft.ctx(), &object)?,
        attributes: Some(object.attributes),
    }))
}

/// The checks of LOOKUP: where they pass, the rest decides.
fn searchable(ctx: &Ctx, known: &Known, name: &[u8]) -> Result<KnownDirectory, NfsStatus>
    ensures known { IfOk result (λ directory. directory.known ≡ known.now) }
    ensures checks { ComesTo (searched ctx.now name.now) known.now result }
{
    let directory = directory(known)?;
    name_checked(name)?;
    permitted(ctx, known, Right::ToSearch)?;
    Ok(directory)
}

fn reply(directory: Option<Attributes>, found: Result<Object, NfsStatus>) -> Reply
    ensures { result ≡ Reply.Nfs (NfsReply.Lookup (record { directory = directory; result = found })) }
{
    Reply::Nfs(NfsReply::Lookup(LookupReply {
        directory,
        result: found,
    }))
}
