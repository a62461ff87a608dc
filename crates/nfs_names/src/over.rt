//! CREATE where the name is there (RFC 1813, 3.3.8).

ghost use Rattle.std.specs.Prelude.{◌≡◌, [], List, MatchResult, Ok, ℕ};
ghost use Rattle.nfs_machine.specs.NameSteps.{create_over};
ghost use Rattle.nfs_machine.specs.State.{Content, Socket};
ghost use Rattle.nfs_machine.specs.Times.{time_of};
ghost use Rattle.nfs_objects.specs.Asks.{IsThere};
ghost use Rattle.nfs_objects.specs.Knows.{Does, Turns};
ghost use Rattle.nfs_objects.specs.Modes.{changing};
ghost use Rattle.nfs_objects.specs.declared.address.Addr.TheVariants as addresses;
ghost use Rattle.nfs_inodes.specs.Kinds.{IsShown};
ghost use Rattle.nfs_inodes.specs.Known.{shell};
ghost use Rattle.nfs_inodes.specs.Makes.{size_set};
ghost use Rattle.nfs_inodes.specs.Stops.{StopsAt, counted_at};
ghost use Rattle.nfs_names.specs.Creates.{IsOverEnd, file_over, size_checked};

use crate::make::made;
use nfs_inodes::{
    Known, KnownFile, Right, SIZE_LIMIT, is_verifier, object, permitted, regular, resize,
};
use nfs_machine::Ctx;
use nfs_objects::{Draft, Missing};
use nfs_wire::{CreateHow, Made, NfsStatus};

/// CREATE where the name leads to this number.
pub(crate) fn create_over(
    draft: &mut Draft<'_>,
    number: u64,
    how: &CreateHow,
) -> Result<Result<Made, NfsStatus>, Missing>
    requires none { draft.old.writes ≡ [] }
    requires alone { draft.old.modes ≡ changing }
    requires lives { IsThere draft.old.view (addresses.Inode number) }
    ensures { MatchResult result
        (Does draft.old draft.new (IsOverEnd draft.old.ctx how.now number))
        (StopsAt draft.old []) }
{
    let Some(object) = object(draft, number)? else {
        return Ok(Err(NfsStatus::Exists));
    };
    let Ok(file) = regular(&object) else {
        return Ok(Err(NfsStatus::Exists));
    };
    let size = match size_over(draft.ctx(), &object, how) {
        Ok(size) => size,
        Err(status) => return Ok(Err(status)),
    };
    give_size(draft, &file, size)?;
    Ok(Ok(made(draft, number)?))
}

/// The size that CREATE gives the file that is there, if it gives one; or why this file is no answer to it.
fn size_over(ctx: &Ctx, file: &Known, how: &CreateHow) -> Result<Option<u64>, NfsStatus>
    ensures { (content : Content) (bytes : List ℕ) →
        create_over ctx.now how.now (shell file.now content) (Ok bytes)
        ≡ file_over (time_of ctx.now.moment) (shell file.now content) bytes result }
{
    match how {
        CreateHow::Unchecked(given) => {
            if let Some(size) = given.size {
                size_allowed(ctx, file, size)?;
            }
            Ok(given.size)
        }
        CreateHow::Exclusive(verifier) if is_verifier(file, verifier) => Ok(None),
        CreateHow::Exclusive(_) | CreateHow::Guarded(_) => Err(NfsStatus::Exists),
    }
}

/// Whether the caller may give the file this size.
fn size_allowed(ctx: &Ctx, file: &Known, size: u64) -> Result<(), NfsStatus>
    ensures { result ≡ size_checked ctx.now (shell file.now Socket) size }
{
    permitted(ctx, file, Right::ToWrite)?;
    if size > SIZE_LIMIT {
        return Err(NfsStatus::FileTooBig);
    }
    Ok(())
}

/// Cuts the file off, or fills it up, where a size is given.
fn give_size(draft: &mut Draft<'_>, file: &KnownFile, size: Option<u64>) -> Result<(), Missing>
    requires none { draft.old.writes ≡ [] }
    requires alone { draft.old.modes ≡ changing }
    requires shown { IsShown draft.old file.now.known }
    ensures { MatchResult result
        (λ _. Turns draft.old draft.new (size_set (time_of draft.old.ctx.moment) file.now.known.number size))
        (StopsAt draft.old (counted_at draft.old file.now.known.number)) }
{
    match size {
        Some(size) => resize(draft, file, size),
        None => Ok(()),
    }
}
