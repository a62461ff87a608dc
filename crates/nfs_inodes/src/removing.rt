//! Names that are taken away, and the links that go with them (RFC 1813, 3.3.12 and 3.3.13).

ghost use Rattle.std.specs.Prelude.{◌≡◌, ◌++◌, [], IfErr, MatchResult};
ghost use Rattle.nfs_machine.specs.Times.{time_of};
ghost use Rattle.nfs_objects.specs.Calls.{IsAmong, addresses_of, locks_at};
ghost use Rattle.nfs_objects.specs.Knows.{Turns};
ghost use Rattle.nfs_objects.specs.Modes.{changing};
ghost use Rattle.nfs_inodes.specs.Asking.{AsksFor};
ghost use Rattle.nfs_inodes.specs.Kinds.{IsShown};
ghost use Rattle.nfs_inodes.specs.Removes.{directory_lost, name_lost, subdirectory_lost};
ghost use Rattle.nfs_inodes.specs.Stops.{StillStands, StopsAt, counted_at, group_at, inode_at};

use crate::content::asking::Asking;
use crate::content::naming::{ask_loss, take_entry};
use crate::found::{Known, inode};
use crate::kinds::KnownDirectory;
use crate::locks::ask_locks;
use crate::makers::lose_link;
use crate::usage::ask_uncounted;
use nfs_objects::{Draft, Missing};
use nfs_wire::FileType;

/// Takes a name out of a directory, and with it a link of the object that it leads to: a directory goes with it, and
/// anything else with its last link.
///
/// # Errors
///
/// `Need` of what has to be held for it, and `Memory`. The draft is of no use then.
pub fn take_name(
    draft: &mut Draft<'_>,
    directory: &KnownDirectory,
    name: &[u8],
    object: &Known,
) -> Result<(), Missing>
    requires none { draft.old.writes ≡ [] }
    requires alone { draft.old.modes ≡ changing }
    requires shown { IsShown draft.old directory.now.known }
    ensures { MatchResult result
        (λ _. Turns draft.old draft.new
        (name_lost (time_of draft.old.ctx.moment) directory.now.known.number name.now object.now))
        (StopsAt draft.old (addresses_of draft.old.view directory.now.known.number
        ++ addresses_of draft.old.view object.now.number ++ locks_at object.now.number)) }
{
    ask_lost(draft, directory, name, object)?;
    take_entry(draft, directory, name)?;
    match object.attributes.kind {
        FileType::Directory => lose_directory(draft, directory, object.number),
        _ => lose_link(draft, object.number, object.attributes.links),
    }
}

/// Asks at once for what has to be held to take the name away, and where the object goes with it, to count it no more
/// and to take its locks.
///
/// # Errors
///
/// `Need` of that, and `Memory`.
pub fn ask_lost(
    draft: &Draft<'_>,
    directory: &KnownDirectory,
    name: &[u8],
    object: &Known,
) -> Result<(), Missing>
    requires none { draft.now.writes ≡ [] }
    requires shown { IsShown draft.now directory.now.known }
    ensures { IfErr result (StopsAt draft.now (addresses_of draft.now.view directory.now.known.number
        ++ counted_at draft.now object.now.number ++ locks_at object.now.number)) }
{
    let mut asking = Asking::new(draft.alloc());
    ask_loss(draft, directory, name, &mut asking)?;
    ask_gone(draft, object, &mut asking)?;
    asking.ask()
}

/// Asks for what has to be held to count the object no more and to take its locks, where it goes with a name.
fn ask_gone(draft: &Draft<'_>, object: &Known, asking: &mut Asking) -> Result<(), Missing>
    ensures { MatchResult result
        (λ _. AsksFor draft.now (IsAmong (group_at object.now.number (inode_at draft.now object.now.number)
        ++ locks_at object.now.number)) (λ a. ⊥) asking.old.asked.items asking.new.asked.items)
        (StopsAt draft.now (addresses_of draft.now.view object.now.number)) }
{
    let is_last = match object.attributes.kind {
        FileType::Directory => true,
        _ => object.attributes.links <= 1,
    };
    if is_last {
        ask_freed(draft, object, asking)
    } else {
        Ok(())
    }
}

/// The same where it goes; only a file has locks.
fn ask_freed(draft: &Draft<'_>, object: &Known, asking: &mut Asking) -> Result<(), Missing>
    ensures { MatchResult result
        (λ _. AsksFor draft.now (IsAmong (group_at object.now.number (inode_at draft.now object.now.number)
        ++ locks_at object.now.number)) (λ a. ⊥) asking.old.asked.items asking.new.asked.items)
        (StopsAt draft.now (addresses_of draft.now.view object.now.number)) }
{
    ask_uncounted(draft, object.number, asking)?;
    match object.attributes.kind {
        FileType::Regular => Ok(ask_locks(draft, object.number, asking)?),
        _ => Ok(()),
    }
}

/// A directory goes with its only name, which was in this one.
fn lose_directory(
    draft: &mut Draft<'_>,
    directory: &KnownDirectory,
    number: u64,
) -> Result<(), Missing>
    requires alone { draft.old.modes ≡ changing }
    requires stands { StillStands draft.old }
    ensures { MatchResult result
        (λ _. Turns draft.old draft.new
        (directory_lost (time_of draft.old.ctx.moment) directory.now.known.number number))
        (StopsAt draft.old (addresses_of draft.old.view directory.now.known.number
        ++ counted_at draft.old number ++ locks_at number)) }
{
    lose_link(draft, number, 1)?;
    lose_subdirectory(draft, directory)
}

/// Takes one of a directory's links away, since a directory in it goes (RFC 1813, 2.5: nlink).
fn lose_subdirectory(draft: &mut Draft<'_>, directory: &KnownDirectory) -> Result<(), Missing>
    requires { draft.old.modes ≡ changing }
    ensures { MatchResult result
        (λ _. Turns draft.old draft.new (subdirectory_lost directory.now.known.number))
        (StopsAt draft.old (addresses_of draft.old.view directory.now.known.number)) }
{
    let number = directory.known.number;
    let Some(inode) = inode(draft, number)? else {
        return Ok(());
    };
    let mut new = inode.clone()?;
    new.links = new.links.saturating_sub(1);
    Ok(draft.put(number, new)?)
}
