//! Changes of objects (RFC 1813, 2.5: mtime, ctime). Each is a change of what the store stands for.

ghost use Rattle.std.specs.Prelude.{◌≡◌, ◌++◌, ◌-◌, [], IfErr, IfOk, IsSome, MatchResult, OnOk};
ghost use Rattle.nfs_machine.specs.Making.{new_object};
ghost use Rattle.nfs_machine.specs.Shown.{touched};
ghost use Rattle.nfs_machine.specs.Times.{time_of};
ghost use Rattle.nfs_objects.specs.Asks.{IsFirst};
ghost use Rattle.nfs_objects.specs.Calls.{addresses_of, locks_at, usages_of};
ghost use Rattle.nfs_objects.specs.Drafts.{MayChange};
ghost use Rattle.nfs_objects.specs.Edits.{edited};
ghost use Rattle.nfs_objects.specs.Knows.{Knows, ShowsExport, Turns};
ghost use Rattle.nfs_objects.specs.Modes.{changing};
ghost use Rattle.nfs_objects.specs.Values.{known_at};
ghost use Rattle.nfs_inodes.specs.Asked.{wanted_as};
ghost use Rattle.nfs_inodes.specs.Entered.{grown_at};
ghost use Rattle.nfs_inodes.specs.Kinds.{IsShown};
ghost use Rattle.nfs_inodes.specs.Makes.{IsFree, link_lost, made_under, removed};
ghost use Rattle.nfs_inodes.specs.Stops.{StillStands, StopsAt, StopsMaking, counted_at};

use crate::burying::buried;
use crate::content::asking::Asking;
use crate::content::clearing::clear_entries;
use crate::content::file::clear;
use crate::content::naming::{add_entry, ask_entry};
use crate::found::inode;
use crate::kinds::KnownDirectory;
use crate::locks::forget_locks;
use crate::new_objects::{Wanted, links_with, new_inode};
use crate::times::{now, touch};
use crate::usage::{Share, ask_counted, recount, uncount};
use nfs_objects::{Addr, Draft, Missing, Mode, Reserved, Usage};

/// Takes one of an object's links away, which are so many: it goes with its last, and else its ctime changes.
///
/// # Errors
///
/// `Need` of what has to be held for it, and `Memory`. The draft is of no use then.
pub fn lose_link(draft: &mut Draft<'_>, number: u64, links: u32) -> Result<(), Missing>
    requires alone { MayChange draft.old (Addr.Inode number) }
    requires locks { draft.old.modes.locks ≡ Mode.Exclusive }
    requires stands { StillStands draft.old }
    ensures { MatchResult result
        (λ _. Turns draft.old draft.new (link_lost (time_of draft.old.ctx.moment) number links))
        (StopsAt draft.old (counted_at draft.old number ++ locks_at number)) }
{
    if links <= 1 {
        free(draft, number)
    } else {
        unlink(draft, number)
    }
}

/// What stands at a number goes, with what it has of locks. A large file is buried, and of all else goes what stands
/// beside it.
fn free(draft: &mut Draft<'_>, number: u64) -> Result<(), Missing>
    requires alone { MayChange draft.old (Addr.Inode number) }
    requires locks { draft.old.modes.locks ≡ Mode.Exclusive }
    requires stands { StillStands draft.old }
    ensures { MatchResult result (λ _. Turns draft.old draft.new (removed number))
        (StopsAt draft.old (counted_at draft.old number ++ locks_at number)) }
{
    uncount(draft, number)?;
    forget_locks(draft, number)?;
    if let Some(left) = buried(draft, number)? {
        return Ok(draft.put(number, left)?);
    }
    clear(draft, number)?;
    clear_entries(draft, number)?;
    Ok(draft.free(number)?)
}

fn unlink(draft: &mut Draft<'_>, number: u64) -> Result<(), Missing>
    requires { MayChange draft.old (Addr.Inode number) }
    ensures { MatchResult result
        (λ _. Turns draft.old draft.new
        (λ k. edited k number (λ o. touched o (time_of draft.old.ctx.moment)) (λ l. l - 1)))
        (StopsAt draft.old (addresses_of draft.old.view number)) }
{
    let Some(inode) = inode(draft, number)? else {
        return Ok(());
    };
    let mut new = inode.clone()?;
    new.links = new.links.saturating_sub(1);
    new.changed = touch(new.changed, now(draft.ctx()));
    Ok(draft.put(number, new)?)
}

/// Asks for what has to be held to make an object under a new name of a directory with this cookie.
///
/// # Errors
///
/// `Fresh` where no number is reserved; `Need` of all else at once, and `Memory`.
pub fn ask_made(
    draft: &Draft<'_>,
    directory: &KnownDirectory,
    name: &[u8],
    cookie: u64,
) -> Result<(), Missing>
    requires none { draft.now.writes ≡ [] }
    requires shown { IsShown draft.now directory.now.known }
    ensures { IfErr result (StopsMaking draft.now (grown_at draft.now directory.now.known.number name.now cookie
        ++ usages_of directory.now.known.export 64)) }
{
    let reserved = draft.fresh()?;
    let nothing = Share {
        export: directory.known.export,
        usage: Usage::none(),
    };
    let mut asking = Asking::new(draft.alloc());
    ask_entry(draft, directory, name, cookie, &mut asking)?;
    ask_counted(
        draft,
        reserved.number,
        nothing,
        Usage::of_one(0),
        &mut asking,
    )?;
    asking.ask()
}

/// Makes what is asked for, under a new name of a directory: its number and generation are those that the view
/// reserved. The name is copied.
///
/// # Errors
///
/// `Fresh` where none is reserved; `Need` of what has to be held for it, and `Memory`. The draft is of no use then.
pub fn make_object(
    draft: &mut Draft<'_>,
    directory: &KnownDirectory,
    name: &[u8],
    cookie: u64,
    wanted: &Wanted<'_>,
) -> Result<Reserved, Missing>
    requires none { draft.old.writes ≡ [] }
    requires alone { draft.old.modes ≡ changing }
    requires exported { ShowsExport draft.old directory.now.known.export }
    requires shown { IsShown draft.old directory.now.known }
    ensures turns { MatchResult result
        (λ r. Knows draft.old (λ k. IsFree k.state r) × Turns draft.old draft.new
        (made_under (time_of draft.old.ctx.moment) directory.now.known.number directory.now.known.attributes.links
        cookie name.now r
        (new_object draft.old.ctx directory.now.known.export r.generation (wanted_as wanted.now))))
        (StopsMaking draft.old (grown_at draft.old directory.now.known.number name.now cookie
        ++ usages_of directory.now.known.export 64)) }
    ensures known { IfOk result (λ r. IsSome (known_at draft.new (Addr.Inode r.number))) }
{
    let reserved = draft.fresh()?;
    let Reserved { number, generation } = reserved;
    make_reserved(draft, directory, name, cookie, wanted, number, generation)?;
    Ok(reserved)
}

/// The same with this number and generation.
fn make_reserved(
    draft: &mut Draft<'_>,
    directory: &KnownDirectory,
    name: &[u8],
    cookie: u64,
    wanted: &Wanted<'_>,
    number: u64,
    generation: u64,
) -> Result<(), Missing>
    requires none { draft.old.writes ≡ [] }
    requires alone { draft.old.modes ≡ changing }
    requires exported { ShowsExport draft.old directory.now.known.export }
    requires shown { IsShown draft.old directory.now.known }
    requires first { IsFirst draft.old (record { number = number; generation = generation }) }
    ensures turns { MatchResult result
        (λ _. Knows draft.old (λ k. IsFree k.state (record { number = number; generation = generation })) ×
        Turns draft.old draft.new (made_under (time_of draft.old.ctx.moment) directory.now.known.number
        directory.now.known.attributes.links cookie name.now (record { number = number; generation = generation })
        (new_object draft.old.ctx directory.now.known.export generation (wanted_as wanted.now))))
        (StopsMaking draft.old (grown_at draft.old directory.now.known.number name.now cookie
        ++ usages_of directory.now.known.export 64)) }
    ensures known { OnOk result (IsSome (known_at draft.new (Addr.Inode number))) }
{
    let object = new_inode(draft.alloc(), draft.ctx(), directory, wanted, generation)?;
    let links = links_with(directory.known.attributes.links, &wanted.content);
    let nothing = Share {
        export: directory.known.export,
        usage: Usage::none(),
    };
    let usage = Usage::of_one(object.content.size());
    let mut asking = Asking::new(draft.alloc());
    ask_entry(draft, directory, name, cookie, &mut asking)?;
    ask_counted(draft, number, nothing, usage, &mut asking)?;
    asking.ask()?;
    add_entry(draft, directory, name, number, cookie, links)?;
    recount(draft, number, nothing, usage)?;
    Ok(draft.put(number, object)?)
}
