//! Names that come, move and go (RFC 1813, 3.3.8 to 3.3.15). A directory changes once with each maker, so its times do.

ghost use Rattle.std.specs.Prelude.{◌≡◌, [], IfErr, IfOk, IsSome, MatchResult, OnOk, if◌then◌else◌, option_copied};
ghost use Rattle.nfs_machine.specs.Attributes.{is_directory};
ghost use Rattle.nfs_machine.specs.Times.{time_of, touch};
ghost use Rattle.nfs_objects.specs.Calls.{addresses_of};
ghost use Rattle.nfs_objects.specs.Drafts.{MayChange};
ghost use Rattle.nfs_objects.specs.Knows.{Turns};
ghost use Rattle.nfs_objects.specs.Modes.{changing};
ghost use Rattle.nfs_objects.specs.Stands.{content_of, entry_map_in, map_in, parent_in};
ghost use Rattle.nfs_objects.specs.Unfiled.{Relists};
ghost use Rattle.nfs_objects.specs.Values.{known_at};
ghost use Rattle.nfs_objects.specs.declared.address.Addr.{Addr as Address};
ghost use Rattle.nfs_objects.specs.declared.object.Content.TheVariants as Contents;
ghost use Rattle.nfs_inodes.specs.Asking.{AsksFor};
ghost use Rattle.nfs_inodes.specs.Entered.{DirectoryLives, KeepsKnown, MayEnter, TellsLess, always, grown_at};
ghost use Rattle.nfs_inodes.specs.Kinds.{IsShown, KeepsKinds, KeepsOthers};
ghost use Rattle.nfs_inodes.specs.Makes.{name_added, name_taken};
ghost use Rattle.nfs_inodes.specs.Renames.{name_given, name_left, rehomed, staying};
ghost use Rattle.nfs_inodes.specs.Stops.{StillStands, StopsAt};

use crate::content::adding::{ask_added, with_entry};
use crate::content::asking::Asking;
use crate::content::taking::{ask_taken, leaf_of, without_entry};
use crate::content::{directory_at, with_content};
use crate::found::inode;
use crate::kinds::KnownDirectory;
use crate::times::{now, touch};
use nfs_objects::{Addr, Content, Draft, EntryMap, Inode, Leaf, Missing};
use nfs_wire::Time;

/// Asks for what a directory has to hold to get a name with this cookie.
pub(crate) fn ask_entry(
    draft: &Draft<'_>,
    directory: &KnownDirectory,
    name: &[u8],
    cookie: u64,
    asking: &mut Asking,
) -> Result<(), Missing>
    requires shown { IsShown draft.now directory.now.known }
    requires stands { StillStands draft.now }
    ensures { MatchResult result
        (λ _. AsksFor draft.now (MayEnter draft.now (grown_at draft.now directory.now.known.number name.now cookie))
        (λ a. ⊥) asking.old.asked.items asking.new.asked.items)
        (StopsAt draft.now (addresses_of draft.now.view directory.now.known.number)) }
{
    let kept = directory_at(draft, directory)?;
    let number = directory.known.number;
    Ok(ask_added(draft, number, &kept.header.entries, name, cookie, asking)?)
}

/// Asks for what a directory has to hold besides to lose a name.
pub(crate) fn ask_loss(
    draft: &Draft<'_>,
    directory: &KnownDirectory,
    name: &[u8],
    asking: &mut Asking,
) -> Result<(), Missing>
    requires shown { IsShown draft.now directory.now.known }
    requires stands { StillStands draft.now }
    ensures { MatchResult result
        (λ _. AsksFor draft.now (MayEnter draft.now []) (λ a. ⊥) asking.old.asked.items asking.new.asked.items)
        (StopsAt draft.now (addresses_of draft.now.view directory.now.known.number)) }
{
    let kept = directory_at(draft, directory)?;
    let number = directory.known.number;
    let Some(place) = kept.header.entries.place_of(name) else {
        return Ok(());
    };
    match leaf_of(draft, number, &kept.header.entries, name)? {
        Some(leaf) => Ok(ask_taken(draft, number, &kept.header.entries, place, leaf, asking)?),
        None => Ok(()),
    }
}

/// Asks at once for what a directory has to hold besides to lose a name.
///
/// # Errors
///
/// `Need` of that, and `Memory`.
pub fn ask_left(draft: &Draft<'_>, directory: &KnownDirectory, name: &[u8]) -> Result<(), Missing>
    requires none { draft.now.writes ≡ [] }
    requires shown { IsShown draft.now directory.now.known }
    ensures { IfErr result (StopsAt draft.now (addresses_of draft.now.view directory.now.known.number)) }
{
    let mut asking = Asking::new(draft.alloc());
    ask_loss(draft, directory, name, &mut asking)?;
    asking.ask()
}

/// Asks at once for what a directory has to hold to get a name with this cookie.
///
/// # Errors
///
/// `Need` of that, and `Memory`.
pub fn ask_given(
    draft: &Draft<'_>,
    directory: &KnownDirectory,
    name: &[u8],
    cookie: u64,
) -> Result<(), Missing>
    requires none { draft.now.writes ≡ [] }
    requires shown { IsShown draft.now directory.now.known }
    ensures { IfErr result (StopsAt draft.now (grown_at draft.now directory.now.known.number name.now cookie)) }
{
    let mut asking = Asking::new(draft.alloc());
    ask_entry(draft, directory, name, cookie, &mut asking)?;
    asking.ask()
}

/// Adds a name to a directory that has it not, last and with this cookie; the directory has so many links then. The
/// name is copied.
///
/// # Errors
///
/// `Need` of what has to be held for it, and `Memory`. The draft is of no use then.
pub fn add_entry(
    draft: &mut Draft<'_>,
    directory: &KnownDirectory,
    name: &[u8],
    number: u64,
    cookie: u64,
    links: u32,
) -> Result<(), Missing>
    requires alone { draft.old.modes ≡ changing }
    requires shown { IsShown draft.old directory.now.known }
    requires stands { StillStands draft.old }
    ensures turns { MatchResult result
        (λ _. Turns draft.old draft.new (name_added (time_of draft.old.ctx.moment) directory.now.known.number links
        (record { name = name.now; number = number; cookie = cookie })))
        (StopsAt draft.old (grown_at draft.old directory.now.known.number name.now cookie)) }
    ensures known { OnOk result ((a : Address) → IsSome (known_at draft.old a) → IsSome (known_at draft.new a)) }
    ensures others { OnOk result (KeepsOthers draft.old draft.new directory.now.known.number) }
    ensures kinds { OnOk result (KeepsKinds draft.old draft.new) }
{
    let number_of = directory.known.number;
    let kept = directory_at(draft, directory)?;
    if leaf_of(draft, number_of, &kept.header.entries, name)?.is_some() {
        return Ok(());
    }
    let inode = kept.inode.clone()?;
    let header = kept.header.clone()?;
    let wider = with_entry(
        draft,
        number_of,
        &header.entries,
        name,
        Leaf { number, cookie },
    )?;
    let content = directory_of(header.parent, cookie, wider);
    let new = relinked(&inode, now(draft.ctx()), content, links);
    Ok(draft.put(number_of, new)?)
}

/// Takes a name out of a directory.
///
/// # Errors
///
/// `Need` of what has to be held for it, and `Memory`. The draft is of no use then.
pub fn take_entry(
    draft: &mut Draft<'_>,
    directory: &KnownDirectory,
    name: &[u8],
) -> Result<(), Missing>
    requires alone { draft.old.modes ≡ changing }
    requires shown { IsShown draft.old directory.now.known }
    requires stands { StillStands draft.old }
    ensures { MatchResult result
        (λ _. Turns draft.old draft.new
        (name_taken (time_of draft.old.ctx.moment) directory.now.known.number name.now))
        (StopsAt draft.old (addresses_of draft.old.view directory.now.known.number)) }
{
    let number = directory.known.number;
    let kept = directory_at(draft, directory)?;
    let inode = kept.inode.clone()?;
    let header = kept.header.clone()?;
    let narrower = without_entry(draft, number, &header.entries, name)?;
    let content = directory_of(header.parent, header.last_cookie, narrower);
    let new = with_content(&inode, now(draft.ctx()), content);
    Ok(draft.put(number, new)?)
}

/// Takes a name out of a directory, which has so many links then.
///
/// # Errors
///
/// `Need` of what has to be held for it, and `Memory`. The draft is of no use then.
pub fn leave(
    draft: &mut Draft<'_>,
    directory: &KnownDirectory,
    name: &[u8],
    links: u32,
) -> Result<(), Missing>
    requires alone { MayChange draft.old (Addr.Inode directory.now.known.number) }
    requires shown { IsShown draft.old directory.now.known }
    requires stands { StillStands draft.old }
    ensures turns { MatchResult result
        (λ _. Turns draft.old draft.new
        (name_left (time_of draft.old.ctx.moment) directory.now.known.number name.now links))
        (StopsAt draft.old (addresses_of draft.old.view directory.now.known.number)) }
    ensures others { OnOk result (KeepsOthers draft.old draft.new directory.now.known.number) }
    ensures kinds { OnOk result (KeepsKinds draft.old draft.new) }
{
    let number = directory.known.number;
    let kept = directory_at(draft, directory)?;
    let inode = kept.inode.clone()?;
    let header = kept.header.clone()?;
    let narrower = without_entry(draft, number, &header.entries, name)?;
    let content = directory_of(header.parent, header.last_cookie, narrower);
    let new = relinked(&inode, now(draft.ctx()), content, links);
    Ok(draft.put(number, new)?)
}

/// Gives a name in a directory to an object, last and with this cookie, whatever had it before; an old name leaves with
/// it. The directory has so many links then. The name is copied.
///
/// # Errors
///
/// `Need` of what has to be held for it, and `Memory`. The draft is of no use then.
pub fn give_name(
    draft: &mut Draft<'_>,
    directory: &KnownDirectory,
    left: Option<&[u8]>,
    name: &[u8],
    number: u64,
    cookie: u64,
    links: u32,
) -> Result<(), Missing>
    requires alone { MayChange draft.old (Addr.Inode directory.now.known.number) }
    requires shown { IsShown draft.old directory.now.known }
    requires stands { StillStands draft.old }
    ensures { MatchResult result
        (λ _. Turns draft.old draft.new (name_given (time_of draft.old.ctx.moment) directory.now.known.number
        (option_copied left.entry) (record { name = name.now; number = number; cookie = cookie }) links))
        (StopsAt draft.old (grown_at draft.old directory.now.known.number name.now cookie)) }
{
    let number_of = directory.known.number;
    let kept = directory_at(draft, directory)?;
    let inode = kept.inode.clone()?;
    let header = kept.header.clone()?;
    let others = staying(draft, number_of, &header.entries, name, left)?;
    let wider = with_entry(draft, number_of, &others, name, Leaf { number, cookie })?;
    let content = directory_of(header.parent, cookie, wider);
    let new = relinked(&inode, now(draft.ctx()), content, links);
    Ok(draft.put(number_of, new)?)
}

/// Takes a name out of a directory, and the one that leaves, where this is the directory's map. The map from then on.
fn staying(
    draft: &mut Draft<'_>,
    number: u64,
    map: &EntryMap,
    name: &[u8],
    left: Option<&[u8]>,
) -> Result<EntryMap, Missing>
    requires alone { MayChange draft.old (Addr.Inode number) }
    requires lives { DirectoryLives draft.old number map.now }
    ensures staying { MatchResult result
        (λ others. Relists number draft.old draft.new map.now others
        (λ es. staying es name.now (option_copied left.entry)) always)
        (StopsAt draft.old []) }
    ensures knows { OnOk result (KeepsKnown draft.old draft.new) }
    ensures less { IfOk result (λ others. TellsLess others map.now) }
{
    let others = without_entry(draft, number, map, name)?;
    match left {
        Some(left) => without_entry(draft, number, &others, left),
        None => Ok(others),
    }
}

/// A directory that is named in this one, used this cookie last and has these entries.
fn directory_of(parent: u64, last_cookie: u64, entries: EntryMap) -> Content
    ensures { result ≡ Contents.Directory
        (record { parent = parent; last_cookie = last_cookie; entries = entries }) }
{
    Content::Directory(nfs_objects::Directory {
        parent,
        last_cookie,
        entries,
    })
}

/// The inode with other content from now on, and with so many links.
fn relinked(inode: &Inode, now: Time, content: Content, links: u32) -> Inode
    ensures { result ≡ record inode.now {
      content = content;
      links = links;
      modified = touch inode.now.changed now;
      changed = touch inode.now.changed now;
    } }
{
    let mut new = with_content(inode, now, content);
    new.links = links;
    new
}

/// Notes that what lives at a number has its name in this directory now: its ctime changes, and this is the parent of a
/// directory.
///
/// # Errors
///
/// `Need` of what has to be held for it, and `Memory`. The draft is of no use then.
pub fn rehome(draft: &mut Draft<'_>, number: u64, directory: u64) -> Result<(), Missing>
    requires { MayChange draft.old (Addr.Inode number) }
    ensures { MatchResult result
        (λ _. Turns draft.old draft.new (rehomed (time_of draft.old.ctx.moment) number directory))
        (StopsAt draft.old (addresses_of draft.old.view number)) }
{
    let Some(inode) = inode(draft, number)? else {
        return Ok(());
    };
    let mut new = inode.clone()?;
    new.changed = touch(new.changed, now(draft.ctx()));
    new.content = below(new.content, directory);
    Ok(draft.put(number, new)?)
}

/// The content, which has this parent where it is a directory's.
fn below(content: Content, parent: u64) -> Content
    ensures content { content_of result ≡ content_of content }
    ensures map { map_in result ≡ map_in content }
    ensures entries { entry_map_in result ≡ entry_map_in content }
    ensures parent { parent_in result ≡ (if is_directory (content_of content) then parent else parent_in content) }
{
    match content {
        Content::Directory(directory) => Content::Directory(nfs_objects::Directory {
            parent,
            last_cookie: directory.last_cookie,
            entries: directory.entries,
        }),
        other => other,
    }
}
