//! What names lead to (RFC 1813, 3.3.3).

ghost use Rattle.std.specs.Prelude.{◌≡◌, ◌==◌, [], length, IfOk, IfSome, MatchResult, Some, ok_or};
ghost use Rattle.std.specs.Prelude.{option_map};
ghost use Rattle.nfs_wire.specs.declared.status.NfsStatus.TheVariants as status;
ghost use Rattle.nfs_machine.specs.Attributes.{entries_of};
ghost use Rattle.nfs_machine.specs.Checks.{entry_of};
ghost use Rattle.nfs_machine.specs.NameSteps.{leads_to};
ghost use Rattle.nfs_objects.specs.Asks.{IsThere};
ghost use Rattle.nfs_objects.specs.Calls.{addresses_of};
ghost use Rattle.nfs_objects.specs.Knows.{Knows};
ghost use Rattle.nfs_objects.specs.Modes.{led_at};
ghost use Rattle.nfs_objects.specs.Stands.{content_of, entry_map_in, parent_in};
ghost use Rattle.nfs_inodes.specs.Entered.{IsLastCookie, IsNextCookie, TellsBare};
ghost use Rattle.nfs_inodes.specs.Known.{IsKnown, content_at, last_cookie_of, new_cookie};
ghost use Rattle.nfs_inodes.specs.Stops.{ReadsInode, StopsAt};

use crate::content::taking::leaf_of;
use crate::found::inode;
use crate::kinds::KnownDirectory;
use crate::names::{is_above, is_self};
use nfs_objects::{Addr, Content, Draft, Missing};

/// The number that a name's entry leads to in a directory; None where there is no such entry. Something lives there in
/// every store that the view fits. Beside the directory's header it reads the part of the name, if there is one.
///
/// # Errors
///
/// `Need` of the exports, the directory's address or its part, and `Memory`.
pub fn entry(
    draft: &Draft<'_>,
    directory: &KnownDirectory,
    name: &[u8],
) -> Result<Option<u64>, Missing>
    requires none { draft.now.writes ≡ [] }
    requires known { Knows draft.now (λ k. IsKnown k.state directory.now.known) }
    ensures entry { MatchResult result
        (λ number. Knows draft.now (λ k. option_map (λ e. e.number)
        (entry_of (entries_of (content_at k.state directory.now.known.number)) name.now) ≡ number))
        (StopsAt draft.now (addresses_of draft.now.view directory.now.known.number)) }
    ensures lives { IfOk result (λ number. IfSome number (λ n. IsThere draft.now.view (Addr.Inode n))) }
    ensures led { IfOk result (λ number. IfSome number (λ n.
        led_at draft.now.view directory.now.known.number name.now ≡ Some n)) }
{
    let number = directory.known.number;
    let Some(inode) = inode(draft, number)? else {
        return Ok(None);
    };
    let Content::Directory(header) = &inode.content else {
        return Ok(None);
    };
    match leaf_of(draft, number, &header.entries, name)? {
        Some(leaf) => Ok(Some(leaf.number)),
        None => Ok(None),
    }
}

/// The parent of the directory at a number; a root is its own.
pub(crate) fn parent(draft: &Draft<'_>, number: u64) -> Result<u64, Missing>
    ensures parent { MatchResult result
        (λ parent. Knows draft.now (λ k. k.parents number ≡ parent))
        (StopsAt draft.now (addresses_of draft.now.view number)) }
    ensures reads { ReadsInode draft.now number result }
{
    match inode(draft, number)? {
        Some(inode) => Ok(parent_of(&inode.content)),
        None => Ok(0),
    }
}

fn parent_of(content: &Content) -> u64
    ensures { result ≡ parent_in content.now }
{
    match content {
        Content::Directory(directory) => directory.parent,
        _ => 0,
    }
}

/// The number that a name leads to in a directory: `.` to the directory itself, `..` to its parent, and another name to
/// its entry's object; None where there is no such entry. Something lives there in every store that the view fits.
///
/// # Errors
///
/// `Need` of the exports, the directory's address or its part, and `Memory`.
pub fn leads_to(
    draft: &Draft<'_>,
    directory: &KnownDirectory,
    name: &[u8],
) -> Result<Option<u64>, Missing>
    requires none { draft.now.writes ≡ [] }
    requires known { Knows draft.now (λ k. IsKnown k.state directory.now.known) }
    ensures leads { MatchResult result
        (λ number. Knows draft.now (λ k.
        leads_to directory.now.known.number (k.parents directory.now.known.number)
        (entries_of (content_at k.state directory.now.known.number)) name.now ≡ ok_or number status.NoEntry))
        (StopsAt draft.now (addresses_of draft.now.view directory.now.known.number)) }
    ensures lives { IfOk result (λ number. IfSome number (λ n. IsThere draft.now.view (Addr.Inode n))) }
{
    if is_self(name) {
        return Ok(Some(directory.known.number));
    }
    if is_above(name) {
        return Ok(Some(parent(draft, directory.known.number)?));
    }
    entry(draft, directory, name)
}

/// Whether a directory has no entry.
///
/// # Errors
///
/// `Need` of the exports or the directory's address, and `Memory`.
pub fn is_empty(draft: &Draft<'_>, directory: &KnownDirectory) -> Result<bool, Missing>
    ensures { MatchResult result
        (λ empty. Knows draft.now (λ k.
        (length (entries_of (content_at k.state directory.now.known.number)) == 0) ≡ empty))
        (StopsAt draft.now (addresses_of draft.now.view directory.now.known.number)) }
{
    match inode(draft, directory.known.number)? {
        Some(inode) => Ok(is_empty_in(&inode.content)),
        None => Ok(true),
    }
}

fn is_empty_in(content: &Content) -> bool
    ensures { TellsBare (entry_map_in content.now) result }
{
    match content {
        Content::Directory(directory) => directory.entries.is_none(),
        _ => true,
    }
}

/// The cookie of a directory's next entry, one above the greatest that it ever used (RFC 1813, 3.3.16); None where it
/// used the greatest of all.
///
/// # Errors
///
/// `Need` of the exports or the directory's address, and `Memory`.
pub fn new_cookie(draft: &Draft<'_>, directory: &KnownDirectory) -> Result<Option<u64>, Missing>
    ensures cookie { MatchResult result
        (λ cookie. Knows draft.now (λ k.
        new_cookie (last_cookie_of (content_at k.state directory.now.known.number)) ≡ cookie))
        (StopsAt draft.now (addresses_of draft.now.view directory.now.known.number)) }
    ensures next { IfOk result (λ cookie. IfSome cookie (IsNextCookie draft.now directory.now.known.number)) }
{
    Ok(last_cookie(draft, directory)?.checked_add(1))
}

/// The greatest cookie that a directory ever used.
fn last_cookie(draft: &Draft<'_>, directory: &KnownDirectory) -> Result<u64, Missing>
    ensures cookie { MatchResult result
        (λ last. Knows draft.now (λ k. last_cookie_of (content_at k.state directory.now.known.number) ≡ last))
        (StopsAt draft.now (addresses_of draft.now.view directory.now.known.number)) }
    ensures shown { IfOk result (IsLastCookie draft.now directory.now.known.number) }
{
    match inode(draft, directory.known.number)? {
        Some(inode) => Ok(last_cookie_in(&inode.content)),
        None => Ok(0),
    }
}

fn last_cookie_in(content: &Content) -> u64
    ensures { result ≡ last_cookie_of (content_of content.now) }
{
    match content {
        Content::Directory(directory) => directory.last_cookie,
        _ => 0,
    }
}
