//! Names that objects get beside those that they have (RFC 1813, 3.3.15).

ghost use Rattle.std.specs.Prelude.{◌≡◌, ◌++◌, [], MatchResult};
ghost use Rattle.nfs_machine.specs.Times.{time_of};
ghost use Rattle.nfs_objects.specs.Calls.{addresses_of};
ghost use Rattle.nfs_objects.specs.Knows.{Turns};
ghost use Rattle.nfs_objects.specs.Modes.{changing};
ghost use Rattle.nfs_inodes.specs.Entered.{grown_at};
ghost use Rattle.nfs_inodes.specs.Kinds.{IsShown};
ghost use Rattle.nfs_inodes.specs.Links.{link_gained, linked_so};
ghost use Rattle.nfs_inodes.specs.Stops.{StopsAt};

use crate::content::naming::add_entry;
use crate::found::inode;
use crate::kinds::KnownDirectory;
use crate::times::{now, touch};
use nfs_objects::{Draft, Missing};

/// Gives an object a name in a directory that has it not, last and with this cookie; so many links it has then. The
/// name is copied.
///
/// # Errors
///
/// `Need` of what has to be held for it, and `Memory`. The draft is of no use then.
pub fn add_link(
    draft: &mut Draft<'_>,
    directory: &KnownDirectory,
    name: &[u8],
    cookie: u64,
    number: u64,
    links: u32,
) -> Result<(), Missing>
    requires none { draft.old.writes ≡ [] }
    requires alone { draft.old.modes ≡ changing }
    requires shown { IsShown draft.old directory.now.known }
    ensures { MatchResult result
        (λ _. Turns draft.old draft.new (link_gained (time_of draft.old.ctx.moment) directory.now.known.number
        directory.now.known.attributes.links (record { name = name.now; number = number; cookie = cookie }) links))
        (StopsAt draft.old (grown_at draft.old directory.now.known.number name.now cookie
        ++ addresses_of draft.old.view number)) }
{
    let kept = directory.known.attributes.links;
    add_entry(draft, directory, name, number, cookie, kept)?;
    set_links(draft, number, links)
}

/// The count of an object's links changes, and its ctime with it.
fn set_links(draft: &mut Draft<'_>, number: u64, links: u32) -> Result<(), Missing>
    requires { draft.old.modes ≡ changing }
    ensures { MatchResult result
        (λ _. Turns draft.old draft.new (linked_so (time_of draft.old.ctx.moment) number links))
        (StopsAt draft.old (addresses_of draft.old.view number)) }
{
    let Some(inode) = inode(draft, number)? else {
        return Ok(());
    };
    let mut new = inode.clone()?;
    new.links = links;
    new.changed = touch(new.changed, now(draft.ctx()));
    Ok(draft.put(number, new)?)
}
