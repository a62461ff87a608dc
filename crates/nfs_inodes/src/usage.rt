//! What the objects of an export use, kept right as they change (RFC 1813, 3.3.18).

ghost use Rattle.std.specs.Prelude.{◌≡◌, ◌∷◌, [], IfOk, IfSome, IsSome, MatchResult, OnErr, OnOk, true};
ghost use Rattle.std.specs.Prelude.{if◌then◌else◌};
ghost use Rattle.nfs_objects.specs.Calls.{IsAmong, addresses_of, usages_of};
ghost use Rattle.nfs_objects.specs.Edits.{recounted};
ghost use Rattle.nfs_objects.specs.Knows.{Knows, Turns};
ghost use Rattle.nfs_objects.specs.Stands.{lives_in};
ghost use Rattle.nfs_objects.specs.Sums.{export_usage, group_of, in_export, is_same_usage};
ghost use Rattle.nfs_objects.specs.Values.{known_at};
ghost use Rattle.nfs_objects.specs.declared.usage.Usage.{Usage as Sums};
ghost use Rattle.nfs_inodes.specs.Asking.{AsksFor, with_wish};
ghost use Rattle.nfs_inodes.specs.Counts.{AreUnread, IsCount, IsShareOf, KeepsInodes, uncounted};
ghost use Rattle.nfs_inodes.specs.Stops.{StopsAt, counted_at, group_at, inode_at};

use crate::content::asking::Asking;
use crate::found::inode;
use nfs_objects::usage::group_of;
use nfs_objects::{Addr, Draft, GROUPS, Inode, Missing, Mode, Usage, Wish};
use std::alloc::AllocError;

/// What an object has of what its export uses.
#[derive(Clone, Copy, Debug)]
pub(crate) struct Share {
    pub export: u32,
    pub usage: Usage,
}

/// The share of an object.
pub(crate) fn share_of(inode: &Inode) -> Share
    ensures { IsShareOf inode.now result }
{
    Share {
        export: inode.export,
        usage: Usage::of_one(inode.content.size()),
    }
}

/// What the group of a number uses once its object has another share; None where the share is the same.
///
/// # Errors
///
/// `Need` of what the group uses, where the share is another; and `Memory`.
pub(crate) fn counted(
    draft: &Draft<'_>,
    number: u64,
    before: Share,
    after: Usage,
) -> Result<Option<Usage>, Missing>
    ensures { MatchResult result (IsCount draft.now before.export number before.usage after)
        (StopsAt draft.now (Addr.Usage before.export (group_of number) ∷ [])) }
{
    if before.usage == after {
        return Ok(None);
    }
    let usage = draft.usage(before.export, group_of(number))?;
    Ok(Some(usage.moved(before.usage, after)))
}

/// Asks for what the group of a number uses, where its object gets another share.
pub(crate) fn ask_counted(
    draft: &Draft<'_>,
    number: u64,
    before: Share,
    after: Usage,
    asking: &mut Asking,
) -> Result<(), AllocError>
    ensures { OnOk result (asking.new.asked.items ≡ (if is_same_usage before.usage after then asking.old.asked.items
        else with_wish draft.now (Addr.Usage before.export (group_of number)) asking.old.asked.items)) }
{
    if before.usage == after {
        return Ok(());
    }
    let address = Addr::Usage {
        export: before.export,
        group: group_of(number),
    };
    asking.add(draft, address)
}

/// Asks for what the group of a number uses, where its object is to be counted no more.
pub(crate) fn ask_uncounted(
    draft: &Draft<'_>,
    number: u64,
    asking: &mut Asking,
) -> Result<(), Missing>
    ensures { MatchResult result
        (λ _. AsksFor draft.now (IsAmong (group_at number (inode_at draft.now number))) (λ a. ⊥)
        asking.old.asked.items asking.new.asked.items)
        (StopsAt draft.now (addresses_of draft.now.view number)) }
{
    match inode(draft, number)? {
        Some(inode) => Ok(ask_counted(draft, number, share_of(inode), Usage::none(), asking)?),
        None => Ok(()),
    }
}

/// Puts what the group of a number uses from now on, if it is another.
pub(crate) fn count(
    draft: &mut Draft<'_>,
    export: u32,
    number: u64,
    usage: Option<Usage>,
) -> Result<(), AllocError>
    requires alone { draft.old.modes.inodes ≡ Mode.Exclusive }
    requires known { IfSome usage (λ _. IsSome (known_at draft.old (Addr.Usage export (group_of number)))) }
    ensures turns { OnOk result ((before after : Sums) → IsCount draft.old export number before after usage →
        Turns draft.old draft.new (recounted number (in_export export before) (in_export export after))) }
    ensures keeps { OnOk result (KeepsInodes draft.old draft.new) }
    ensures err { OnErr result (draft.new ≡ draft.old) }
{
    match usage {
        Some(usage) => draft.put_usage(export, group_of(number), usage),
        None => Ok(()),
    }
}

/// Counts the object at a number with another share of its export.
///
/// # Errors
///
/// `Need` of what its group uses, where the share is another; and `Memory`. The draft is of no use then.
pub(crate) fn recount(
    draft: &mut Draft<'_>,
    number: u64,
    before: Share,
    after: Usage,
) -> Result<(), Missing>
    requires { draft.old.modes.inodes ≡ Mode.Exclusive }
    ensures turns { MatchResult result
        (λ _. Turns draft.old draft.new
        (recounted number (in_export before.export before.usage) (in_export before.export after)))
        (StopsAt draft.old (Addr.Usage before.export (group_of number) ∷ [])) }
    ensures keeps { OnOk result (KeepsInodes draft.old draft.new) }
{
    let usage = counted(draft, number, before, after)?;
    Ok(count(draft, before.export, number, usage)?)
}

/// Counts the object at a number no more, if there is one.
///
/// # Errors
///
/// `Need` of what has to be held for it, and `Memory`. The draft is of no use then.
pub(crate) fn uncount(draft: &mut Draft<'_>, number: u64) -> Result<(), Missing>
    requires { draft.old.modes.inodes ≡ Mode.Exclusive }
    ensures turns { MatchResult result (λ _. Turns draft.old draft.new (uncounted number))
        (StopsAt draft.old (counted_at draft.old number)) }
    ensures known { OnOk result (IsSome (known_at draft.new (Addr.Inode number))) }
{
    let Some(inode) = inode(draft, number)? else {
        return Ok(());
    };
    let share = share_of(inode);
    recount(draft, number, share, Usage::none())
}

/// What all objects of an export that lives use together, each sum within its 128 bits.
///
/// # Errors
///
/// `Need` of what the groups of the export use, of all that were not read at once; and `Memory`.
pub fn export_usage(draft: &Draft<'_>, export: u32) -> Result<Usage, Missing>
    ensures { MatchResult result
        (λ usage. Knows draft.now (λ k. lives_in k.state.exports export ≡ true →
        usage ≡ export_usage k.state export))
        (StopsAt draft.now (usages_of export 64)) }
{
    let unread = unread(draft, export)?;
    if !unread.is_empty() {
        return Err(Missing::Need(unread));
    }
    let mut total = Usage::none();
    for group in 0..GROUPS {
        total = total.together(draft.usage(export, group)?);
    }
    Ok(total)
}

/// The groups of an export of which the draft does not know what they use, each with the mode in which it is asked
/// for.
fn unread(draft: &Draft<'_>, export: u32) -> Result<Vec<Wish>, AllocError>
    ensures { IfOk result (λ unread. AreUnread draft.now export 64 unread.items) }
{
    let mut unread = Vec::new(draft.alloc());
    for group in 0..GROUPS {
        if let Some(wish) = draft.missing(Addr::Usage { export, group }) {
            unread.push(wish)?;
        }
    }
    Ok(unread)
}
