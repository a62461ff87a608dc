//! A name that goes from a directory: out of its page, and out of its part.

ghost use Rattle.std.specs.Prelude.{◌≡◌, ◌<◌, ◌≤◌, ◌^◌, ◌==◌, [], IfOk, MatchResult, OnOk};
ghost use Rattle.std.specs.Prelude.{Some, if◌then◌else◌, suc};
ghost use Rattle.nfs_machine.specs.RemoveSteps.{without};
ghost use Rattle.nfs_objects.specs.Directories.{IsPlace};
ghost use Rattle.nfs_objects.specs.Drafts.{MayChange};
ghost use Rattle.nfs_objects.specs.Unfiled.{Relists};
ghost use Rattle.nfs_objects.specs.declared.address.Addr.TheVariants as Addr;
ghost use Rattle.nfs_inodes.specs.Asking.{with_wish};
ghost use Rattle.nfs_inodes.specs.Entered.{AsksToTake, DirectoryLives, Joins, KeepsKnown, PartsLive};
ghost use Rattle.nfs_inodes.specs.Entered.{PagesLose, PartsLose, ShowsLeaf, TellsLess, always};
ghost use Rattle.nfs_inodes.specs.Stops.{StopsAt};

use crate::content::asking::Asking;
use nfs_objects::hashing::source_of;
use nfs_objects::{
    Addr, Draft, EntryMap, Leaf, Missing, NameCounts, NamePlace, PAGE_COOKIES, PageList,
};
use std::alloc::AllocError;

/// What a name leads to, where this is the map of the directory at a number; None where it is not there.
///
/// # Errors
///
/// `Need` of the part that the name stands in, if it is there, and `Memory`.
pub(crate) fn leaf_of(
    draft: &Draft<'_>,
    number: u64,
    map: &EntryMap,
    name: &[u8],
) -> Result<Option<Leaf>, Missing>
    requires { DirectoryLives draft.now number map.now }
    ensures { MatchResult result (ShowsLeaf draft.now number map.now name.now) (StopsAt draft.now []) }
{
    let Some(place) = map.place_of(name) else {
        return Ok(None);
    };
    match draft.part(number, place)? {
        Some(entries) => Ok(entries.find(name)),
        None => Ok(None),
    }
}

/// Asks for what has to be held besides to take a name away that leads to this, where this is the map of the directory
/// at a number: its page, and where its bucket gets one part less, that one and the part that it is joined with.
pub(crate) fn ask_taken(
    draft: &Draft<'_>,
    number: u64,
    map: &EntryMap,
    place: NamePlace,
    leaf: Leaf,
    asking: &mut Asking,
) -> Result<(), AllocError>
    ensures { OnOk result (AsksToTake draft.now number map.now asking.old.asked.items asking.new.asked.items) }
{
    let page = leaf.cookie / PAGE_COOKIES;
    if map.pages.has(page) {
        asking.add(
            draft,
            Addr::Page {
                directory: number,
                page,
            },
        )?;
    }
    let before = map.counts.width(place.bucket);
    let after = map.counts.width_with_one_less(place.bucket);
    if after > 0 && before != after {
        ask_other(draft, number, place, after, asking)?;
        ask_other(draft, number, place, source_of(after), asking)?;
    }
    Ok(())
}

/// Asks for another part of a bucket than the one at a place.
fn ask_other(
    draft: &Draft<'_>,
    number: u64,
    place: NamePlace,
    part: u32,
    asking: &mut Asking,
) -> Result<(), AllocError>
    ensures { OnOk result (asking.new.asked.items ≡ (if part == place.part then asking.old.asked.items else
        with_wish draft.now (Addr.Part number place.bucket part) asking.old.asked.items)) }
{
    if part == place.part {
        return Ok(());
    }
    asking.add(
        draft,
        Addr::Part {
            directory: number,
            bucket: place.bucket,
            part,
        },
    )
}

/// Takes a name out of the page and the part that it stands in, where this is the map of the directory at a number.
/// The map from then on; where the name is not there, it stays.
///
/// # Errors
///
/// `Need` of all that has to be held for it; and `Memory`. The draft is of no use then.
pub(crate) fn without_entry(
    draft: &mut Draft<'_>,
    number: u64,
    map: &EntryMap,
    name: &[u8],
) -> Result<EntryMap, Missing>
    requires alone { MayChange draft.old (Addr.Inode number) }
    requires lives { DirectoryLives draft.old number map.now }
    ensures lists { MatchResult result
        (λ narrower. Relists number draft.old draft.new map.now narrower (λ es. without es name.now) always)
        (StopsAt draft.old []) }
    ensures knows { OnOk result (KeepsKnown draft.old draft.new) }
    ensures less { IfOk result (λ narrower. TellsLess narrower map.now) }
{
    let Some(place) = map.place_of(name) else {
        return Ok(map.clone()?);
    };
    let Some(leaf) = leaf_of(draft, number, map, name)? else {
        return Ok(map.clone()?);
    };
    let mut asking = Asking::new(draft.alloc());
    ask_taken(draft, number, map, place, leaf, &mut asking)?;
    asking.ask()?;
    let pages = take_from_page(draft, number, map, leaf, name)?;
    let counts = take_from_part(draft, number, map, place, name)?;
    Ok(EntryMap {
        key: map.key,
        pages,
        counts,
    })
}

/// Takes a name that leads to this out of its page. The pages that are there then.
fn take_from_page(
    draft: &mut Draft<'_>,
    number: u64,
    map: &EntryMap,
    leaf: Leaf,
    name: &[u8],
) -> Result<PageList, Missing>
    requires alone { MayChange draft.old (Addr.Inode number) }
    requires lives { DirectoryLives draft.old number map.now }
    ensures { MatchResult result
        (λ narrower. PagesLose draft.old draft.new number map.now.pages narrower leaf name.now)
        (StopsAt draft.old []) }
{
    let alloc = draft.alloc();
    let page = leaf.cookie / PAGE_COOKIES;
    if !map.pages.has(page) {
        return Ok(map.pages.clone()?);
    }
    let Some(old) = draft.page(number, page)? else {
        return Ok(map.pages.clone()?);
    };
    let entries = old.without_entry(alloc, name, leaf.cookie)?;
    let is_empty = entries.is_empty();
    draft.put_page(number, page, entries)?;
    if is_empty {
        Ok(map.pages.without_page(alloc, page)?)
    } else {
        Ok(map.pages.clone()?)
    }
}

/// Takes a name out of the part that it stands in. Where its bucket gets one part less, the last one goes, and its
/// names with it to the part that they belong to then. How many names there are then.
fn take_from_part(
    draft: &mut Draft<'_>,
    number: u64,
    map: &EntryMap,
    place: NamePlace,
    name: &[u8],
) -> Result<NameCounts, Missing>
    requires alone { MayChange draft.old (Addr.Inode number) }
    requires lives { DirectoryLives draft.old number map.now }
    requires place { IsPlace map.now name.now (Some place) }
    ensures { MatchResult result
        (λ narrower. PartsLose map.now.key draft.old draft.new number map.now.counts narrower name.now)
        (StopsAt draft.old []) }
{
    let alloc = draft.alloc();
    let narrower = map.counts.with_one_less(alloc, place.bucket)?;
    let Some(old) = draft.part(number, place)? else {
        return Ok(narrower);
    };
    let rest = old.without_name(name)?;
    let before = map.counts.width(place.bucket);
    let after = narrower.width(place.bucket);
    if after == 0 {
        draft.free_at(Addr::Part {
            directory: number,
            bucket: place.bucket,
            part: place.part,
        })?;
        return Ok(narrower);
    }
    draft.put_part(number, place, rest)?;
    if before != after {
        join(draft, number, place.bucket, after)?;
    }
    Ok(narrower)
}

/// Takes away the last part of a bucket, which has so many then: its names go to the part that they belong to.
fn join(draft: &mut Draft<'_>, number: u64, bucket: u8, width: u32) -> Result<(), Missing>
    requires alone { MayChange draft.old (Addr.Inode number) }
    requires some { 0 < width }
    requires small { width ≤ 2 ^ 29 }
    requires live { PartsLive draft.old number bucket (suc width) }
    ensures { MatchResult result (λ _. Joins draft.old draft.new number bucket width) (StopsAt draft.old []) }
{
    let last = NamePlace {
        bucket,
        part: width,
    };
    let source = NamePlace {
        bucket,
        part: source_of(width),
    };
    let Some(moves) = draft.part(number, last)? else {
        return Ok(());
    };
    let Some(stays) = draft.part(number, source)? else {
        return Ok(());
    };
    let joined = stays.joined(moves)?;
    draft.put_part(number, source, joined)?;
    Ok(draft.free_at(Addr::Part {
        directory: number,
        bucket,
        part: width,
    })?)
}
