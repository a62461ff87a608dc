//! A name that comes to a directory: into a page by its cookie, and into a part by the name.

ghost use Rattle.std.specs.Prelude.{◌≡◌, ◌<◌, ◌≤◌, ◌^◌, ◌/◌, ◌∷◌, ◌++◌, [], IfOk};
ghost use Rattle.std.specs.Prelude.{MatchResult, None, OnOk, find, option_copied, unwrap_or};
ghost use Rattle.nfs_machine.specs.Bytes.{same_bytes};
ghost use Rattle.nfs_objects.specs.Calls.{places_for};
ghost use Rattle.nfs_objects.specs.Directories.{bucket_of, width_in};
ghost use Rattle.nfs_objects.specs.Drafts.{MayChange};
ghost use Rattle.nfs_objects.specs.Entries.{entry};
ghost use Rattle.nfs_objects.specs.Unfiled.{Relists};
ghost use Rattle.nfs_objects.specs.declared.address.Addr.TheVariants as Addr;
ghost use Rattle.nfs_inodes.specs.Entered.{AsksToAdd, DirectoryLives, Divides, KeepsKnown};
ghost use Rattle.nfs_inodes.specs.Entered.{PagesGain, PartsGain, PartsLive, lacked_of};
ghost use Rattle.nfs_inodes.specs.Stops.{StopsAt};

use crate::content::asking::Asking;
use bytes::Bytes;
use nfs_machine::NameKey;
use nfs_objects::hashing::{bucket_of, part_among, source_of};
use nfs_objects::{
    Addr, Draft, Entries, EntryMap, EntryPage, Leaf, Missing, NameCounts, NamePlace, PAGE_COOKIES,
    PageList,
};
use std::alloc::{AllocError, Global};

/// Asks for what an entry more has to hold, where this is the map of the directory at a number: its page and its
/// part, and where the bucket gets one part more, that and the part that divides.
pub(crate) fn ask_added(
    draft: &Draft<'_>,
    number: u64,
    map: &EntryMap,
    name: &[u8],
    cookie: u64,
    asking: &mut Asking,
) -> Result<(), AllocError>
    ensures { OnOk result
        (AsksToAdd draft.now number map.now name.now cookie asking.old.asked.items asking.new.asked.items) }
{
    let page = cookie / PAGE_COOKIES;
    asking.add(
        draft,
        Addr::Page {
            directory: number,
            page,
        },
    )?;
    let bucket = bucket_of(name);
    let before = map.counts.width(bucket);
    let after = map.counts.width_with_one_more(bucket);
    let part = part_among(&map.key, after, name);
    if before == after {
        return asking.add(draft, part_at(number, bucket, part));
    }
    asking.add(draft, part_at(number, bucket, before))?;
    if before == 0 {
        return Ok(());
    }
    let source = source_of(before);
    asking.add(draft, part_at(number, bucket, source))?;
    if part != source && part != before {
        asking.add(draft, part_at(number, bucket, part))?;
    }
    Ok(())
}

fn part_at(directory: u64, bucket: u8, part: u32) -> Addr
    ensures { result ≡ Addr.Part directory bucket part }
{
    Addr::Part {
        directory,
        bucket,
        part,
    }
}

/// Puts an entry more, last, into the page and the part that it belongs to, where this is the map of the directory at
/// a number and the name is not there. The map from then on. The name is copied.
///
/// # Errors
///
/// `Need` of all that has to be held for it, at once; and `Memory`. The draft is of no use then.
pub(crate) fn with_entry(
    draft: &mut Draft<'_>,
    number: u64,
    map: &EntryMap,
    name: &[u8],
    leaf: Leaf,
) -> Result<EntryMap, Missing>
    requires alone { MayChange draft.old (Addr.Inode number) }
    requires lives { DirectoryLives draft.old number map.now }
    ensures lists { MatchResult result
        (λ wider. Relists number draft.old draft.new map.now wider
        (λ es. es ++ entry name.now leaf ∷ [])
        (λ es. find (λ e. same_bytes e.name name.now) es ≡ None))
        (StopsAt draft.old (lacked_of draft.old (places_for map.now number name.now leaf.cookie))) }
    ensures knows { OnOk result (KeepsKnown draft.old draft.new) }
{
    let mut asking = Asking::new(draft.alloc());
    ask_added(draft, number, map, name, leaf.cookie, &mut asking)?;
    asking.ask()?;
    let name = Bytes::copy_from_slice(draft.alloc(), name)?;
    let pages = add_to_page(draft, number, &map.pages, &name, leaf)?;
    let counts = add_to_part(draft, number, &map.key, &map.counts, &name, leaf)?;
    Ok(EntryMap {
        key: map.key,
        pages,
        counts,
    })
}

/// Puts an entry last into its page. The pages that are there then.
fn add_to_page(
    draft: &mut Draft<'_>,
    number: u64,
    pages: &PageList,
    name: &Bytes,
    leaf: Leaf,
) -> Result<PageList, Missing>
    requires { MayChange draft.old (Addr.Inode number) }
    ensures { MatchResult result
        (λ wider. PagesGain draft.old draft.new number pages.now wider (entry name.now leaf))
        (StopsAt draft.old (lacked_of draft.old (Addr.Page number (leaf.cookie / 64) ∷ []))) }
{
    let alloc = draft.alloc();
    let page = leaf.cookie / PAGE_COOKIES;
    let entries = match draft.page(number, page)? {
        Some(old) => old.with_entry(alloc, name, leaf)?,
        None => EntryPage::new(alloc).with_entry(alloc, name, leaf)?,
    };
    draft.put_page(number, page, entries)?;
    Ok(pages.with_page(alloc, page)?)
}

/// Puts an entry into its part; first a part of its bucket divides, where the bucket gets one part more. How many names
/// there are then.
fn add_to_part(
    draft: &mut Draft<'_>,
    number: u64,
    key: &NameKey,
    counts: &NameCounts,
    name: &Bytes,
    leaf: Leaf,
) -> Result<NameCounts, Missing>
    requires alone { MayChange draft.old (Addr.Inode number) }
    requires lives { PartsLive draft.old number (bucket_of name.now) (width_in counts.now (bucket_of name.now)) }
    ensures { MatchResult result
        (λ wider. PartsGain key.now draft.old draft.new number counts.now wider (entry name.now leaf))
        (StopsAt draft.old (lacked_of draft.old
        (Addr.Part number (bucket_of name.now) (width_in counts.now (bucket_of name.now)) ∷ []))) }
{
    let alloc = draft.alloc();
    let bucket = bucket_of(name.as_slice());
    let before = counts.width(bucket);
    let after = counts.width_with_one_more(bucket);
    if before > 0 && before != after {
        divide(draft, number, key, bucket, before)?;
    }
    let place = NamePlace {
        bucket,
        part: part_among(key, after, name.as_slice()),
    };
    let entries = with_name(alloc, draft.part(number, place)?, name, leaf)?;
    draft.put_part(number, place, entries)?;
    Ok(counts.with_one_more(alloc, bucket)?)
}

/// A part with one name more; where there is none, a part of that name.
fn with_name(
    alloc: Global,
    part: Option<&Entries>,
    name: &Bytes,
    leaf: Leaf,
) -> Result<Entries, AllocError>
    ensures { IfOk result (λ entries.
        find (λ e. same_bytes e.name name.now) (unwrap_or (option_copied part.entry) []) ≡ None →
        entries ≡ unwrap_or (option_copied part.entry) [] ++ entry name.now leaf ∷ []) }
{
    match part {
        Some(old) => old.with_entry(name, leaf),
        None => Entries::new(alloc).with_entry(name, leaf),
    }
}

/// Divides a part of a bucket of so many parts, which has one part more then: the names that belong there go to it.
fn divide(
    draft: &mut Draft<'_>,
    number: u64,
    key: &NameKey,
    bucket: u8,
    width: u32,
) -> Result<(), Missing>
    requires alone { MayChange draft.old (Addr.Inode number) }
    requires some { 0 < width }
    requires small { width ≤ 2 ^ 29 }
    requires lives { PartsLive draft.old number bucket width }
    ensures { MatchResult result (λ _. Divides key.now draft.old draft.new number bucket width)
        (StopsAt draft.old (lacked_of draft.old (Addr.Part number bucket width ∷ []))) }
{
    let source = NamePlace {
        bucket,
        part: source_of(width),
    };
    let added = NamePlace {
        bucket,
        part: width,
    };
    // It brings that the place of the new part is held.
    draft.part(number, added)?;
    let Some(old) = draft.part(number, source)? else {
        return Ok(());
    };
    let stays = old.in_part(key, width + 1, source.part)?;
    let moves = old.in_part(key, width + 1, added.part)?;
    draft.put_part(number, source, stays)?;
    Ok(draft.put_part(number, added, moves)?)
}
