//! The entries of a directory in order of cookie (RFC 1813, 3.3.16).

ghost use Rattle.std.specs.Prelude.{◌≡◌, ℕ, ◌<◌, ◌^◌, ◌++◌, [], length, map, IfOk, MatchResult};
ghost use Rattle.std.specs.Prelude.{OnOk};
ghost use Rattle.std.specs.Prelude.{◌⊎◌, IfErr, IsSome, Some, option_copied, true};
ghost use Rattle.nfs_machine.specs.Attributes.{entries_of};
ghost use Rattle.nfs_machine.specs.Pages.{all_entries, behind};
ghost use Rattle.nfs_machine.specs.WellFormed.{CookiesRise, WellFormed};
ghost use Rattle.nfs_objects.specs.Asks.{IsThere};
ghost use Rattle.nfs_objects.specs.Calls.{addresses_of};
ghost use Rattle.nfs_objects.specs.PageRuns.{lists};
ghost use Rattle.nfs_objects.specs.Knows.{Knows};
ghost use Rattle.nfs_objects.specs.Values.{known_at};
ghost use Rattle.nfs_objects.specs.declared.address.Addr.TheVariants as Addr;
ghost use Rattle.nfs_inodes.specs.Entered.{DirectoryLives, ShowsPage};
ghost use Rattle.nfs_inodes.specs.Gathers.{EachLives};
ghost use Rattle.nfs_inodes.specs.Known.{IsKnown, content_at};
ghost use Rattle.nfs_inodes.specs.Listing.{IsFrontOf, dots_behind, listed_entry, name_of};
ghost use Rattle.nfs_inodes.specs.Stops.{StopsAt};

use crate::content::asking::Asking;
use crate::found::inode;
use crate::kinds::KnownDirectory;
use bytes::Bytes;
use nfs_objects::{
    Addr, Content, Draft, EntryMap, EntryPage, Missing, NamedLeaf, PAGE_COOKIES, PageList,
};
use std::alloc::AllocError;
use std::marker::Model;
use std::vec::IntoIter;

/// The name of an entry.
#[derive(Clone, Copy)]
pub enum EntryName<'d> {
    /// `.`, the directory itself.
    Own,
    /// `..`, its parent.
    Above,
    /// A name that was added.
    Added(&'d Bytes),
}

/// An entry of a directory.
#[derive(Clone, Copy)]
pub struct ListedEntry<'d> {
    pub name: EntryName<'d>,
    /// The number that the name leads to.
    pub number: u64,
    pub cookie: u64,
}

impl<'d> ListedEntry<'d> {
    /// How many bytes the name has.
    pub fn name_len(&self) -> usize
        ensures len { result ≡ length (name_of self.now.name) }
        ensures small { result < 2 ^ 63 }
    {
        match self.name {
            EntryName::Own => 1,
            EntryName::Above => 2,
            EntryName::Added(name) => name.len(),
        }
    }

    /// The bytes of the name, shared with the directory.
    ///
    /// # Errors
    ///
    /// `AllocError` where one more owner of them found no memory.
    pub fn share_name(&self) -> Result<Bytes, AllocError>
        ensures { IfOk result (λ name. name ≡ name_of self.now.name) }
    {
        match self.name {
            EntryName::Own => Ok(Bytes::from_static(b".".as_slice())),
            EntryName::Above => Ok(Bytes::from_static(b"..".as_slice())),
            EntryName::Added(name) => name.clone(),
        }
    }
}

/// Entries of a directory that follow each other, which are gone through one by one. A clause sees those that are left
/// as a list.
#[derive(Drop)]
pub struct EntriesLeft<'d> {
    entries: IntoIter<ListedEntry<'d>>,
}

impl<'d> Model for EntriesLeft<'d> {
    ghost use Rattle.std.specs.Prelude.{List, map};
    ghost use Rattle.std.specs.Vec.Iter.{into_iter_items};
    ghost use Rattle.nfs_machine.specs.State.{Entry};
    ghost use Rattle.nfs_inodes.specs.Listing.{listed_entry};

    ghost Value = { List Entry };

    ghost view = { λ e. map listed_entry (into_iter_items e.entries) };
}

impl<'d> Iterator for EntriesLeft<'d> {
    ghost use Rattle.std.specs.Iterator.{YieldsFirstBy, item_count};
    ghost use Rattle.nfs_inodes.specs.Listing.{listed_entry};

    type Item = ListedEntry<'d>;

    ghost next_gives = { YieldsFirstBy listed_entry (λ left. left) };

    ghost remaining = { item_count (λ left. left) };

    fn next(&mut self) -> Option<ListedEntry<'d>> {
        self.entries.next()
    }
}

/// The first entries of a directory behind a cookie.
#[derive(Drop)]
pub struct Left<'d> {
    pub entries: EntriesLeft<'d>,
    /// Whether no others are left.
    pub is_all: bool,
}

/// The entries of a directory that are left behind a cookie, `.` and `..` among them: all of them, or at least so many.
/// Something lives at the number of each in every store that the view fits. The directory's pages are read at once as
/// far as so many entries need them, if all have as many as they may.
///
/// # Errors
///
/// `Need` of the exports, the directory's address or those pages, and `Memory`.
pub fn entries_left<'d>(
    draft: &'d Draft<'_>,
    directory: &KnownDirectory,
    cookie: u64,
    enough: usize,
) -> Result<Left<'d>, Missing>
    requires none { draft.now.writes ≡ [] }
    requires known { Knows draft.now (λ k. IsKnown k.state directory.now.known) }
    ensures left { MatchResult result
        (λ left. Knows draft.now (λ k. WellFormed k.state →
        IsFrontOf left.entries left.is_all enough
        (behind cookie (all_entries directory.now.known.number (k.parents directory.now.known.number)
        (entries_of (content_at k.state directory.now.known.number))))))
        (StopsAt draft.now (addresses_of draft.now.view directory.now.known.number)) }
    ensures lives { IfOk result (λ left. EachLives draft.now.view left.entries) }
{
    let number = directory.known.number;
    let mut left = Vec::new(draft.alloc());
    let Some(inode) = inode(draft, number)? else {
        return Ok(all(left));
    };
    let Content::Directory(header) = &inode.content else {
        return Ok(all(left));
    };
    add_dots(&mut left, number, header.parent, cookie)?;
    let pages = &header.entries.pages;
    let mut next = pages.next_from(cookie / PAGE_COOKIES);
    'pages: while let Some(page) = next {
        if left.len() >= enough {
            return Ok(Left {
                entries: EntriesLeft {
                    entries: left.into_iter(),
                },
                is_all: false,
            });
        }
        if let Some(entries) = page_at(draft, number, &header.entries, page, enough - left.len())? {
            add_behind(&mut left, entries, cookie)?;
        }
        next = pages.next_behind(page);
    }
    Ok(all(left))
}

/// These are all.
fn all<'d>(entries: Vec<ListedEntry<'d>>) -> Left<'d>
    ensures entries { result.entries ≡ map listed_entry entries.entry.items }
    ensures all { result.is_all ≡ true }
{
    Left {
        entries: EntriesLeft {
            entries: entries.into_iter(),
        },
        is_all: true,
    }
}

/// Adds `.` and `..`, as far as they are behind a cookie.
fn add_dots(
    left: &mut Vec<ListedEntry<'_>>,
    number: u64,
    parent: u64,
    cookie: u64,
) -> Result<(), AllocError>
    ensures { OnOk result (map listed_entry left.new.items
        ≡ map listed_entry left.old.items ++ dots_behind number parent cookie) }
{
    if cookie < 1 {
        left.push(ListedEntry {
            name: EntryName::Own,
            number,
            cookie: 1,
        })?;
    }
    if cookie < 2 {
        left.push(ListedEntry {
            name: EntryName::Above,
            number: parent,
            cookie: 2,
        })?;
    }
    Ok(())
}

/// This page of a directory, which its map tells of.
///
/// # Errors
///
/// `Need` of it and of those behind it, as far as so many entries may stand in them; and `Memory`.
fn page_at<'d>(
    draft: &'d Draft<'_>,
    number: u64,
    map: &EntryMap,
    page: u64,
    missing: usize,
) -> Result<Option<&'d EntryPage>, Missing>
    requires lives { DirectoryLives draft.now number map.now }
    requires listed { lists map.now.pages page ≡ true }
    ensures { MatchResult result (λ entries. ShowsPage draft.now number page (option_copied entries))
        (StopsAt draft.now []) }
{
    let address = Addr::Page {
        directory: number,
        page,
    };
    if draft.missing(address).is_some() {
        ask_pages(
            draft,
            number,
            &map.pages,
            page,
            missing / PAGE_COOKIES as usize + 1,
        )?;
    }
    draft.page(number, page)
}

/// Asks for so many pages of a directory, from this one on.
pub(crate) fn ask_pages(
    draft: &Draft<'_>,
    number: u64,
    pages: &PageList,
    page: u64,
    count: usize,
) -> Result<(), Missing>
    requires { (p : ℕ) → lists pages.now p ≡ true →
        IsSome (known_at draft.now (Addr.Page number p)) ⊎ IsThere draft.now.view (Addr.Page number p) }
    ensures { IfErr result (StopsAt draft.now []) }
{
    let mut asking = Asking::new(draft.alloc());
    let mut next = pages.next_from(page);
    for _asked in 0..count {
        let Some(page) = next else {
            return asking.ask();
        };
        asking.add(
            draft,
            Addr::Page {
                directory: number,
                page,
            },
        )?;
        next = pages.next_behind(page);
    }
    asking.ask()
}

/// Adds the entries of a page that are behind a cookie.
fn add_behind<'d>(
    left: &mut Vec<ListedEntry<'d>>,
    page: &'d EntryPage,
    cookie: u64,
) -> Result<(), AllocError>
    ensures { OnOk result ((below last : ℕ) → CookiesRise below page.now last →
        map listed_entry left.new.items ≡ map listed_entry left.old.items ++ behind cookie page.now) }
{
    let first = page.place_behind(cookie);
    for place in first..page.len() {
        if let Some(named) = page.get(place) {
            left.push(to_listed(named))?;
        }
    }
    Ok(())
}

fn to_listed<'d>(named: &'d NamedLeaf) -> ListedEntry<'d>
    ensures { listed_entry result ≡ named.entry.now }
{
    ListedEntry {
        name: EntryName::Added(&named.name),
        number: named.leaf.number,
        cookie: named.leaf.cookie,
    }
}
