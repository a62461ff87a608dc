//! What a call wants to read next, as what its draft shows tells, with no attempt.
//!
//! A wish is for an address that the draft lacks, and at which something stands in every store that its view fits.
//! Where the draft does not show what tells of one, there is none.

ghost use Rattle.std.specs.Prelude.{◌≡◌, [], IfSome, Some};
ghost use Rattle.nfs_objects.specs.Asks.{Asks, IsThere};
ghost use Rattle.nfs_objects.specs.Modes.{led_at};
ghost use Rattle.nfs_inodes.specs.Gathers.{MayWish};

use crate::burying::is_large;
use crate::content::cut::ask_cut;
use crate::content::listing::ask_pages;
use crate::content::taking::leaf_of;
use crate::found::inode;
use nfs_objects::{Addr, Content, Draft, EntryPage, Leaf, Missing, PAGE_COOKIES, PageList, Wish};

/// What a call wants next.
#[derive(Drop)]
pub enum Want {
    /// This address.
    Address(Wish),
    /// All these, one after the other.
    Addresses(Vec<Wish>),
    /// So many new numbers.
    Numbers(u32),
}

/// What is wanted, and where the plan is once it is taken. None where the plan is over, as far as the view tells.
pub type NextWant<Plan> = Option<(Want, Plan)>;

/// How far the pages of a directory were gone through.
#[derive(Clone, Copy)]
pub struct PagesLeft {
    /// The entries that are wanted have cookies above it.
    cookie: u64,
    /// The first page that is left.
    page: u64,
    /// How many entries are wanted still.
    missing: usize,
}

/// The part that a name is in, if it is there, in the directory at a number.
pub fn part_wish(draft: &Draft<'_>, directory: u64, name: &[u8]) -> Option<Wish>
    requires { draft.now.writes ≡ [] }
    ensures { IfSome result (MayWish draft.now) }
{
    let Ok(Some(inode)) = inode(draft, directory) else {
        return None;
    };
    let place = inode.directory()?.entries.place_of(name)?;
    draft.missing(Addr::Part {
        directory,
        bucket: place.bucket,
        part: place.part,
    })
}

/// What a name leads to in the directory at a number, as far as the draft shows it. Something lives there in every
/// store that the view fits.
pub fn leaf_shown(draft: &Draft<'_>, directory: u64, name: &[u8]) -> Option<Leaf>
    requires { draft.now.writes ≡ [] }
    ensures lives { IfSome result (λ leaf. IsThere draft.now.view (Addr.Inode leaf.number)) }
    ensures led { IfSome result (λ leaf. led_at draft.now.view directory name.now ≡ Some leaf.number) }
{
    let Ok(Some(inode)) = inode(draft, directory) else {
        return None;
    };
    let header = inode.directory()?;
    let Ok(leaf) = leaf_of(draft, directory, &header.entries, name) else {
        return None;
    };
    leaf
}

/// What stands at an address, where something does.
pub fn wish_there(draft: &Draft<'_>, address: Addr) -> Option<Wish>
    requires { IsThere draft.now.view address }
    ensures { IfSome result (MayWish draft.now) }
{
    draft.missing(address)
}

/// Whether the draft shows a directory at a number.
pub fn shows_directory(draft: &Draft<'_>, number: u64) -> bool {
    match inode(draft, number) {
        Ok(Some(inode)) => inode.directory().is_some(),
        _ => false,
    }
}

/// The pages of so many entries behind a cookie, `.` and `..` among them.
pub fn pages_left(cookie: u64, enough: usize) -> PagesLeft {
    let dots = match cookie {
        0 => 2,
        1 => 1,
        _ => 0,
    };
    PagesLeft {
        cookie,
        page: cookie / PAGE_COOKIES,
        missing: enough.saturating_sub(dots),
    }
}

/// The next pages of the directory at a number, as many as the entries need that are wanted still, if each has as many
/// as it may; and what is left then.
pub fn pages_wish(
    draft: &Draft<'_>,
    directory: u64,
    left: PagesLeft,
) -> Option<(Vec<Wish>, PagesLeft)>
    requires { draft.now.writes ≡ [] }
    ensures { IfSome result (λ next. Asks draft.now.modes [] draft.now.view next.0.items) }
{
    let Ok(Some(inode)) = inode(draft, directory) else {
        return None;
    };
    let pages = &inode.directory()?.entries.pages;
    let left = gone_through(draft, directory, pages, left)?;
    match ask_pages(
        draft,
        directory,
        pages,
        left.page,
        left.missing / PAGE_COOKIES as usize + 1,
    ) {
        Err(Missing::Need(asked)) => Some((asked, left)),
        _ => None,
    }
}

/// What is left of these pages of a directory once those are gone through that the draft has; None where it has all, or
/// as many as are wanted.
fn gone_through(
    draft: &Draft<'_>,
    directory: u64,
    pages: &PageList,
    left: PagesLeft,
) -> Option<PagesLeft> {
    let mut missing = left.missing;
    let mut next = pages.next_from(left.page);
    'pages: while let Some(page) = next {
        if missing == 0 {
            return None;
        }
        let Ok(Some(entries)) = draft.page(directory, page) else {
            return Some(PagesLeft {
                cookie: left.cookie,
                page,
                missing,
            });
        };
        missing = missing.saturating_sub(count_behind(entries, left.cookie));
        next = pages.next_behind(page);
    }
    None
}

/// How many entries of a page are behind a cookie.
fn count_behind(page: &EntryPage, cookie: u64) -> usize {
    page.len().saturating_sub(page.place_behind(cookie))
}

/// The data, which the draft lacks, of a file at a number that goes with its last name: its map pages, and once the
/// draft has them the blocks that they tell of. That of a large file stays.
pub fn data_wish(draft: &Draft<'_>, number: u64) -> Option<Vec<Wish>>
    requires { draft.now.writes ≡ [] }
    ensures { IfSome result (λ asked. Asks draft.now.modes [] draft.now.view asked.items) }
{
    let Ok(Some(inode)) = inode(draft, number) else {
        return None;
    };
    let Content::Regular(map) = &inode.content else {
        return None;
    };
    if inode.links > 1 || is_large(&inode.content) {
        return None;
    }
    match ask_cut(draft, number, map.pages(), 0) {
        Err(Missing::Need(asked)) => Some(asked),
        _ => None,
    }
}
