//! Pages of directories, for READDIR and READDIRPLUS (RFC 1813, 3.3.16 and 3.3.17).

ghost use Rattle.std.specs.Prelude.{◌≡◌, ◌+◌, ◌<◌, ◌≤◌, ◌^◌, [], List, false, length, map};
ghost use Rattle.std.specs.Prelude.{true, IfOk, MatchResult};
ghost use Rattle.nfs_machine.specs.State.{Entry};
ghost use Rattle.nfs_machine.specs.Pages.{Pages, entry_size};
ghost use Rattle.nfs_objects.specs.Knows.{Knows};
ghost use Rattle.nfs_inodes.specs.Gathers.{EachLives};
ghost use Rattle.nfs_inodes.specs.Known.{IsKnown};
ghost use Rattle.nfs_inodes.specs.Listing.{listed_entry};
ghost use Rattle.nfs_names.specs.Checking.{ComesTo};
ghost use Rattle.nfs_names.specs.Pages.{KnowsPage, fit_of, front_page, list_checked, page_cut, page_found};
ghost use Rattle.nfs_names.specs.Pages.{result_size, sizes_fit};
ghost use Rattle.nfs_inodes.specs.Stops.{StopsAt};

use nfs_inodes::{
    EntriesLeft, Known, KnownDirectory, ListedEntry, Right, TRANSFER_LIMIT, directory,
    entries_left, permitted, verifier,
};
use nfs_machine::Ctx;
use nfs_objects::{Draft, Missing};
use nfs_wire::{NfsStatus, Verifier};
use std::alloc::{AllocError, Global};

/// The bytes of a result without its status (4) and its entries: the directory's attributes (88), the verifier (8), the
/// end of the list (4) and eof (4).
const EMPTY_PAGE: u64 = 104;

/// The bytes that READDIRPLUS adds to an entry: its attributes (88) and its handle (40).
const ATTRIBUTES_AND_HANDLE: u64 = 128;

/// The bytes of an entry's number (8), the length of its name (4), its cookie (8) and what it follows (4).
const LEAST_ENTRY: usize = 24;

/// How many bytes of a result its caller takes. A result is counted without its status.
#[derive(Clone, Copy)]
pub enum Budget {
    /// READDIR: the most of the result.
    Names(u32),
    /// READDIRPLUS: the most of numbers, names and cookies, and the most of the result.
    Full(u32, u32),
}

/// What a call that lists a directory asks for.
#[derive(Clone, Copy)]
pub struct PageAsked {
    /// The page begins behind it.
    pub cookie: u64,
    pub verifier: Verifier,
    pub budget: Budget,
}

/// The bytes of a result, and those of the numbers, names and cookies in it.
#[derive(Clone, Copy)]
pub struct Sizes {
    pub whole: u64,
    pub names: u64,
}

/// A page: the first entries of those that are left.
#[derive(Drop)]
pub struct Front<'d> {
    pub entries: Vec<ListedEntry<'d>>,
    /// Whether these are all.
    pub eof: bool,
}

/// The page that a call asks for in a directory, or why there is none.
pub(crate) fn page_in<'d>(
    draft: &'d Draft<'_>,
    known: &Known,
    asked: &PageAsked,
) -> Result<Result<Front<'d>, NfsStatus>, Missing>
    requires none { draft.now.writes ≡ [] }
    requires known { Knows draft.now (λ k. IsKnown k.state known.now) }
    ensures page { MatchResult result
        (λ found. KnowsPage draft.now known.now asked.now (page_found found))
        (StopsAt draft.now []) }
    ensures lives { IfOk result (λ found. IfOk found (λ front. EachLives draft.now.view (front_page front).entries)) }
{
    let directory = match listable(draft.ctx(), known, asked) {
        Ok(directory) => directory,
        Err(status) => return Ok(Err(status)),
    };
    // Where others are left behind these, they do not all fit.
    let left = entries_left(draft, &directory, asked.cookie, asked.budget.too_many())?;
    Ok(longest_page(draft.alloc(), left.entries, asked.budget)?)
}

/// The checks of READDIR and READDIRPLUS: where they pass, the rest decides.
pub(crate) fn listable(
    ctx: &Ctx,
    known: &Known,
    asked: &PageAsked,
) -> Result<KnownDirectory, NfsStatus>
    ensures known { IfOk result (λ directory. directory.known ≡ known.now) }
    ensures checks { ComesTo (list_checked ctx.now asked.now) known.now result }
{
    let directory = directory(known)?;
    permitted(ctx, known, Right::ToList)?;
    if asked.cookie == 0 || asked.verifier.bytes == verifier(ctx).bytes {
        Ok(directory)
    } else {
        Err(NfsStatus::BadCookie)
    }
}

/// As many of the entries as fit; `TooSmall` where not even an empty page fits, or not the first entry.
///
/// # Errors
///
/// `AllocError` where the memory for the list was refused.
fn longest_page<'d>(
    alloc: Global,
    mut left: EntriesLeft<'d>,
    budget: Budget,
) -> Result<Result<Front<'d>, NfsStatus>, AllocError>
    ensures { IfOk result (λ found. Pages (fit_of budget) left.entry (page_found found)) }
{
    let mut sizes = Sizes {
        whole: EMPTY_PAGE,
        names: 0,
    };
    if !budget.allows(&sizes) {
        return Ok(Err(NfsStatus::TooSmall));
    }
    let mut entries = Vec::new(alloc);
    while let Some(entry) = left.next() {
        sizes = budget.with_entry(&sizes, &entry);
        if !budget.allows(&sizes) {
            return Ok(cut(entries));
        }
        entries.push(entry)?;
    }
    Ok(Ok(Front { entries, eof: true }))
}

/// The page of these entries, which ends in front of the one that did not fit.
fn cut(entries: Vec<ListedEntry<'_>>) -> Result<Front<'_>, NfsStatus>
    ensures { page_found result ≡ page_cut (map listed_entry entries.entry.items) }
{
    if entries.is_empty() {
        return Err(NfsStatus::TooSmall);
    }
    Ok(Front {
        entries,
        eof: false,
    })
}

impl Budget {
    /// So many entries never fit.
    pub(crate) fn too_many(&self) -> usize
        ensures { (entries : List Entry) → result ≤ length entries → fit_of self.now entries ≡ false }
    {
        match *self {
            Budget::Names(count) => count.min(TRANSFER_LIMIT) as usize / LEAST_ENTRY + 1,
            Budget::Full(_, most) => {
                most.min(TRANSFER_LIMIT) as usize / (LEAST_ENTRY + ATTRIBUTES_AND_HANDLE as usize)
                    + 1
            }
        }
    }

    /// Whether a result of these sizes fits.
    fn allows(&self, sizes: &Sizes) -> bool
        ensures { result ≡ sizes_fit self.now sizes.now }
    {
        match *self {
            Budget::Names(count) => sizes.whole <= u64::from(count.min(TRANSFER_LIMIT)),
            Budget::Full(directory_count, most) => {
                sizes.whole <= u64::from(most.min(TRANSFER_LIMIT))
                    && sizes.names <= u64::from(directory_count)
            }
        }
    }

    /// The sizes with one entry more.
    fn with_entry(&self, sizes: &Sizes, entry: &ListedEntry<'_>) -> Sizes
        requires fit { sizes_fit self.now sizes.now ≡ true }
        requires names { sizes.now.names ≤ sizes.now.whole }
        ensures whole { result.whole ≡ sizes.now.whole + result_size self.now (listed_entry entry.now) }
        ensures names { result.names ≡ sizes.now.names + entry_size (listed_entry entry.now) }
    {
        let size = entry_size(entry);
        let besides = match *self {
            Budget::Names(_) => 0,
            Budget::Full(_, _) => ATTRIBUTES_AND_HANDLE,
        };
        Sizes {
            whole: sizes.whole + size + besides,
            names: sizes.names + size,
        }
    }
}

/// The bytes of an entry's number, name and cookie.
fn entry_size(entry: &ListedEntry<'_>) -> u64
    ensures size { result ≡ entry_size (listed_entry entry.now) }
    ensures small { result < 2 ^ 63 + 32 }
{
    24 + (entry.name_len() as u64 + 3) / 4 * 4
}
