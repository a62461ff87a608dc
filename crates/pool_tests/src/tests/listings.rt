//! A directory of 10,000 names: they are made, listed in pages while others come and go, renamed, looked up, and
//! removed (RFC 1813, 3.3.16 and 3.3.17).

use super::callers::{Caller, MADE, OK, Told};
use super::calls::{Ask, Cursor, Handle, ROOT};
use super::ends::End;
use super::pages::{Entry, Listing, Words};
use super::pools::{Course, Part, Runs, in_pool};
use super::rows::{FOUND, NOENT};
use nfs_pool::Naming;
use std::alloc::{AllocError, Global};
use std::process::Abort;
use std::sync::ledger::Ledger;

/// The number of the first name that is made: 0 and 1 are `.` and `..`.
const FIRST: u32 = 2;

/// The number of the last of 10,000.
const LAST: u32 = 10_001;

/// The number of the first name that comes between two pages.
const COMING: u32 = 10_100;

/// The number of the first new name that is given between two pages.
const GIVEN: u32 = 10_300;

/// How far a new name that is given between two listings is from the old one.
const FAR: u32 = 20_000;

/// How many numbers there are.
const NUMBERS: u32 = 30_100;

/// The name of the directory in the root.
const DIRECTORY: u32 = 0x77696465;

/// How many calls there are: 10,001 that make the directory and its names; 35 and 49 pages, with three changes behind
/// each but the last; 5,836 changes, 10,000 times LOOKUP, 22 and 30 pages, 6,082 removals, two pages, and RMDIR.
const CALLS: u64 = 32_304;

/// Where the verifier is in the reply to a listing, in bytes from the mark of its fragment on.
const VERIFIER: usize = 120;

/// Where a listing begins.
const BEGINNING: Cursor = Cursor {
    cookie: 0,
    verifier: 0,
};

/// Four letters from `@` to `O`, one for each digit to the base 16.
fn letters(number: u32) -> u32 {
    let first = (number & 0xf000) << 12 | (number & 0xf00) << 8;
    0x40404040 | first | (number & 0xf0) << 4 | number & 0xf
}

/// The number of what may be four such letters.
fn digits(letters: u32) -> u32 {
    let first = letters >> 12 & 0xf000 | letters >> 8 & 0xf00;
    first | letters >> 4 & 0xf0 | letters & 0xf
}

/// The length of a name, and its bytes with zeros behind them.
fn name_of(number: u32) -> (u32, u32) {
    match number {
        0 => (1, 0x2e000000),
        1 => (2, 0x2e2e0000),
        _ => (4, letters(number)),
    }
}

/// The number of what may be a name, with its length.
fn number_of(name: (u32, u32)) -> u32 {
    match name {
        (1, _) => 0,
        (2, _) => 1,
        (_, bytes) => digits(bytes),
    }
}

/// What a page leads to.
#[derive(Clone, Copy)]
struct Page {
    next: Cursor,
    is_last: bool,
}

/// What is known of a name.
#[derive(Clone, Copy)]
struct Name {
    /// What it leads to, where it is there.
    handle: Option<Handle>,
    /// It came while the listing went on.
    came: bool,
    /// The listing showed it.
    shown: bool,
}

const ABSENT: Name = Name {
    handle: None,
    came: false,
    shown: false,
};

/// A directory that one caller fills.
#[derive(Drop)]
struct Filled {
    /// By their numbers.
    names: Vec<Name>,
    /// How many calls were made.
    calls: u32,
    /// How often names came and went between two pages.
    turns: u32,
}

impl Filled {
    /// No name is there. It is tried twice.
    fn new(alloc: Global) -> Option<Filled> {
        let names = match Vec::from_elem(alloc, ABSENT, NUMBERS as usize) {
            Ok(names) => names,
            Err(AllocError) => Vec::from_elem(alloc, ABSENT, NUMBERS as usize).ok()?,
        };
        Some(Filled {
            names,
            calls: 0,
            turns: 0,
        })
    }

    fn name(&mut self, number: u32) -> Option<&mut Name> {
        self.names.get_mut(number as usize)
    }

    /// What the name of this number leads to, where it is there.
    fn handle(&self, number: u32) -> Option<Handle> {
        self.names.get(number as usize)?.handle
    }

    /// What is told of a call.
    fn told<L: Ledger + Naming, R: Runs>(&mut self, caller: &mut Caller<L, R>, ask: Ask) -> Told {
        self.calls = self.calls.wrapping_add(1);
        caller.call(self.calls, ask)
    }

    /// A call succeeds.
    fn call<L: Ledger + Naming, R: Runs>(
        &mut self,
        caller: &mut Caller<L, R>,
        ask: Ask,
    ) -> Option<()> {
        (self.told(caller, ask) == OK).then_some(())
    }

    /// A name leads to this from now on.
    fn leads(&mut self, number: u32, handle: Handle) -> Option<()> {
        let name = self.name(number)?;
        name.handle = Some(handle);
        name.came = true;
        Some(())
    }

    /// A name leads nowhere from now on. What it led to.
    fn loses(&mut self, number: u32) -> Option<Handle> {
        let name = self.name(number)?;
        let handle = name.handle;
        name.handle = None;
        handle
    }

    /// A file is made.
    fn comes<L: Ledger + Naming, R: Runs>(
        &mut self,
        caller: &mut Caller<L, R>,
        number: u32,
    ) -> Option<()> {
        self.call(caller, Ask::Create(letters(number)))?;
        self.leads(number, caller.handle(MADE)?)
    }

    /// A file is removed.
    fn goes<L: Ledger + Naming, R: Runs>(
        &mut self,
        caller: &mut Caller<L, R>,
        number: u32,
    ) -> Option<()> {
        self.call(caller, Ask::Remove(letters(number)))?;
        self.loses(number)?;
        Some(())
    }

    /// A file gets another name, which may be that of a file that goes then.
    fn moves<L: Ledger + Naming, R: Runs>(
        &mut self,
        caller: &mut Caller<L, R>,
        from: u32,
        to: u32,
    ) -> Option<()> {
        self.call(caller, Ask::Rename(letters(from), letters(to)))?;
        let handle = self.loses(from)?;
        self.leads(to, handle)
    }

    /// Between two pages a name comes, one goes of those that came first, and one changes of those that came last.
    fn takes_turn<L: Ledger + Naming, R: Runs>(&mut self, caller: &mut Caller<L, R>) -> Option<()> {
        let turn = self.turns;
        self.turns = turn.checked_add(1)?;
        let far = turn.checked_mul(50)?;
        self.comes(caller, COMING.checked_add(turn)?)?;
        self.goes(caller, FIRST.checked_add(far)?)?;
        self.moves(caller, LAST.checked_sub(far)?, GIVEN.checked_add(turn)?)
    }

    /// What is known before a listing.
    fn begins(&mut self) {
        for name in &mut self.names {
            name.came = false;
            name.shown = false;
        }
    }

    /// Whether each name that was there all the while was shown.
    fn is_listed(&self) -> bool {
        self.names
            .iter()
            .all(|name| name.shown || name.came || name.handle.is_none())
    }

    /// An entry is shown behind this cookie: of a name that is there and was not shown before.
    fn takes(&mut self, entry: &Entry, behind: u64) -> Option<()> {
        let number = number_of(entry.name);
        let is_named = entry.name == name_of(number) && entry.cookie > behind;
        let name = self.name(number)?;
        let handle = name.handle?;
        let is_first = !name.shown;
        name.shown = true;
        (is_named && is_first && entry.shows(&handle)).then_some(())
    }

    /// A page from there on.
    fn takes_page<L: Ledger + Naming, R: Runs>(
        &mut self,
        caller: &mut Caller<L, R>,
        listing: Listing,
        cursor: Cursor,
    ) -> Option<Page> {
        self.call(caller, listing.ask(cursor))?;
        let mut words = Words {
            rest: caller.answer()?.get(VERIFIER..)?,
        };
        let verifier = words.long()?;
        let mut cookie = cursor.cookie;
        for _ in 0..u64::MAX {
            if words.word()? != 1 {
                break;
            }
            let entry = words.entry(listing)?;
            self.takes(&entry, cookie)?;
            cookie = entry.cookie;
        }
        let is_last = words.word()? == 1;
        let is_page = words.rest.is_empty() && (is_last || cookie > cursor.cookie);
        let next = Cursor { cookie, verifier };
        is_page.then_some(Page { next, is_last })
    }

    /// A whole listing, between whose pages others come and go where it is told so.
    fn lists<L: Ledger + Naming, R: Runs>(
        &mut self,
        caller: &mut Caller<L, R>,
        listing: Listing,
        is_turning: bool,
    ) -> Option<()> {
        self.begins();
        let mut page = self.takes_page(caller, listing, BEGINNING)?;
        for _ in 0..u64::MAX {
            if page.is_last {
                break;
            }
            if is_turning {
                self.takes_turn(caller)?;
            }
            page = self.takes_page(caller, listing, page.next)?;
        }
        self.is_listed().then_some(())
    }

    /// The directory is made with all its names.
    fn fills<L: Ledger + Naming, R: Runs>(&mut self, caller: &mut Caller<L, R>) -> Option<()> {
        self.call(caller, Ask::Mkdir(DIRECTORY))?;
        caller.directory = caller.handle(MADE)?;
        self.leads(0, caller.directory)?;
        self.leads(1, ROOT)?;
        for number in FIRST..=LAST {
            self.comes(caller, number)?;
        }
        Some(())
    }

    /// Of the names that are left every fifth goes, and two of five change, one of them to a name that is there.
    fn thins<L: Ledger + Naming, R: Runs>(&mut self, caller: &mut Caller<L, R>) -> Option<()> {
        for number in FIRST..=LAST {
            if self.handle(number).is_some() {
                match number % 5 {
                    0 => self.goes(caller, number)?,
                    1 => self.moves(caller, number, number + FAR)?,
                    2 => self.moves(caller, number, number + 1)?,
                    _ => (),
                }
            }
        }
        Some(())
    }

    /// Of the names that came first each is found that is there, and no other.
    fn finds<L: Ledger + Naming, R: Runs>(&mut self, caller: &mut Caller<L, R>) -> Option<()> {
        for number in FIRST..=LAST {
            let told = self.told(caller, Ask::Lookup(letters(number)));
            let is_so = match self.handle(number) {
                Some(handle) => told == OK && caller.handle(FOUND) == Some(handle),
                None => told == NOENT,
            };
            if !is_so {
                return None;
            }
        }
        Some(())
    }

    /// All names go, and then the directory.
    fn empties<L: Ledger + Naming, R: Runs>(&mut self, caller: &mut Caller<L, R>) -> Option<()> {
        for number in FIRST..NUMBERS {
            if self.handle(number).is_some() {
                self.goes(caller, number)?;
            }
        }
        self.lists(caller, Listing::Readdir, false)?;
        self.lists(caller, Listing::Readdirplus, false)?;
        caller.directory = ROOT;
        self.call(caller, Ask::Rmdir(DIRECTORY))
    }

    /// All of it.
    fn goes_well<L: Ledger + Naming, R: Runs>(&mut self, caller: &mut Caller<L, R>) -> Option<()> {
        self.fills(caller)?;
        self.lists(caller, Listing::Readdir, true)?;
        self.lists(caller, Listing::Readdirplus, true)?;
        self.thins(caller)?;
        self.finds(caller)?;
        self.lists(caller, Listing::Readdir, false)?;
        self.lists(caller, Listing::Readdirplus, false)?;
        self.empties(caller)
    }
}

/// One caller fills a directory, and empties it.
#[derive(Drop)]
struct FillsDirectory;

impl Part for FillsDirectory {
    fn acts<L: Ledger + Naming, R: Runs>(&self, caller: &mut Caller<L, R>, _number: u32) -> u64 {
        let Some(mut filled) = Filled::new(caller.rt.alloc()) else {
            return 0;
        };
        let is_well = filled.goes_well(caller).is_some();
        let calls = filled.calls;
        drop(filled);
        assert!(caller.rt; is_well, "call {calls} did not go as it has to");
        u64::from(calls)
    }
}

#[test]
fn ten_thousand_names_come_and_go(rt: HostRuntime) -> Result<(), AllocError> {
    let course = Course {
        seats: 1,
        era_records: 65_536,
        calls: CALLS,
        end: End::Finished,
    };
    in_pool(&rt, course, &FillsDirectory)
}
