//! What callers do beside each other.

use super::callers::{Caller, OK};
use super::calls::Ask;
use super::ends::End;
use super::pools::{Course, Part, Runs, in_pool};
use nfs_pool::Naming;
use std::alloc::AllocError;
use std::sync::ledger::Ledger;

/// How often each caller writes its file.
const WRITES: u32 = 20;

/// How many callers make files in one directory.
const CALLERS: u32 = 4;

/// How many files each of them makes.
const FILES: u32 = 24;

/// Where the bytes of a READ are in its reply, in bytes from the mark of its fragment on.
const DATA: usize = 132;

/// A name for each file of each caller: four letters from `naaa` on.
fn name_of(caller: u32, file: u32) -> u32 {
    0x6e616161u32
        .wrapping_add(caller.wrapping_mul(0x100))
        .wrapping_add(file)
}

/// Makes a file, writes words to it one after the other, and reads each back.
#[derive(Drop)]
struct ReadsBack;

impl Part for ReadsBack {
    fn acts<L: Ledger + Naming, R: Runs>(&self, caller: &mut Caller<L, R>, number: u32) -> u64 {
        let first = number.wrapping_mul(1000);
        let mut good = u64::from(caller.makes(first, name_of(number, 0)));
        for count in 1..=WRITES {
            good = good.wrapping_add(reads_back(caller, first.wrapping_add(2 * count)));
        }
        good
    }
}

/// Writes a word and reads it back: two calls, where it is the same, under a later number.
fn reads_back<L: Ledger + Naming, R: Runs>(caller: &mut Caller<L, R>, xid: u32) -> u64 {
    if caller.call(xid, Ask::Write(xid)) != OK {
        return 0;
    }
    let written = caller.number();
    let told = caller.call(xid.wrapping_add(1), Ask::Read);
    if told == OK && caller.word(DATA) == Some(xid) && written < caller.number() {
        2
    } else {
        0
    }
}

/// Makes files in the root, all of which are there in the end.
#[derive(Drop)]
struct FillsRoot;

impl Part for FillsRoot {
    fn acts<L: Ledger + Naming, R: Runs>(&self, caller: &mut Caller<L, R>, number: u32) -> u64 {
        let mut good: u64 = 0;
        for file in 0..FILES {
            let name = name_of(number, file);
            good = good.wrapping_add(u64::from(caller.call(name, Ask::Create(name)) == OK));
        }
        good
    }

    fn looks<L: Ledger + Naming, R: Runs>(&self, caller: &mut Caller<L, R>) -> u64 {
        let mut good: u64 = 0;
        for number in 0..CALLERS {
            for file in 0..FILES {
                let name = name_of(number, file);
                good = good.wrapping_add(u64::from(caller.call(name, Ask::Lookup(name)) == OK));
            }
        }
        good
    }
}

/// Three callers, each with a file of its own, read back what they wrote while the others write.
#[test]
fn each_reads_back_what_it_wrote(rt: HostRuntime) -> Result<(), AllocError> {
    let course = Course {
        seats: 3,
        era_records: 65_536,
        calls: 123,
        end: End::Finished,
    };
    in_pool(&rt, course, &ReadsBack)
}

/// Four callers make 24 files each in one directory, and each of the 96 is found.
#[test]
fn all_change_one_directory(rt: HostRuntime) -> Result<(), AllocError> {
    let course = Course {
        seats: CALLERS,
        era_records: 65_536,
        calls: 192,
        end: End::Finished,
    };
    in_pool(&rt, course, &FillsRoot)
}
