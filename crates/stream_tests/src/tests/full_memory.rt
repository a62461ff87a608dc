//! A memory that is full can be emptied. The test takes the address space itself, but for what it leaves to the server,
//! by vectors that it never writes to: of these the machine has nothing to hold. From then on growths are refused as on
//! a machine whose memory is full.

mod by_stream;

use super::*;
use std::io;
use std::rt::Clock;
use std::time::Duration;

/// How many bytes are left to the server, so that what is refused first is the growth of a large table, while for what
/// a call needs besides there is memory.
const LEFT_BELOW_A_TABLE: usize = 33 << 19;

/// The least that is left to it so that names take it to the brim, how far apart such fills are, and how many are
/// tried: how memory lies then tells whether there is some for a smaller call.
const LEFT_TO_THE_BRIM: usize = 24 << 20;

const BETWEEN_BRIMS: usize = 1 << 20;

const BRIMS: usize = 3;

/// The least that is left to it where it is filled in steps, and how far apart these are, so that in some of them a
/// table is just full: an address that is asked for and at which nothing stands would make it grow.
const LEAST_LEFT: usize = 15 << 19;

const STEP: usize = 1 << 17;

const STEPS: usize = 6;

/// How many bytes the largest vectors have that are tried. The system refuses those above the machine's memory.
const LARGEST: usize = 1 << 40;

/// How often they are halved: down to 16 bytes.
const HALVES: u32 = 36;

/// How many vectors are taken at most.
const MOST_TAKEN: usize = 1 << 17;

/// How many seconds taking may last: some tenths of one do.
const PATIENCE: u64 = 10;

/// How many names are made, at most, where memory is there.
const FEW: u32 = 200;

/// No server makes as many names in what is left.
const MOST: u32 = 100_000;

/// Where the status of NFS stands in an answer, in bytes: behind the mark and six words (RFC 5531, section 9).
const STATUS: usize = 28;

/// NFS3_OK and NFS3ERR_JUKEBOX (RFC 1813, 2.6).
const OK: u32 = 0;

const JUKEBOX: u32 = 10008;

/// DENIED_NOLOCKS (RFC 1813, 6.1.4).
const NO_LOCKS: u32 = 2;

/// CREATE GUARDED of `~~~~` in the root, with no attributes given: the first new object, which stays.
const FIRST: [u32; 29] = [
    0x80000070, 1, 0, 2, 100003, 3, 8, 0, 0, 0, 0, 32, 0x4e464433, 1, 0, 7, 0, 1, 0, 1, 4,
    0x7e7e7e7e, 1, 0, 0, 0, 0, 0, 0,
];

/// A call that may add something.
#[derive(Clone, Copy)]
struct Adding {
    words: &'static [u32],
    /// Where its status stands in the answer, in bytes.
    place: usize,
    /// The status by which it is refused for want of memory.
    refusal: u32,
}

/// WRITE of a word into the first new object; LINK of it under `~~~b`; SYMLINK at `~~~c` with `a` for its text; MKNOD
/// of a FIFO at `~~~d`; RENAME of the object to `~~~e`; and LOCK of its first byte, alone and at once, in whose answer
/// the status stands behind a cookie of no bytes (RFC 1813, 3.3 and 6.3.2).
const ADDING: [Adding; 6] = [
    Adding {
        words: &[
            0x80000064, 2, 0, 2, 100003, 3, 7, 0, 0, 0, 0, 32, 0x4e464433, 1, 0, 7, 0, 17, 0, 2, 0,
            0, 4, 2, 4, 1,
        ],
        place: STATUS,
        refusal: JUKEBOX,
    },
    Adding {
        words: &[
            0x80000078, 4, 0, 2, 100003, 3, 15, 0, 0, 0, 0, 32, 0x4e464433, 1, 0, 7, 0, 17, 0, 2,
            32, 0x4e464433, 1, 0, 7, 0, 1, 0, 1, 4, 0x7e7e7e62,
        ],
        place: STATUS,
        refusal: JUKEBOX,
    },
    Adding {
        words: &[
            0x80000074, 5, 0, 2, 100003, 3, 10, 0, 0, 0, 0, 32, 0x4e464433, 1, 0, 7, 0, 1, 0, 1, 4,
            0x7e7e7e63, 0, 0, 0, 0, 0, 0, 1, 0x61000000,
        ],
        place: STATUS,
        refusal: JUKEBOX,
    },
    Adding {
        words: &[
            0x80000070, 6, 0, 2, 100003, 3, 11, 0, 0, 0, 0, 32, 0x4e464433, 1, 0, 7, 0, 1, 0, 1, 4,
            0x7e7e7e64, 7, 0, 0, 0, 0, 0, 0,
        ],
        place: STATUS,
        refusal: JUKEBOX,
    },
    Adding {
        words: &[
            0x80000080, 7, 0, 2, 100003, 3, 14, 0, 0, 0, 0, 32, 0x4e464433, 1, 0, 7, 0, 1, 0, 1, 4,
            0x7e7e7e7e, 32, 0x4e464433, 1, 0, 7, 0, 1, 0, 1, 4, 0x7e7e7e65,
        ],
        place: STATUS,
        refusal: JUKEBOX,
    },
    Adding {
        words: &[
            0x80000084, 8, 0, 2, 100021, 4, 2, 0, 0, 0, 0, 0, 0, 1, 1, 0x63000000, 32, 0x4e464433,
            1, 0, 7, 0, 17, 0, 2, 1, 0x01000000, 1, 0, 0, 0, 1, 0, 0,
        ],
        place: STATUS + 4,
        refusal: NO_LOCKS,
    },
];

/// What is done at present with names in the root.
#[derive(Clone, Copy, PartialEq, Eq)]
enum Stage {
    /// The first object is made.
    First,
    /// Names are made, until that is refused for want of memory.
    Making,
    /// Calls that may add something are sent.
    Adding,
    /// Each name is removed.
    Removing,
    /// As many are made again.
    MakingAgain,
    Over,
}

/// How far names are.
#[derive(Clone, Copy)]
struct Progress {
    stage: Stage,
    /// How many are made at most.
    most: u32,
    calls: u32,
    made: u32,
    added: u32,
    /// How many of the calls that may add something were refused.
    refused: u32,
    removed: u32,
    made_again: u32,
}

impl Progress {
    fn new(most: u32) -> Progress {
        Progress {
            stage: Stage::First,
            most,
            calls: 0,
            made: 0,
            added: 0,
            refused: 0,
            removed: 0,
            made_again: 0,
        }
    }

    /// The number of the name that is next, or of the call.
    fn number(&self) -> u32 {
        match self.stage {
            Stage::First => 0,
            Stage::Making => self.made,
            Stage::Adding => self.added,
            Stage::Removing => self.removed,
            Stage::MakingAgain | Stage::Over => self.made_again,
        }
    }

    /// Behind the call that was next, which was answered so.
    fn answered(self, answer: &[u8]) -> Progress {
        let (place, refusal) = match self.adding() {
            Some(call) => (call.place, call.refusal),
            None => (STATUS, JUKEBOX),
        };
        match status(answer, place) {
            Some(OK) => self.done(),
            Some(word) if word == refusal => self.refused(),
            _ => self.at(Stage::Over),
        }
    }

    /// The call that may add something, where that is next.
    fn adding(&self) -> Option<Adding> {
        match self.stage {
            Stage::Adding => ADDING.get(self.added as usize).copied(),
            _ => None,
        }
    }

    /// The call that was next was refused for want of memory.
    fn refused(self) -> Progress {
        let mut next = self;
        match self.stage {
            Stage::Making => self.at(Stage::Adding),
            Stage::Adding => {
                next.refused = self.refused.saturating_add(1);
                next.done()
            }
            _ => self.at(Stage::Over),
        }
    }

    /// The call that was next is done.
    fn done(self) -> Progress {
        let mut next = self;
        next.calls = self.calls.saturating_add(1);
        let number = self.number().saturating_add(1);
        match self.stage {
            Stage::First => return self.at(Stage::Making),
            Stage::Making => next.made = number,
            Stage::Adding => next.added = number,
            Stage::Removing => next.removed = number,
            Stage::MakingAgain | Stage::Over => next.made_again = number,
        }
        next.followed()
    }

    /// The next stage where all names of this one are done.
    fn followed(self) -> Progress {
        match self.stage {
            Stage::Making if self.made == self.most => self.at(Stage::Adding),
            Stage::Adding if self.adding().is_none() => self.at(Stage::Removing),
            Stage::Removing if self.removed == self.made => self.at(Stage::MakingAgain),
            Stage::MakingAgain if self.made_again == self.made => self.at(Stage::Over),
            _ => self,
        }
    }

    fn at(self, stage: Stage) -> Progress {
        let mut next = self;
        next.calls = self.calls.saturating_add(1);
        next.stage = stage;
        next
    }
}

/// The name with this number: four letters.
fn name(number: u32) -> u32 {
    let mut letters = [b'a'; 4];
    let mut rest = number;
    for letter in &mut letters {
        *letter = b'a' + (rest % 26) as u8;
        rest /= 26;
    }
    u32::from_be_bytes(letters)
}

/// Adds words.
fn add(bytes: &mut Vec<u8>, words: &[u32]) -> io::Result<()> {
    for word in words {
        bytes.extend_from_slice(&word.to_be_bytes())?;
    }
    Ok(())
}

/// Adds a call of a procedure on the name with this number in the root, and what stands behind that.
fn add_call(
    call: &mut Vec<u8>,
    procedure: u32,
    progress: &Progress,
    mark: u32,
    behind: &[u32],
) -> io::Result<()> {
    let front = [mark, progress.calls, 0, 2, 100003, 3, procedure, 0, 0, 0, 0];
    add(call, &front)?;
    add(call, &[32, 0x4e464433, 1, 0, 7, 0, 1, 0, 1])?;
    add(call, &[4, name(progress.number())])?;
    add(call, behind)
}

/// Adds the next call, if there is one: every other name is a directory's. CREATE is GUARDED, and it and MKDIR give no
/// attributes (RFC 1813, 3.3.8, 3.3.9, 3.3.12 and 3.3.13).
fn add_next(call: &mut Vec<u8>, progress: &Progress) -> io::Result<()> {
    let is_directory = progress.number() % 2 == 1;
    match progress.stage {
        Stage::First => add(call, &FIRST),
        Stage::Adding => match progress.adding() {
            Some(adding) => add(call, adding.words),
            None => Ok(()),
        },
        Stage::Over => Ok(()),
        Stage::Removing if is_directory => add_call(call, 13, progress, 0x80000054, &[]),
        Stage::Removing => add_call(call, 12, progress, 0x80000054, &[]),
        _ if is_directory => add_call(call, 9, progress, 0x8000006c, &[0; 6]),
        _ => add_call(call, 8, progress, 0x80000070, &[1, 0, 0, 0, 0, 0, 0]),
    }
}

/// The status at this place of an answer, where the call was accepted.
fn status(answer: &[u8], place: usize) -> Option<u32> {
    match answer.get(place..)? {
        [a, b, c, d, ..] => Some(u32::from_be_bytes([*a, *b, *c, *d])),
        _ => None,
    }
}

/// Takes vectors of this size until one is refused, or no time is left.
fn take_of(
    clock: &impl Clock,
    alloc: Global,
    taken: &mut Vec<Vec<u8>>,
    size: usize,
    until: Duration,
) {
    for _ in 0..MOST_TAKEN {
        let Ok(vector) = Vec::with_capacity(alloc, size) else {
            return;
        };
        drop(taken.push(vector));
        if !is_before(clock, until) {
            return;
        }
    }
}

/// Takes all memory, as no vector of 16 bytes is left. False where that lasts too long.
fn take_all(clock: &impl Clock, alloc: Global, taken: &mut Vec<Vec<u8>>) -> bool {
    let Ok(now) = clock.monotonic() else {
        return false;
    };
    let until = now.saturating_add(Duration::from_secs(PATIENCE));
    for halves in 0..HALVES + 1 {
        take_of(clock, alloc, taken, LARGEST >> halves, until);
    }
    is_before(clock, until)
}

/// Whether it is not that late yet.
fn is_before(clock: &impl Clock, until: Duration) -> bool {
    match clock.monotonic() {
        Ok(now) => now < until,
        Err(_) => false,
    }
}

/// Names were made, removed and made again, and before they went other calls were answered: first a few of the names
/// where memory was there, so that the stack was as deep as it gets before the address space was taken; then where it
/// was full. Each name was removed, and so many tenths came again.
fn is_emptied(rt: &impl Abort, few: Progress, full: Progress, tenths: u32) -> Result<(), Fail> {
    assert_eq!(rt; (few.made, few.removed, few.made_again), (FEW, FEW, FEW));
    assert_eq!(rt; (few.added as usize, few.refused), (ADDING.len(), 0));
    assert!(rt;
        1000 < full.made && full.made < MOST,
        "no memory was full: {} names",
        full.made
    );
    assert_eq!(rt; full.added as usize, ADDING.len());
    assert!(rt;
        full.removed == full.made,
        "{} of {} removed",
        full.removed,
        full.made
    );
    assert!(rt;
        full.made_again >= (full.made / 10).saturating_mul(tenths),
        "{} made again",
        full.made_again
    );
    Ok(())
}
