//! The log of the writes of all commits that got a stamp. It exists in the proofs alone: threads share its length.

ghost use Rattle.std.specs.Prelude.{◌≡◌, ◌+◌, ◌<◌, ◌^◌, [], IfSome, Some, map, slice_get};
ghost use Rattle.nfs_objects.specs.Values.{write_value};
ghost use Rattle.nfs_stamps.specs.Marking.{Writes};
ghost use Rattle.nfs_stamps.specs.Rules.{head_of};

use logbook::{Gain, Offer, Plain, Play, Rule, Seen, Start, Word};
use nfs_objects::Write;
use std::marker::{Brand, Model, PhantomData};

/// How often a number is tried for, where others get theirs at the same time.
const TRIES: usize = 64;

/// At this number the log is full.
const END: u64 = 1 << 62;

/// What a commit writes, as an entry of the log. No value of it is ever made.
pub struct LogEntry {
    writes: Vec<Write>,
}

impl Model for LogEntry {
    ghost use Rattle.std.specs.Prelude.{map};
    ghost use Rattle.nfs_objects.specs.Values.{write_value};
    ghost use Rattle.nfs_stamps.specs.Marking.{Writes};

    ghost Value = { Writes };

    ghost view = { λ w. map write_value w.writes.items };
}

/// The rule of the log: its word is its length.
pub struct Law;

impl Rule<LogEntry, u64> for Law {
    ghost use Rattle.std.specs.Prelude.{[]};
    ghost use base.Fml.{ftrue};
    ghost use Rattle.nfs_stamps.specs.Rules.{IsKept};

    ghost holds = { λ cells log. IsKept cells log };

    ghost first = { [] };

    ghost hinted = { λ n log. Unit {0} };

    ghost shows = { λ log. [] };

    ghost keeps = { λ names log. ftrue };

    ghost moves = { λ ask before after answer. Unit {0} };
}

/// Callers trade nothing.
pub struct Nothing;

impl Gain<LogEntry, u64> for Nothing {
    ghost use base.Fml.{ftrue};

    ghost after = { λ names about answer. ftrue };
}

/// A step that looks.
pub struct Look;

impl Play<LogEntry, u64> for Look {
    ghost use Rattle.nfs_stamps.specs.Rules.{Looks};

    ghost then = { Looks };
}

/// A step that adds what a commit writes.
pub struct Add;

impl Play<LogEntry, u64> for Add {
    ghost use Rattle.nfs_stamps.specs.Rules.{Adds};

    ghost then = { Adds };
}

/// What a step asks for: the writes.
impl<'a> Plain<&'a [Write], LogEntry, u64> for Add {
    ghost use Rattle.std.specs.Prelude.{None, map};
    ghost use Rattle.nfs_objects.specs.Values.{write_value};

    ghost ask = { λ writes. map write_value writes.now };

    ghost state = { λ writes. None };
}

/// Which log it is. Each call of a program picks it.
pub trait Naming {
    ghost use Rattle.logbook.specs.Pages.{Book};

    ghost book: { Book };
}

impl Naming for Brand {
    ghost book = { record { number = 0; log_name = 0; cells_name = 0 } };
}

/// An empty log, which has no name yet.
#[derive(Drop)]
pub struct Opened {
    head: Word<LogEntry, u64, Law>,
    seen: Seen<LogEntry, u64, Law>,
    pub ghost head_is: { head ≡ head_of seen.book },
}

impl Opened {
    /// An empty log.
    pub fn new() -> Opened {
        let (seen, mut first, _second) = Seen::open(Start::alone(), 0, 0);
        Opened {
            head: Word::tracked(0, &mut first),
            seen,
        }
    }

    /// The log under a name.
    pub fn named<J: Naming>(self) -> Log<J>
        requires { self.seen.book ≡ J.book }
    {
        let Opened { head, seen } = self;
        Log {
            head,
            seen,
            of: PhantomData,
        }
    }
}

/// The log: one word, which all threads share.
#[derive(Drop)]
pub struct Log<J: Naming> {
    head: Word<LogEntry, u64, Law>,
    seen: Seen<LogEntry, u64, Law>,
    of: PhantomData<J>,
    ghost head_is: { head ≡ head_of J.book },
    ghost seen_is: { seen.book ≡ J.book },
}

/// What is known of a log: which commit got which number. It takes no bytes.
#[derive(Drop)]
pub struct KnownLog<J: Naming> {
    pub(crate) seen: Seen<LogEntry, u64, Law>,
    of: PhantomData<J>,
    pub ghost seen_is: { seen.book ≡ J.book },
}

impl<J: Naming> KnownLog<J> {
    /// A copy.
    pub(crate) fn again(&self) -> KnownLog<J>
        ensures { result.seen ≡ self.now.seen }
    {
        KnownLog {
            seen: self.seen.again(),
            of: PhantomData,
        }
    }

    /// What two know under one number is one.
    pub(crate) fn agree(&self, other: &KnownLog<J>, number: u64)
        ensures { (x y : Writes) → slice_get self.now.seen.log number ≡ Some x
            → slice_get other.now.seen.log number ≡ Some y → x ≡ y }
    {
        let mut both = self.seen.again();
        both.learn(&other.seen);
    }
}

impl<J: Naming> Log<J> {
    /// Gives a commit with these writes a number that no other commit of this log has. None where others got theirs at
    /// the same time, again and again, or none is left.
    pub(crate) fn number(&self, writes: &[Write]) -> Option<(u64, KnownLog<J>)>
        ensures { IfSome result (λ r. slice_get r.1.seen.log r.0 ≡ Some (map write_value writes.now)) }
    {
        for _ in 0..TRIES {
            if let Some(numbered) = self.try_number(writes) {
                return Some(numbered);
            }
        }
        None
    }

    /// The same in one try.
    fn try_number(&self, writes: &[Write]) -> Option<(u64, KnownLog<J>)>
        ensures { IfSome result (λ r. slice_get r.1.seen.log r.0 ≡ Some (map write_value writes.now)) }
    {
        let mut seen = self.seen.again();
        let mut look: Offer<LogEntry, u64, Law, Nothing> = seen.plain::<Nothing, &[Write], Add>(
            &writes,
        );
        let next = self.head.load::<Look, Nothing>(&mut seen, &mut look);
        if next >= END {
            return None;
        }
        let mut offer: Offer<LogEntry, u64, Law, Nothing> = seen.plain::<Nothing, &[Write], Add>(
            &writes,
        );
        let mut pen = seen.no_pen();
        let found = self
            .head
            .compare_exchange::<Add, Nothing>(next, next + 1, &mut seen, &mut offer, &mut pen);
        if found != next {
            return None;
        }
        let known = KnownLog {
            seen,
            of: PhantomData,
        };
        Some((next, known))
    }
}
