//! The stamp of a commit: a number, and what is known of the log at it.

ghost use Rattle.std.specs.Prelude.{◌≡◌, IfSome, map, true};
ghost use Rattle.nfs_objects.specs.Values.{write_value};

use crate::log::{KnownLog, Log, Naming};
use nfs_objects::Write;
use std::marker::Model;

/// The number that a commit got. A clause sees it as what the commit writes, which the proofs alone keep.
#[derive(Drop)]
pub struct Stamp<J: Naming> {
    number: u64,
    known: KnownLog<J>,
}

impl<J: Naming> Model for Stamp<J> {
    ghost use Rattle.std.specs.Prelude.{[], IsSome, slice_get, unwrap_or};
    ghost use Rattle.nfs_stamps.specs.Marking.{Writes};

    ghost Value = { Writes };

    ghost view = { λ s. unwrap_or (slice_get s.known.seen.log s.number) [] };

    ghost invariant = { λ s. IsSome (slice_get s.known.seen.log s.number) };
}

impl<J: Naming> Stamp<J> {
    /// The stamp of a commit with these writes, which no other commit of this log has. None where others got theirs at
    /// the same time, again and again, or no number is left.
    pub fn new(log: &Log<J>, writes: &[Write]) -> Option<Stamp<J>>
        ensures { IfSome result (λ s. s ≡ map write_value writes.now) }
    {
        let (number, known) = log.number(writes)?;
        Some(Stamp { number, known })
    }

    /// A copy. It takes no memory.
    pub fn again(&self) -> Stamp<J>
        ensures { result ≡ self.now }
    {
        Stamp {
            number: self.number,
            known: self.known.again(),
        }
    }

    /// Whether both are of one commit. No says nothing.
    pub fn agrees(&self, other: &Stamp<J>) -> bool
        ensures { result ≡ true → self.now ≡ other.now }
    {
        self.known.agree(&other.known, self.number);
        self.number == other.number
    }
}
