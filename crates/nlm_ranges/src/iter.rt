//! The locks of a table, one after the other.

ghost use Rattle.std.specs.Prelude.{◌≡◌, ◌++◌};
ghost use Rattle.std.specs.Cmp.Lexicographic.{pointwise};
ghost use Rattle.nlm_ranges.specs.Cutting.{joined};
ghost use Rattle.nlm_ranges.specs.Same.{same_lock};

use crate::held::HeldLock;
use crate::piece::LockPiece;
use std::marker::Model;

/// The locks of a table that are left, one after the other.
#[derive(Drop)]
pub struct Locks<'a> {
    front: &'a [HeldLock],
    pieces: &'a [LockPiece],
    behind: &'a [LockPiece],
}

impl<'a> Model for Locks<'a> {
    ghost use Rattle.std.specs.Prelude.{List, ◌++◌};
    ghost use Rattle.nfs_machine.specs.State.{Lock};
    ghost use Rattle.nlm_ranges.specs.Cutting.{joined};

    ghost Value = { List Lock };

    ghost view = { λ l. l.front.now ++ (joined l.pieces.now ++ joined l.behind.now) };
}

impl<'a> Locks<'a> {
    /// The locks of these pieces, and then of those.
    pub(crate) fn of(pieces: &'a [LockPiece], behind: &'a [LockPiece]) -> Locks<'a>
        ensures { result ≡ joined pieces.now ++ joined behind.now }
    {
        Locks {
            front: &[],
            pieces,
            behind,
        }
    }
}

impl<'a> Iterator for Locks<'a> {
    ghost use Rattle.std.specs.Iterator.{YieldsFirstRef, item_count};

    type Item = &'a HeldLock;

    ghost next_gives = { YieldsFirstRef (λ locks. locks) };

    ghost remaining = { item_count (λ locks. locks) };

    fn next(&mut self) -> Option<&'a HeldLock> {
        'pieces: loop {
            if let Some((lock, rest)) = self.front.split_first() {
                self.front = rest;
                return Some(lock);
            }
            if let Some((piece, rest)) = self.pieces.split_first() {
                self.front = piece.locks();
                self.pieces = rest;
                continue;
            }
            let (piece, rest) = self.behind.split_first()?;
            self.front = piece.locks();
            self.behind = rest;
        }
    }
}

/// Whether these are the same locks in the same order, in whatever pieces.
pub(crate) fn are_same<'a>(mut locks: Locks<'a>, mut others: Locks<'a>) -> bool
    ensures { result ≡ pointwise same_lock locks.entry others.entry }
{
    while let Some(lock) = locks.next() {
        match others.next() {
            Some(other) if lock == other => {}
            _ => return false,
        }
    }
    others.next().is_none()
}
