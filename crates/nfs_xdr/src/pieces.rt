//! Bytes that lie in pieces.

ghost use Rattle.std.specs.Prelude.{◌≡◌, ◌+◌, ◌≤◌, ◌<◌, ◌^◌, ◌==◌, ◌++◌, [], IfOk};
ghost use Rattle.std.specs.Prelude.{OnErr, OnOk, length, replicate};
ghost use Rattle.std.specs.Prelude.{nat_eq, vec_capacity, vec_len};
ghost use Rattle.std.specs.List.{concat, list_all, zip};
ghost use Rattle.std.specs.Cmp.Lexicographic.{nat_list_eq_equiv, pointwise};
ghost use Rattle.std.specs.Cmp.{partial_equiv_from_equiv};

use crate::writing::append;
use bytes::Bytes;
use std::alloc::{AllocError, Global};
use std::marker::Model;

/// Bytes in pieces, each of which is shared with its source and not copied. A clause sees them as the bytes.
#[derive(Drop)]
pub struct Pieces {
    pieces: Vec<Bytes>,
    len: usize,
}

impl Model for Pieces {
    ghost use Rattle.std.specs.Prelude.{◌≡◌, List, length, ℕ};
    ghost use Rattle.std.specs.List.{concat};

    ghost Value = { List ℕ };

    ghost view = { λ p. concat p.pieces.items };

    ghost invariant = { λ p. p.len ≡ length (concat p.pieces.items) };
}

/// The zeros that all pieces of zeros share.
const ZEROS: &'static [u8] = &[0; 4_096];

impl Pieces {
    /// No bytes.
    pub fn new(alloc: Global) -> Self
        ensures { result ≡ [] }
    {
        Pieces {
            pieces: Vec::new(alloc),
            len: 0,
        }
    }

    /// No bytes, with room for so many pieces, which spares later growth and changes nothing else.
    ///
    /// # Errors
    ///
    /// There is no memory for it.
    pub fn with_capacity(alloc: Global, capacity: usize) -> Result<Self, AllocError>
        ensures { IfOk result (λ pieces. pieces ≡ []) }
    {
        Ok(Pieces {
            pieces: Vec::with_capacity(alloc, capacity)?,
            len: 0,
        })
    }

    /// How many bytes they are.
    pub fn len(&self) -> usize
        ensures { result ≡ length self.now }
    {
        self.len
    }

    /// Whether there are none.
    pub fn is_empty(&self) -> bool
        ensures { result ≡ (length self.now == 0) }
    {
        self.len == 0
    }

    /// Adds a piece at the end.
    ///
    /// # Errors
    ///
    /// There is no memory for it.
    pub fn push(&mut self, piece: Bytes) -> Result<(), AllocError>
        requires { length self.old + length piece < 2 ^ 64 }
        ensures ok { OnOk result (self.new ≡ self.old ++ piece) }
        ensures err { OnErr result (self.new ≡ self.old) }
    {
        let len = self.len + piece.len();
        self.pieces.push(piece)?;
        self.len = len;
        Ok(())
    }

    /// Adds so many zeros at the end.
    ///
    /// # Errors
    ///
    /// There is no memory for them.
    pub fn push_zeros(&mut self, count: usize) -> Result<(), AllocError>
        requires { length self.old + count < 2 ^ 64 }
        ensures { OnOk result (self.new ≡ self.old ++ replicate count 0) }
    {
        let mut left = count;
        while left > 0 {
            let here = left.min(ZEROS.len());
            self.push(Bytes::from_static(&ZEROS[..here]))?;
            left -= here;
        }
        Ok(())
    }

    /// Appends all bytes to a buffer that has room for them.
    pub(crate) fn append_to(&self, buffer: &mut Vec<u8>)
        requires { vec_len buffer.old + length self.now ≤ vec_capacity buffer.old }
        ensures items { buffer.new.items ≡ buffer.old.items ++ self.now }
        ensures len { vec_len buffer.new ≡ vec_len buffer.old + length self.now }
        ensures capacity { vec_capacity buffer.old ≤ vec_capacity buffer.new }
    {
        for piece in &self.pieces {
            append(buffer, piece.as_slice());
        }
    }
}

impl PartialEq for Pieces {
    ghost eq = { pointwise nat_eq };

    ghost laws = { partial_equiv_from_equiv nat_list_eq_equiv };

    fn eq(&self, other: &Pieces) -> bool {
        self.len == other.len && agree(self.pieces.as_slice(), other.pieces.as_slice())
    }
}

impl Eq for Pieces {
    ghost laws = { nat_list_eq_equiv };
}

/// Whether the bytes of both are the same, as far as both go. Of both the front that they have in one piece each is
/// compared at once.
fn agree(ours: &[Bytes], theirs: &[Bytes]) -> bool
    ensures { result ≡ list_all (λ pair. pair.0 == pair.1) (zip (concat ours.now) (concat theirs.now)) }
{
    let (mut our, mut our_rest): (&[u8], &[Bytes]) = (&[], ours);
    let (mut their, mut their_rest): (&[u8], &[Bytes]) = (&[], theirs);
    'fronts: loop {
        if our.is_empty() {
            let Some((first, rest)) = our_rest.split_first() else {
                return true;
            };
            our = first.as_slice();
            our_rest = rest;
        } else if their.is_empty() {
            let Some((first, rest)) = their_rest.split_first() else {
                return true;
            };
            their = first.as_slice();
            their_rest = rest;
        } else {
            let front = our.len().min(their.len());
            if our[..front] != their[..front] {
                return false;
            }
            our = &our[front..];
            their = &their[front..];
        }
    }
}
