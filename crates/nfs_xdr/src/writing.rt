//! A writer at the end of a buffer.

ghost use Rattle.std.specs.Prelude.{◌≡◌, ◌+◌, ◌≤◌, ◌<◌, ◌^◌, ◌==◌, ◌++◌, length};
ghost use Rattle.std.specs.Prelude.{vec_len, vec_capacity, take, [], IfOk, IfErr};
ghost use Rattle.nfs_xdr.specs.declared.XdrError.TheVariants.{Memory};
ghost use Rattle.nfs_xdr.specs.Writing.{Writes, with_padded};
ghost use Rattle.nfs_xdr.specs.Types.{Word, Int, Hyper, Flag, Fixed, Opaque, padding};
ghost use Rattle.std.specs.Int.{w32, to_be_bytes};

use crate::{Pieces, XdrError, items};
use byteorder::{BigEndian, ByteOrder};
use std::alloc::Global;
use std::marker::Model;

/// Writes items at the end of a buffer. A clause sees it as the bytes written so far.
///
/// An item for which there is no memory leaves it as it was.
#[derive(Drop)]
pub struct Writer {
    bytes: Vec<u8>,
}

impl Model for Writer {
    ghost use Rattle.std.specs.Prelude.{List, ℕ};

    ghost Value = { List ℕ };

    ghost view = { λ w. w.bytes.items };
}

impl Writer {
    /// A writer that has written nothing.
    pub fn new(alloc: Global) -> Self
        ensures { result ≡ [] }
    {
        Writer {
            bytes: Vec::new(alloc),
        }
    }

    /// A writer with room for so many bytes, which spares it later growth and changes nothing else.
    pub fn with_capacity(alloc: Global, capacity: usize) -> Result<Self, XdrError>
        ensures ok { IfOk result (λ writer. writer ≡ []) }
        ensures err { IfErr result (λ e. e ≡ Memory) }
    {
        Ok(Writer {
            bytes: Vec::with_capacity(alloc, capacity)?,
        })
    }

    /// A writer that goes on at the end of these bytes.
    pub fn from_vec(bytes: Vec<u8>) -> Self
        ensures { result ≡ bytes.items }
    {
        Writer { bytes }
    }

    /// The bytes written.
    pub fn into_vec(self) -> Vec<u8>
        ensures { result.items ≡ self }
    {
        let Writer { bytes } = self;
        bytes
    }

    /// The bytes written so far.
    pub fn as_slice(&self) -> &[u8]
        ensures { result.now ≡ self.now }
    {
        self.bytes.as_slice()
    }

    /// How many bytes are written.
    pub fn len(&self) -> usize
        ensures { result ≡ length self.now }
    {
        self.bytes.len()
    }

    /// Whether nothing is written.
    pub fn is_empty(&self) -> bool
        ensures { result ≡ (length self.now == 0) }
    {
        self.bytes.is_empty()
    }

    /// Takes back all but the first `len` bytes.
    pub fn truncate(&mut self, len: usize)
        ensures { self.new ≡ take len self.old }
    {
        self.bytes.truncate(len);
    }

    /// An unsigned int (RFC 4506 section 4.2).
    #[tactic(auto, unfolding(crate::specs::Writing::appended, crate::specs::Writing::with_word))]
    pub fn u32(&mut self, number: u32) -> Result<(), XdrError>
        ensures { Writes Word number self.old self.new result }
    {
        Ok(self.bytes.extend_from_slice(&word(number))?)
    }

    /// An int (RFC 4506 section 4.1).
    #[tactic(auto, unfolding(crate::specs::Writing::appended))]
    pub fn i32(&mut self, number: i32) -> Result<(), XdrError>
        ensures { Writes Int number self.old self.new result }
    {
        self.u32(number.cast_unsigned())
    }

    /// An unsigned hyper (RFC 4506 section 4.5).
    #[tactic(auto, unfolding(crate::specs::Writing::appended, crate::specs::Writing::with_hyper))]
    pub fn u64(&mut self, number: u64) -> Result<(), XdrError>
        ensures { Writes Hyper number self.old self.new result }
    {
        let mut hyper = [0; items::HYPER];
        BigEndian::write_u64(&mut hyper, number);
        Ok(self.bytes.extend_from_slice(&hyper)?)
    }

    /// A bool (RFC 4506 section 4.4).
    #[tactic(auto, unfolding(crate::specs::Writing::appended))]
    pub fn bool(&mut self, flag: bool) -> Result<(), XdrError>
        ensures { Writes Flag flag self.old self.new result }
    {
        self.u32(u32::from(flag))
    }

    /// Opaque data of a fixed size (RFC 4506 section 4.9).
    #[tactic(auto, unfolding(crate::specs::Writing::appended))]
    pub fn fixed(&mut self, bytes: &[u8]) -> Result<(), XdrError>
        ensures { Writes (Fixed (length bytes.now)) bytes.now self.old self.new result }
    {
        self.bytes
            .reserve(bytes.len() + items::padding(bytes.len()))?;
        append_padded(&mut self.bytes, bytes);
        Ok(())
    }

    /// Opaque data or a string (RFC 4506 sections 4.10 and 4.11).
    #[tactic(auto, unfolding(crate::specs::Writing::appended, crate::specs::Writing::with_word))]
    pub fn opaque(&mut self, bytes: &[u8]) -> Result<(), XdrError>
        requires { length bytes.now < 2 ^ 32 }
        ensures { Writes (Opaque (length bytes.now)) bytes.now self.old self.new result }
    {
        let room = items::WORD + (bytes.len() + items::padding(bytes.len()));
        self.bytes.reserve(room)?;
        append(&mut self.bytes, &word(bytes.len() as u32));
        append_padded(&mut self.bytes, bytes);
        Ok(())
    }

    /// The same of bytes in pieces, which are copied here alone.
    #[tactic(auto, unfolding(crate::specs::Writing::appended, crate::specs::Writing::with_word))]
    pub fn opaque_pieces(&mut self, pieces: &Pieces) -> Result<(), XdrError>
        requires { length pieces.now < 2 ^ 32 }
        ensures { Writes (Opaque (length pieces.now)) pieces.now self.old self.new result }
    {
        let room = items::WORD + (pieces.len() + items::padding(pieces.len()));
        self.bytes.reserve(room)?;
        append(&mut self.bytes, &word(pieces.len() as u32));
        append_padded_pieces(&mut self.bytes, pieces);
        Ok(())
    }
}

/// A number as a word.
fn word(number: u32) -> [u8; items::WORD]
    ensures { result ≡ to_be_bytes w32 number }
{
    let mut word = [0; items::WORD];
    BigEndian::write_u32(&mut word, number);
    word
}

/// Appends bytes for which there is room.
pub(crate) fn append(buffer: &mut Vec<u8>, bytes: &[u8])
    requires { vec_len buffer.old + length bytes.now ≤ vec_capacity buffer.old }
    ensures items { buffer.new.items ≡ buffer.old.items ++ bytes.now }
    ensures len { vec_len buffer.new ≡ vec_len buffer.old + length bytes.now }
    ensures capacity { vec_capacity buffer.old ≤ vec_capacity buffer.new }
{
    let Ok(()) = buffer.extend_from_slice(bytes) else {
        unreachable!()
    };
}

/// Appends bytes and their padding, for which there is room.
#[tactic(auto, unfolding(crate::specs::Writing::with_padded))]
fn append_padded(buffer: &mut Vec<u8>, bytes: &[u8])
    requires { vec_len buffer.old + (length bytes.now + padding (length bytes.now)) ≤ vec_capacity buffer.old }
    ensures { buffer.new.items ≡ with_padded bytes.now buffer.old.items }
{
    append(buffer, bytes);
    append(buffer, &[0; items::WORD][..items::padding(bytes.len())]);
}

/// The same of bytes in pieces.
#[tactic(auto, unfolding(crate::specs::Writing::with_padded))]
fn append_padded_pieces(buffer: &mut Vec<u8>, pieces: &Pieces)
    requires { vec_len buffer.old + (length pieces.now + padding (length pieces.now)) ≤ vec_capacity buffer.old }
    ensures { buffer.new.items ≡ with_padded pieces.now buffer.old.items }
{
    pieces.append_to(buffer);
    append(buffer, &[0; items::WORD][..items::padding(pieces.len())]);
}
