//! A reader of a slice.

ghost use Rattle.std.specs.Prelude.{◌≡◌, length, ◌==◌};
ghost use Rattle.nfs_xdr.specs.Laws.{IsBytes};
ghost use Rattle.nfs_xdr.specs.Reading.{read, Reads};
ghost use Rattle.nfs_xdr.specs.Types.{Word, Int, Hyper, Flag, Fixed, Opaque};

use crate::{XdrError, items};
use std::marker::Model;

/// Reads items from the front of a slice. A clause sees it as the bytes that are left.
///
/// After a refusal it stands where it stood.
#[derive(Drop)]
pub struct Reader<'a> {
    bytes: &'a [u8],
}

impl<'a> Model for Reader<'a> {
    ghost use Rattle.std.specs.Prelude.{List, ℕ};

    ghost Value = { List ℕ };

    ghost view = { λ r. r.bytes.now };
}

impl<'a> Reader<'a> {
    /// A reader at the start of the bytes.
    pub fn new(bytes: &'a [u8]) -> Self
        ensures value { result ≡ bytes.entry.now }
        ensures bytes { IsBytes result }
    {
        Reader { bytes }
    }

    /// How many bytes are left.
    pub fn len(&self) -> usize
        ensures { result ≡ length self.now }
    {
        self.bytes.len()
    }

    /// Whether no byte is left.
    pub fn is_empty(&self) -> bool
        ensures { result ≡ (length self.now == 0) }
    {
        self.bytes.is_empty()
    }

    /// An unsigned int (RFC 4506 section 4.2).
    pub fn u32(&mut self) -> Result<u32, XdrError>
        ensures { Reads Word (λ n. n) self.old self.new result }
    {
        let number = items::word(self.bytes)?;
        self.bytes = &self.bytes[items::WORD..];
        Ok(number)
    }

    /// An int (RFC 4506 section 4.1).
    #[tactic(auto, unfolding(crate::specs::Reading::read))]
    pub fn i32(&mut self) -> Result<i32, XdrError>
        ensures { Reads Int (λ z. z) self.old self.new result }
    {
        Ok(self.u32()?.cast_signed())
    }

    /// An unsigned hyper (RFC 4506 section 4.5).
    pub fn u64(&mut self) -> Result<u64, XdrError>
        ensures { Reads Hyper (λ n. n) self.old self.new result }
    {
        let number = items::hyper(self.bytes)?;
        self.bytes = &self.bytes[items::HYPER..];
        Ok(number)
    }

    /// A bool (RFC 4506 section 4.4): `BadValue` where the number is neither 0 nor 1.
    pub fn bool(&mut self) -> Result<bool, XdrError>
        ensures { Reads Flag (λ b. b) self.old self.new result }
    {
        let flag = items::flag(self.bytes)?;
        self.bytes = &self.bytes[items::WORD..];
        Ok(flag)
    }

    /// Opaque data of this size (RFC 4506 section 4.9). Its padding may be any bytes.
    #[tactic(auto, unfolding(crate::specs::Reading::read))]
    pub fn fixed(&mut self, size: usize) -> Result<&'a [u8], XdrError>
        ensures { Reads (Fixed size) (λ s. s.now) self.old self.new result }
    {
        let taken = items::fixed(self.bytes, size)?;
        let (item, rest) = self.bytes.split_at(taken);
        self.bytes = rest;
        Ok(&item[..size])
    }

    /// Opaque data or a string of at most `max` bytes (RFC 4506 sections 4.10 and 4.11): `TooLong`
    /// where its length is above that. Its padding may be any bytes.
    #[tactic(auto, unfolding(crate::specs::Reading::read))]
    pub fn opaque(&mut self, max: usize) -> Result<&'a [u8], XdrError>
        ensures { Reads (Opaque max) (λ s. s.now) self.old self.new result }
    {
        let length = items::opaque(self.bytes, max)?;
        let item = &self.bytes[items::WORD..];
        self.bytes = &item[length + items::padding(length)..];
        Ok(&item[..length])
    }
}
