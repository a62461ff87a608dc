//! A reader of shared bytes, which cuts byte strings out of them with no copy.

ghost use Rattle.std.specs.Prelude.{◌≡◌, ◌+◌, ◌≤◌, ◌<◌, length, take, drop, ◌==◌, IfOk, IfErr};
ghost use Rattle.std.specs.Prelude.{OnErr};
ghost use Rattle.nfs_xdr.specs.declared.XdrError.TheVariants.{Memory};
ghost use Rattle.nfs_xdr.specs.Laws.{IsBytes};
ghost use Rattle.nfs_xdr.specs.Reading.{read, Reads};
ghost use Rattle.nfs_xdr.specs.Types.{Word, Int, Hyper, Flag, Fixed, Opaque};

use crate::{XdrError, items};
use bytes::Bytes;
use std::marker::Model;

/// A byte string that was read, as a part of its source. It takes no memory before it is shared. A clause sees it as
/// its bytes.
#[derive(Drop)]
pub struct Part<'a> {
    source: &'a Bytes,
    start: usize,
    end: usize,
}

impl<'a> Model for Part<'a> {
    ghost use Rattle.std.specs.Prelude.{List, ℕ, ◌≤◌, length, slice_range};

    ghost Value = { List ℕ };

    ghost view = { λ p. slice_range p.source.now p.start p.end };

    ghost invariant = { λ p. (p.start ≤ p.end) × (p.end ≤ length p.source.now) };
}

impl<'a> Part<'a> {
    /// The bytes, shared with their source. `Memory` comes only where there are some.
    pub fn share(self) -> Result<Bytes, XdrError>
        ensures ok { IfOk result (λ bytes. bytes ≡ self.entry) }
        ensures err { IfErr result (λ e. e ≡ Memory) }
        ensures some { OnErr result (0 < length self.entry) }
    {
        Ok(self.source.slice(self.start..self.end)?)
    }
}

/// Reads items from the front of shared bytes, of which its byte strings are parts. It takes no memory. A clause sees
/// it as the bytes that are left.
///
/// After a refusal it stands where it stood.
#[derive(Drop)]
pub struct SharedReader<'a> {
    source: &'a Bytes,
    left: &'a [u8],
}

impl<'a> Model for SharedReader<'a> {
    ghost use Rattle.std.specs.Prelude.{List, ℕ};
    ghost use Rattle.nfs_xdr.specs.Reading.{IsEndOf};

    ghost Value = { List ℕ };

    ghost view = { λ r. r.left.now };

    ghost invariant = { λ r. IsEndOf r.left.now r.source.now };
}

impl<'a> SharedReader<'a> {
    /// A reader at the start of the bytes.
    pub fn new(source: &'a Bytes) -> Self
        ensures value { result ≡ source.entry.now }
        ensures bytes { IsBytes result }
    {
        let left = source.as_slice();
        SharedReader { source, left }
    }

    /// How many bytes are left.
    pub fn len(&self) -> usize
        ensures { result ≡ length self.now }
    {
        self.left.len()
    }

    /// Whether no byte is left.
    pub fn is_empty(&self) -> bool
        ensures { result ≡ (length self.now == 0) }
    {
        self.left.is_empty()
    }

    /// The bytes that are left.
    pub fn as_slice(&self) -> &'a [u8]
        ensures { result.now ≡ self.entry.now }
    {
        self.left
    }

    /// The bytes that are left, as a part of the source. The reader stays where it is.
    pub fn rest(&self) -> Part<'a>
        ensures { result ≡ self.entry.now }
    {
        self.part(0, self.left.len())
    }

    /// An unsigned int (RFC 4506 section 4.2).
    pub fn u32(&mut self) -> Result<u32, XdrError>
        ensures { Reads Word (λ n. n) self.old self.new result }
    {
        let number = items::word(self.left)?;
        self.advance(items::WORD);
        Ok(number)
    }

    /// An int (RFC 4506 section 4.1).
    #[tactic(auto, unfolding(crate::specs::Reading::read))]
    pub fn i32(&mut self) -> Result<i32, XdrError>
        ensures { Reads Int (λ z. z) self.old self.new result }
    {
        Ok(self.u32()?.cast_signed())
    }

    /// An unsigned hyper (RFC 4506 section 4.5).
    pub fn u64(&mut self) -> Result<u64, XdrError>
        ensures { Reads Hyper (λ n. n) self.old self.new result }
    {
        let number = items::hyper(self.left)?;
        self.advance(items::HYPER);
        Ok(number)
    }

    /// A bool (RFC 4506 section 4.4): `BadValue` where the number is neither 0 nor 1.
    pub fn bool(&mut self) -> Result<bool, XdrError>
        ensures { Reads Flag (λ b. b) self.old self.new result }
    {
        let flag = items::flag(self.left)?;
        self.advance(items::WORD);
        Ok(flag)
    }

    /// Opaque data of this size (RFC 4506 section 4.9). Its padding may be any bytes.
    #[tactic(auto, unfolding(crate::specs::Reading::read))]
    pub fn fixed(&mut self, size: usize) -> Result<Part<'a>, XdrError>
        ensures { Reads (Fixed size) (λ part. part) self.old self.new result }
    {
        let taken = items::fixed(self.left, size)?;
        let item = self.part(0, size);
        self.advance(taken);
        Ok(item)
    }

    /// Opaque data or a string of at most `max` bytes (RFC 4506 sections 4.10 and 4.11): `TooLong`
    /// where its length is above that. Its padding may be any bytes.
    #[tactic(auto, unfolding(crate::specs::Reading::read))]
    pub fn opaque(&mut self, max: usize) -> Result<Part<'a>, XdrError>
        ensures { Reads (Opaque max) (λ part. part) self.old self.new result }
    {
        let length = items::opaque(self.left, max)?;
        let item = self.part(items::WORD, length);
        self.advance(items::WORD + (length + items::padding(length)));
        Ok(item)
    }

    /// So many of the bytes that are left, from this place on, as a part of the source.
    fn part(&self, from: usize, size: usize) -> Part<'a>
        requires { from + size ≤ length self.now }
        ensures { result ≡ take size (drop from self.entry.now) }
    {
        let start = self.source.len() - self.left.len() + from;
        Part {
            source: self.source,
            start,
            end: start + size,
        }
    }

    /// Goes on behind the next `count` bytes.
    fn advance(&mut self, count: usize)
        requires { count ≤ length self.old }
        ensures { self.new ≡ drop count self.old }
    {
        self.left = &self.left[count..];
    }
}
