//! The item at the front of a slice, and how many bytes it takes.

ghost use Rattle.std.specs.Prelude.{◌≡◌, ℕ, ◌+◌, take, drop};
ghost use Rattle.nfs_xdr.specs.Reading.{read, ReadsAt};
ghost use Rattle.nfs_xdr.specs.Types.{Word, Hyper, Flag, Fixed, Opaque, padding};

use crate::XdrError;
use byteorder::{BigEndian, ByteOrder};

/// The bytes that a word takes.
pub const WORD: usize = 4;

/// The bytes that a hyper takes.
pub const HYPER: usize = 8;

/// How many bytes of padding follow so many bytes.
pub fn padding(length: usize) -> usize
    ensures { result ≡ padding length }
{
    (WORD - length % WORD) % WORD
}

#[tactic(auto, unfolding(crate::specs::Reading::read))]
pub fn word(bytes: &[u8]) -> Result<u32, XdrError>
    ensures { ReadsAt Word (λ n. n) (λ _. 4) bytes.now result }
{
    if bytes.len() < WORD {
        return Err(XdrError::Short);
    }
    Ok(BigEndian::read_u32(bytes))
}

#[tactic(auto, unfolding(crate::specs::Reading::read))]
pub fn hyper(bytes: &[u8]) -> Result<u64, XdrError>
    ensures { ReadsAt Hyper (λ n. n) (λ _. 8) bytes.now result }
{
    if bytes.len() < HYPER {
        return Err(XdrError::Short);
    }
    Ok(BigEndian::read_u64(bytes))
}

#[tactic(auto, unfolding(crate::specs::Reading::read))]
pub fn flag(bytes: &[u8]) -> Result<bool, XdrError>
    ensures { ReadsAt Flag (λ b. b) (λ _. 4) bytes.now result }
{
    match word(bytes)? {
        0 => Ok(false),
        1 => Ok(true),
        _ => Err(XdrError::BadValue),
    }
}

/// How many bytes an item of a fixed size takes, with its padding.
#[tactic(auto, unfolding(crate::specs::Reading::read))]
pub fn fixed(bytes: &[u8], size: usize) -> Result<usize, XdrError>
    ensures { ReadsAt (Fixed size) (λ _. take size bytes.now) (λ n. n) bytes.now result }
{
    if bytes.len() < size || bytes.len() - size < padding(size) {
        return Err(XdrError::Short);
    }
    Ok(size + padding(size))
}

/// How many bytes the value of an opaque item has. Its length word stands before it, and its padding
/// after it.
#[tactic(auto, unfolding(crate::specs::Reading::read))]
pub fn opaque(bytes: &[u8], max: usize) -> Result<usize, XdrError>
    ensures { ReadsAt (Opaque max) (λ n. take n (drop 4 bytes.now)) (λ n. 4 + (n + padding n)) bytes.now result }
{
    let length = word(bytes)? as usize;
    if length > max {
        return Err(XdrError::TooLong);
    }
    fixed(&bytes[WORD..], length)?;
    Ok(length)
}
