//! The bytes of a block of a file. Those that it has not, up to `BLOCK_SIZE`, are zeros.

ghost use Rattle.std.specs.Prelude.{◌≡◌, ◌++◌, ◌+◌, ◌<◌, ◌≤◌, ◌^◌, [], IfOk, OnOk, drop};
ghost use Rattle.std.specs.Prelude.{length, option_copied, take};
ghost use Rattle.std.specs.Prelude.{unwrap_or};
ghost use Rattle.nfs_machine.specs.Data.{resized, written};

use crate::bits::BITS;
use bytes::Bytes;
use nfs_wire::Pieces;
use std::alloc::{AllocError, Global};

/// How many bytes a block has at most, and the place in a file of each block but the first is a multiple of it.
pub const BLOCK_SIZE: usize = 4_096;

/// How many blocks a map page tells of.
pub const MAP_BLOCKS: u64 = BITS;

/// A block once the data was written in it at this place; a gap before it is zeros. All is copied.
///
/// # Errors
///
/// `AllocError` where the memory for it was refused.
pub fn written(alloc: Global, old: &[u8], at: usize, data: &[u8]) -> Result<Bytes, AllocError>
    requires { at + length «data».now ≤ BLOCK_SIZE }
    ensures { IfOk result (λ bytes. bytes ≡ written old.now at «data».now) }
{
    let end = at + data.len();
    let mut bytes = front(alloc, end.max(old.len()), old, at)?;
    bytes.extend_from_slice(data)?;
    bytes.extend_from_slice(&old[end.min(old.len())..])?;
    Ok(Bytes::from_vec(bytes)?)
}

/// At most so many of a block's first bytes, copied.
///
/// # Errors
///
/// `AllocError` where the memory for them was refused.
pub fn cut(alloc: Global, old: &[u8], count: usize) -> Result<Bytes, AllocError>
    ensures { IfOk result (λ bytes. bytes ≡ take count old.now) }
{
    Bytes::copy_from_slice(alloc, window(old, 0, count))
}

/// Adds so many of a block's bytes from this place on, shared with it; zeros where it has fewer, or is absent.
///
/// # Errors
///
/// `AllocError` where the memory for them was refused.
pub fn add_part(
    found: &mut Pieces,
    block: Option<&Bytes>,
    start: usize,
    count: usize,
) -> Result<(), AllocError>
    requires { length found.old + count < 2 ^ 64 }
    ensures { OnOk result
        (found.new ≡ found.old ++ resized (drop start (unwrap_or (option_copied block.entry) [])) count) }
{
    let shared = match block {
        Some(block) => share_part(found, block, start, count)?,
        None => 0,
    };
    found.push_zeros(count - shared)
}

/// Adds at most so many of a block's bytes from this place on, shared with it. How many they are.
fn share_part(
    found: &mut Pieces,
    block: &Bytes,
    start: usize,
    count: usize,
) -> Result<usize, AllocError>
    requires { length found.old + count < 2 ^ 64 }
    ensures found { OnOk result (found.new ≡ found.old ++ take count (drop start block.now)) }
    ensures count { IfOk result (λ shared. shared ≡ length (take count (drop start block.now))) }
{
    let shared = window(block.as_slice(), start, count).len();
    if shared > 0 {
        found.push(block.slice(start..start + shared)?)?;
    }
    Ok(shared)
}

/// At most so many bytes from a place on.
pub fn window(bytes: &[u8], start: usize, count: usize) -> &[u8]
    ensures { result.now ≡ take count (drop start bytes.now) }
{
    let behind = &bytes[start.min(bytes.len())..];
    &behind[..count.min(behind.len())]
}

/// So many bytes, cut off or filled up with zeros, with room for more.
fn front(alloc: Global, capacity: usize, old: &[u8], size: usize) -> Result<Vec<u8>, AllocError>
    ensures { IfOk result (λ front. front.items ≡ resized old.now size) }
{
    let mut front = Vec::with_capacity(alloc, capacity)?;
    front.extend_from_slice(&old[..size.min(old.len())])?;
    front.resize(size, 0)?;
    Ok(front)
}
