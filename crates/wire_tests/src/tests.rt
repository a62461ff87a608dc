//! Bytes worked out by hand from RFC 4506, RFC 5531 and RFC 1813, and what is read of them or written as them.

mod arguments;
mod nfs;
mod rpc;
mod side;
mod streams;
mod xdr;

use bytes::Bytes;
use nfs_xdr::Writer;
use std::alloc::{AllocError, Global};
use std::test::Fail;

/// What may stand behind arguments.
const BEHIND: [u8; 3] = [7, 2, 3];

/// Adds words.
fn add_words(bytes: &mut Vec<u8>, words: &[u32]) -> Result<(), AllocError> {
    for word in words {
        bytes.extend_from_slice(&word.to_be_bytes())?;
    }
    Ok(())
}

/// Words as bytes, and further bytes behind them.
fn bytes_of(alloc: Global, words: &[u32], behind: &[u8]) -> Result<Vec<u8>, AllocError> {
    let mut bytes = Vec::new(alloc);
    add_words(&mut bytes, words)?;
    bytes.extend_from_slice(behind)?;
    Ok(bytes)
}

/// Words in three parts, as bytes.
fn joined(
    alloc: Global,
    front: &[u32],
    middle: &[u32],
    back: &[u32],
) -> Result<Vec<u8>, AllocError> {
    let mut bytes = Vec::new(alloc);
    add_words(&mut bytes, front)?;
    add_words(&mut bytes, middle)?;
    add_words(&mut bytes, back)?;
    Ok(bytes)
}

/// A record of these bytes.
fn record(alloc: Global, bytes: &[u8]) -> Result<Bytes, Fail> {
    Ok(Bytes::copy_from_slice(alloc, bytes)?)
}

/// A writer that goes on behind a byte 255.
fn behind_a_byte(alloc: Global) -> Result<Writer, AllocError> {
    Ok(Writer::from_vec(bytes_of(alloc, &[], &[255])?))
}

/// Whether these bytes stand behind that byte, and nothing else.
fn has_written(writer: Writer, bytes: &[u8]) -> bool {
    writer.as_slice().split_first() == Some((&255, bytes))
}
