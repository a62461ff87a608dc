//! The messages of calls on a store.

use super::procedures::Procedure;
use super::rows::Word;
use std::alloc::{AllocError, Global};

/// The root's handle: export 1, start 7, fileid 1, generation 1.
pub(super) const ROOT: &[u8] =
    b"NFD3\0\0\0\x01\0\0\0\0\0\0\0\x07\0\0\0\0\0\0\0\x01\0\0\0\0\0\0\0\x01";

/// The xid of the calls that are executed, and that of those whose attempts are counted: so none comes again.
pub(super) const MADE_XID: u32 = 1;

pub(super) const COUNTED_XID: u32 = 2;

/// What stands in a store before attempts are counted.
#[derive(Drop)]
pub(super) struct Store {
    /// So many files of the root.
    pub(super) files: u32,
    /// So many fours of directories, each in the one before it.
    pub(super) fours: u8,
    /// The handle of what was made last; at first none.
    pub(super) made: Vec<u8>,
    /// The cookie of what was granted last; at first none.
    pub(super) grant: Vec<u8>,
}

impl Store {
    /// Nothing.
    pub(super) fn new(alloc: Global) -> Store {
        Store {
            files: 0,
            fours: 0,
            made: Vec::new(alloc),
            grant: Vec::new(alloc),
        }
    }
}

/// Four bytes more.
fn put(bytes: &mut Vec<u8>, word: u32) -> Result<(), AllocError> {
    bytes.extend_from_slice(&word.to_be_bytes())
}

/// A handle more, behind its length.
fn put_handle(bytes: &mut Vec<u8>, handle: &[u8]) -> Result<(), AllocError> {
    put(bytes, 32)?;
    bytes.extend_from_slice(handle)
}

/// The name of a number, of four bytes.
fn put_name(bytes: &mut Vec<u8>, number: u32) -> Result<(), AllocError> {
    put(bytes, 4)?;
    put(bytes, 0x8080_8080 | number & 0x7f | (number & 0x3f80) << 1)
}

/// `/data` and so many fours of names below it, of four letters each; with three bytes behind it, a count in fours.
fn put_path(bytes: &mut Vec<u8>, fours: u8) -> Result<(), AllocError> {
    put(bytes, 5 + 20 * u32::from(fours))?;
    bytes.extend_from_slice(b"/data")?;
    for _ in 0..u32::from(fours) * 4 {
        bytes.extend_from_slice(b"/aaaa")?;
    }
    bytes.extend_from_slice(b"\0\0\0")
}

/// The bytes of an owner, or of a host's name: four letters.
const OWNER: &[u8] = b"aaaa";

const OTHER_OWNER: &[u8] = b"bbbb";

/// These four bytes.
fn put_owner(bytes: &mut Vec<u8>, owner: &[u8]) -> Result<(), AllocError> {
    put(bytes, 4)?;
    bytes.extend_from_slice(owner)
}

/// An owner's lock of a whole file.
fn put_lock(bytes: &mut Vec<u8>, file: &[u8], owner: &[u8]) -> Result<(), AllocError> {
    put_owner(bytes, OWNER)?;
    put_handle(bytes, file)?;
    put_owner(bytes, owner)?;
    put_zeros(bytes, 5)
}

/// A cookie, which is empty or has 8 bytes.
fn put_cookie(bytes: &mut Vec<u8>, cookie: &[u8]) -> Result<(), AllocError> {
    put(bytes, if cookie.is_empty() { 0 } else { 8 })?;
    bytes.extend_from_slice(cookie)
}

/// So many words of zero.
fn put_zeros(bytes: &mut Vec<u8>, count: u8) -> Result<(), AllocError> {
    for _ in 0..count {
        put(bytes, 0)?;
    }
    Ok(())
}

/// The bytes of so many blocks, behind their count.
fn put_blocks(bytes: &mut Vec<u8>, blocks: u8) -> Result<(), AllocError> {
    put(bytes, u32::from(blocks) * 4096)?;
    for _ in 0..u32::from(blocks) * 1024 {
        bytes.extend_from_slice(b"aaaa")?;
    }
    Ok(())
}

/// What stands there in the arguments of a call on this store.
fn put_word(bytes: &mut Vec<u8>, word: Word, store: &Store) -> Result<(), AllocError> {
    match word {
        Word::Is(word) => put(bytes, word),
        Word::Zeros(count) => put_zeros(bytes, count),
        Word::Root => put_handle(bytes, ROOT),
        Word::Made => put_handle(bytes, &store.made),
        Word::Name(number) => put_name(bytes, number),
        Word::Last => put_name(bytes, store.files.saturating_sub(1)),
        Word::Absent => put_name(bytes, store.files),
        Word::Path => put_path(bytes, store.fours),
        Word::Owner => put_owner(bytes, OWNER),
        Word::Lock => put_lock(bytes, &store.made, OWNER),
        Word::OtherLock => put_lock(bytes, &store.made, OTHER_OWNER),
        Word::Grant => put_cookie(bytes, &store.grant),
        Word::Blocks(blocks) => put_blocks(bytes, blocks),
    }
}

/// A call with no credential (RFC 5531, section 9).
fn put_call(bytes: &mut Vec<u8>, xid: u32, procedure: Procedure) -> Result<(), AllocError> {
    let (program, version, number) = procedure;
    for word in [xid, 0, 2, program, version, number] {
        put(bytes, word)?;
    }
    put_zeros(bytes, 4)
}

/// The message of a call on a store.
pub(super) fn message(
    alloc: Global,
    xid: u32,
    procedure: Procedure,
    words: &[Word],
    store: &Store,
) -> Result<Vec<u8>, AllocError> {
    let mut bytes = Vec::new(alloc);
    put_call(&mut bytes, xid, procedure)?;
    for word in words {
        put_word(&mut bytes, *word, store)?;
    }
    Ok(bytes)
}
