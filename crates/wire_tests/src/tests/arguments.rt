//! Bytes that are no arguments, of NFS, MOUNT and NLM, and no answer to a call of the server.

use super::{joined, record};
use bytes::Bytes;
use nfs_xdr::{ArgumentsError, SharedReader};
use side_wire::{mount, nlm, read_granted_result};
use std::alloc::{AllocError, Global};
use std::process::Abort;
use std::test::Fail;

/// What bytes are read as: the arguments of a procedure of one of three programs, or the answer to GRANTED.
#[derive(Clone, Copy)]
pub(super) enum Format {
    Nfs(u32),
    Mount(u32),
    Nlm(u32),
    Granted,
}

/// Why the record is refused.
fn refusal(format: Format, record: &Bytes) -> Option<ArgumentsError> {
    let reader = SharedReader::new(record);
    match format {
        Format::Nfs(procedure) => nfs_refusal(procedure, reader),
        Format::Mount(procedure) => mount::read_args(procedure, reader).err(),
        Format::Nlm(procedure) => nlm_refusal(procedure, reader),
        Format::Granted => read_granted_result(reader).err(),
    }
}

fn nfs_refusal(procedure: u32, reader: SharedReader<'_>) -> Option<ArgumentsError> {
    nfs_wire::read_args(procedure, reader).err()
}

fn nlm_refusal(procedure: u32, reader: SharedReader<'_>) -> Option<ArgumentsError> {
    nlm::read_args(procedure, reader).err()
}

/// Whether the bytes are read.
pub(super) fn are_arguments(alloc: Global, format: Format, bytes: &[u8]) -> Result<bool, Fail> {
    let record = record(alloc, bytes)?;
    Ok(refusal(format, &record).is_none())
}

/// Whether the bytes are garbage.
pub(super) fn are_garbage(alloc: Global, format: Format, bytes: &[u8]) -> Result<bool, Fail> {
    let record = record(alloc, bytes)?;
    Ok(refusal(format, &record) == Some(ArgumentsError::Garbage))
}

/// Whether every front that is shorter than the bytes is garbage.
pub(super) fn fronts_are_garbage(
    alloc: Global,
    format: Format,
    bytes: &[u8],
) -> Result<bool, Fail> {
    for length in 0..bytes.len() {
        if !are_garbage(alloc, format, &bytes[..length])? {
            return Ok(false);
        }
    }
    Ok(true)
}

/// Words in three parts that are garbage.
pub(super) struct Garbage(
    pub(super) Format,
    pub(super) &'static [u32],
    pub(super) &'static [u32],
    pub(super) &'static [u32],
);

/// Whether the words are garbage.
fn is_garbage(alloc: Global, row: &Garbage) -> Result<bool, Fail> {
    let bytes = joined(alloc, row.1, row.2, row.3)?;
    are_garbage(alloc, row.0, bytes.as_slice())
}

/// Each of these is garbage.
pub(super) fn all_are_garbage(
    rt: &(impl Abort + AllocGlobal),
    rows: &[Garbage],
) -> Result<(), Fail> {
    for row in rows {
        assert!(rt; is_garbage(rt.alloc(), row)?, "{:?} {:?}", row.1, row.3);
    }
    Ok(())
}

/// Lengths that no record has room for; with padding the last two pass the greatest word.
const NO_LENGTHS: [u32; 3] = [0x8000_0000, 0xffff_fffd, u32::MAX];

/// A form of arguments: its words in three parts, the places of its lengths, and those of its bools and numbers of an
/// enum, each with the first number that is not among its values.
pub(super) struct Form(
    pub(super) Format,
    pub(super) &'static [u32],
    pub(super) &'static [u32],
    pub(super) &'static [u32],
    pub(super) &'static [usize],
    pub(super) &'static [(usize, u32)],
);

/// The bytes, but with this word at this place.
fn with_word(alloc: Global, bytes: &[u8], place: usize, word: u32) -> Result<Vec<u8>, AllocError> {
    let new = word.to_be_bytes();
    let mut changed = Vec::new(alloc);
    for (at, old) in bytes.chunks(4).enumerate() {
        let kept = if at == place { new.as_slice() } else { old };
        changed.extend_from_slice(kept)?;
    }
    Ok(changed)
}

/// Whether the bytes are garbage with each of these words at this place.
fn words_are_garbage(
    alloc: Global,
    format: Format,
    bytes: &[u8],
    place: usize,
    words: &[u32],
) -> Result<bool, Fail> {
    for word in words {
        let changed = with_word(alloc, bytes, place, *word)?;
        if !are_garbage(alloc, format, changed.as_slice())? {
            return Ok(false);
        }
    }
    Ok(true)
}

/// Whether the word at this place is what the form says of it. Where it says nothing, the word may be any.
fn is_told(alloc: Global, form: &Form, bytes: &[u8], place: usize) -> Result<bool, Fail> {
    if form.4.contains(&place) {
        return words_are_garbage(alloc, form.0, bytes, place, &NO_LENGTHS);
    }
    for (at, beyond) in form.5 {
        if *at == place {
            return words_are_garbage(alloc, form.0, bytes, place, &[*beyond, 99, u32::MAX]);
        }
    }
    let changed = with_word(alloc, bytes, place, u32::MAX)?;
    are_arguments(alloc, form.0, changed.as_slice())
}

/// Whether the words are arguments, and each of them is what the form says of it.
fn has_form(alloc: Global, form: &Form) -> Result<bool, Fail> {
    let bytes = joined(alloc, form.1, form.2, form.3)?;
    for place in 0..bytes.len() / 4 {
        if !is_told(alloc, form, bytes.as_slice(), place)? {
            return Ok(false);
        }
    }
    are_arguments(alloc, form.0, bytes.as_slice())
}

/// The words have these forms.
pub(super) fn have_forms(rt: &(impl Abort + AllocGlobal), forms: &[Form]) -> Result<(), Fail> {
    for form in forms {
        assert!(rt;
            has_form(rt.alloc(), form)?,
            "{:?} {:?} {:?}",
            form.1,
            form.2,
            form.3
        );
    }
    Ok(())
}
