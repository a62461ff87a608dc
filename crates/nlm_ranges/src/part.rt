//! Parts of a bucket.

ghost use Rattle.std.specs.Prelude.{◌≡◌, ◌==◌, ◌≤◌, ◌++◌, ◌∷◌, [], filter, if◌then◌else◌, length, not};
ghost use Rattle.std.specs.Prelude.{IfOk, OnOk};
ghost use Rattle.std.specs.List.{position_or_len};
ghost use Rattle.nlm_ranges.specs.Files.{has_nothing};
ghost use Rattle.nlm_ranges.specs.Parts.{files_at, part_of, with_part};

use crate::locked::LockedFile;
use std::alloc::{AllocError, Global};
use std::marker::Model;
use std::sync::Arc;

/// Files of a bucket with one index, and that index. Copies share the files.
#[derive(Drop)]
pub(crate) struct BucketPart {
    index: u8,
    files: Arc<Vec<LockedFile>>,
}

impl Model for BucketPart {
    ghost use Rattle.std.specs.Arc.{arc_value};
    ghost use Rattle.nlm_ranges.specs.Parts.{PartValue};

    ghost Value = { PartValue };

    ghost view = { λ p. record { index = p.index; files = (arc_value p.files).items } };
}

impl Clone for BucketPart {
    ghost is_clone = { λ part copy. copy ≡ part };

    fn clone(&self) -> Result<BucketPart, AllocError> {
        Ok(BucketPart {
            index: self.index,
            files: Arc::try_clone(&self.files)?,
        })
    }
}

impl BucketPart {
    /// The part of these files.
    pub(crate) fn of(
        alloc: Global,
        index: u8,
        files: Vec<LockedFile>,
    ) -> Result<BucketPart, AllocError>
        ensures { IfOk result (λ part. part ≡ record { index = index; files = files.items }) }
    {
        Ok(BucketPart {
            index,
            files: Arc::new(alloc, files)?,
        })
    }

    /// The index of all its files.
    pub(crate) fn index(&self) -> u8
        ensures { result ≡ self.now.index }
    {
        self.index
    }

    /// Its files.
    pub(crate) fn files(&self) -> &[LockedFile]
        ensures { result.now ≡ self.now.files }
    {
        self.files.as_slice()
    }
}

/// The files of the part with this index, if there is one.
pub(crate) fn files_at(parts: &[BucketPart], index: u8) -> &[LockedFile]
    ensures { result.now ≡ files_at index parts.now }
{
    match parts.iter().find(|part| part.index() == index) {
        Some(part) => part.files(),
        None => &[],
    }
}

/// The parts where that with this index has these files. A part without files is not listed.
pub(crate) fn with_part(
    alloc: Global,
    parts: &[BucketPart],
    index: u8,
    files: Vec<LockedFile>,
) -> Result<Vec<BucketPart>, AllocError>
    ensures { IfOk result (λ new. new.items ≡ with_part index files.items parts.now) }
{
    let (before, from) = parts.split_at(place_of(parts, index));
    let mut new = Vec::with_capacity(alloc, parts.len() + 1)?;
    push_parts(&mut new, before)?;
    push_part(alloc, &mut new, index, files)?;
    let Some((_, behind)) = from.split_first() else {
        return Ok(new);
    };
    push_parts(&mut new, behind)?;
    Ok(new)
}

/// The place of the part with this index, or the one behind all where there is none.
fn place_of(parts: &[BucketPart], index: u8) -> usize
    ensures place { result ≡ position_or_len (λ p. p.index == index) parts.now }
    ensures within { result ≤ length parts.now }
{
    parts
        .iter()
        .position(|part| part.index() == index)
        .unwrap_or(parts.len())
}

/// Adds copies of these parts.
pub(crate) fn push_parts(
    parts: &mut Vec<BucketPart>,
    others: &[BucketPart],
) -> Result<(), AllocError>
    ensures { OnOk result (parts.new.items ≡ parts.old.items ++ others.now) }
{
    for other in others {
        parts.push(other.clone()?)?;
    }
    Ok(())
}

/// Adds a part of these files, if there are any.
fn push_part(
    alloc: Global,
    parts: &mut Vec<BucketPart>,
    index: u8,
    files: Vec<LockedFile>,
) -> Result<(), AllocError>
    ensures { OnOk result (parts.new.items ≡ parts.old.items ++ part_of index files.items) }
{
    if files.is_empty() {
        return Ok(());
    }
    parts.push(BucketPart::of(alloc, index, files)?)?;
    Ok(())
}

/// The files but the one with this number.
pub(crate) fn others(
    alloc: Global,
    files: &[LockedFile],
    number: u64,
) -> Result<Vec<LockedFile>, AllocError>
    ensures { IfOk result (λ others. others.items ≡ filter (λ f. not (f.number == number)) files.now) }
{
    let mut others = Vec::new(alloc);
    for file in files {
        if file.number() != number {
            others.push(file.clone()?)?;
        }
    }
    Ok(others)
}

/// The files with one more, unless it has nothing.
pub(crate) fn with_file(
    mut files: Vec<LockedFile>,
    file: LockedFile,
) -> Result<Vec<LockedFile>, AllocError>
    ensures { IfOk result (λ all.
        all.items ≡ files.items ++ (if has_nothing file.file then [] else file ∷ [])) }
{
    if file.file().is_empty() {
        return Ok(files);
    }
    files.push(file)?;
    Ok(files)
}
