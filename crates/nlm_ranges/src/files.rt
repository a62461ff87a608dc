//! The files of a bucket, one after the other.

ghost use Rattle.std.specs.Prelude.{◌≡◌};
ghost use Rattle.std.specs.Cmp.Lexicographic.{pointwise};
ghost use Rattle.nlm_ranges.specs.Parts.{files_of};
ghost use Rattle.nlm_ranges.specs.Same.{same_locked};

use crate::locked::LockedFile;
use crate::part::BucketPart;
use std::marker::Model;

/// The files of a bucket that are left, one after the other.
#[derive(Drop)]
pub struct LockedFiles<'a> {
    front: &'a [LockedFile],
    parts: &'a [BucketPart],
}

impl<'a> Model for LockedFiles<'a> {
    ghost use Rattle.std.specs.Prelude.{List, ◌++◌};
    ghost use Rattle.nlm_ranges.specs.Buckets.{LockedValue};
    ghost use Rattle.nlm_ranges.specs.Parts.{files_of};

    ghost Value = { List LockedValue };

    ghost view = { λ f. f.front.now ++ files_of f.parts.now };
}

impl<'a> LockedFiles<'a> {
    /// The files of these parts.
    pub(crate) fn of(parts: &'a [BucketPart]) -> LockedFiles<'a>
        ensures { result ≡ files_of parts.now }
    {
        LockedFiles { front: &[], parts }
    }
}

impl<'a> Iterator for LockedFiles<'a> {
    ghost use Rattle.std.specs.Iterator.{YieldsFirstRef, item_count};

    type Item = &'a LockedFile;

    ghost next_gives = { YieldsFirstRef (λ files. files) };

    ghost remaining = { item_count (λ files. files) };

    fn next(&mut self) -> Option<&'a LockedFile> {
        'parts: loop {
            if let Some((file, rest)) = self.front.split_first() {
                self.front = rest;
                return Some(file);
            }
            let (part, rest) = self.parts.split_first()?;
            self.front = part.files();
            self.parts = rest;
        }
    }
}

/// Whether these are the same files in the same order, in whatever parts.
pub(crate) fn are_same<'a>(mut files: LockedFiles<'a>, mut others: LockedFiles<'a>) -> bool
    ensures { result ≡ pointwise same_locked files.entry others.entry }
{
    while let Some(file) = files.next() {
        match others.next() {
            Some(other) if file == other => {}
            _ => return false,
        }
    }
    others.next().is_none()
}
