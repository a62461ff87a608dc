//! What files have of locks, in 64 buckets by their numbers.
//!
//! The files whose numbers are the same modulo 64 share a bucket, so that all that one caller has is found in so many
//! values. A bucket also counts the numbers that it gave to grants, each of which is the bucket's index modulo 64. Its
//! files stand in at most 64 parts, those whose numbers are the same modulo 4,096 in one. A look-up passes over the
//! parts and the files of one of them; a change copies the list of parts and that of the files of one, a count and a
//! number or two for each, and shares all other parts.

ghost use Rattle.std.specs.Prelude.{◌≡◌, ◌<◌, ◌+◌, ◌%◌, IfOk, MatchOption, option_copied};
ghost use Rattle.nlm_ranges.specs.Buckets.{IsInserted, bucket_count, file_in, given_most, has_none, number_given};
ghost use Rattle.nlm_ranges.specs.Buckets.{without_file};
ghost use Rattle.nlm_ranges.specs.Parts.{part_index};

use crate::files::{LockedFiles, are_same};
use crate::locked::LockedFile;
use crate::part::{BucketPart, files_at, others, push_parts, with_file, with_part};
use std::alloc::{AllocError, Global};
use std::marker::Model;

/// How many buckets there are.
pub const LOCK_BUCKETS: u8 = 64;

/// How many parts a bucket has at most.
const LOCK_PARTS: u64 = 64;

/// How many numbers a bucket gives to grants at most: those below 2^64 that are its index modulo 64.
const GIVEN_MOST: u64 = 1 << 58;

/// The files of a bucket that have anything, each once, and how many numbers it gave to grants. A bucket is never
/// changed: a change makes another one, which shares all parts but one, and what the files have.
#[derive(Drop)]
pub struct LockBucket {
    given: u64,
    parts: Vec<BucketPart>,
}

impl Model for LockBucket {
    ghost use Rattle.std.specs.Prelude.{◌≤◌};
    ghost use Rattle.nlm_ranges.specs.Buckets.{BucketValue, given_most};
    ghost use Rattle.nlm_ranges.specs.Parts.{AreParts, files_of};

    ghost Value = { BucketValue };

    ghost view = { λ b. record { given = b.given; files = files_of b.parts.items } };

    ghost invariant = { λ b. (b.given ≤ given_most) × AreParts b.parts.items };
}

impl PartialEq for LockBucket {
    ghost use Rattle.std.specs.Bool.{Decides};
    ghost use Rattle.std.specs.Cmp.{decided, partial_equiv_from_equiv};
    ghost use Rattle.nlm_ranges.specs.Same.{same_bucket};
    ghost use Rattle.nlm_ranges.specs.SameLaws.{bucket_decides};

    ghost eq = { same_bucket };

    ghost laws = { partial_equiv_from_equiv (decided same_bucket bucket_decides) };

    fn eq(&self, other: &LockBucket) -> bool
        ensures test { result ≡ same_bucket self.now other.now }
        ensures same { Decides result (self.now ≡ other.now) }
    {
        self.given == other.given && are_same(self.files(), other.files())
    }
}

impl Eq for LockBucket {
    ghost use Rattle.std.specs.Cmp.{decided};
    ghost use Rattle.nlm_ranges.specs.Same.{same_bucket};
    ghost use Rattle.nlm_ranges.specs.SameLaws.{bucket_decides};

    ghost laws = { decided same_bucket bucket_decides };
}

impl LockBucket {
    ghost use Rattle.nlm_ranges.specs.Buckets.{IsBucket, no_bucket};

    /// A bucket in which nothing is.
    pub fn new(alloc: Global) -> LockBucket
        ensures { result ≡ no_bucket }
    {
        LockBucket {
            given: 0,
            parts: Vec::new(alloc),
        }
    }

    /// Whether no file has anything, and no number was ever given.
    pub fn is_empty(&self) -> bool
        ensures { result ≡ has_none self.now }
    {
        self.given == 0 && self.parts.is_empty()
    }

    /// The files that have anything.
    pub fn files(&self) -> LockedFiles<'_>
        ensures files { result ≡ self.now.files }
        ensures bucket { IsBucket self.now }
    {
        LockedFiles::of(&self.parts)
    }

    /// The file with this number, if it has anything.
    pub fn find(&self, number: u64) -> Option<&LockedFile>
        ensures { option_copied result ≡ file_in self.now number }
    {
        let files = files_at(&self.parts, part_index(number));
        files.iter().find(|file| file.number() == number)
    }

    /// The number of the next grant, in the bucket with this index; None where all were given.
    pub fn next_number(&self, index: u8) -> Option<u64>
        requires { index < bucket_count }
        ensures { MatchOption result (self.now.given ≡ given_most)
            (λ number. (number ≡ number_given index self.now.given) × (self.now.given < given_most)) }
    {
        if self.given == GIVEN_MOST {
            return None;
        }
        Some(self.given * u64::from(LOCK_BUCKETS) + u64::from(index))
    }

    /// The bucket that gave one number more.
    ///
    /// # Errors
    ///
    /// `AllocError` where the memory for it was refused.
    pub fn with_number(&self, alloc: Global) -> Result<LockBucket, AllocError>
        requires { self.now.given < given_most }
        ensures { IfOk result (λ bucket. bucket ≡ record self.now { given = self.now.given + 1 }) }
    {
        let mut parts = Vec::with_capacity(alloc, self.parts.len())?;
        push_parts(&mut parts, &self.parts)?;
        Ok(LockBucket {
            given: self.given + 1,
            parts,
        })
    }

    /// The bucket where this file has that, whatever it had; a file that has nothing is not in it.
    ///
    /// # Errors
    ///
    /// `AllocError` where the memory for it was refused.
    pub fn with_file(&self, alloc: Global, file: LockedFile) -> Result<LockBucket, AllocError>
        ensures { IfOk result (IsInserted self.now file) }
    {
        let index = part_index(file.number());
        let others = others(alloc, files_at(&self.parts, index), file.number())?;
        let files = with_file(others, file)?;
        let parts = with_part(alloc, &self.parts, index, files)?;
        Ok(LockBucket {
            given: self.given,
            parts,
        })
    }

    /// The bucket where the file with this number has nothing.
    ///
    /// # Errors
    ///
    /// `AllocError` where the memory for it was refused.
    pub fn without_file(&self, alloc: Global, number: u64) -> Result<LockBucket, AllocError>
        ensures { IfOk result (λ bucket. bucket ≡ without_file number self.now) }
    {
        let index = part_index(number);
        let files = others(alloc, files_at(&self.parts, index), number)?;
        let parts = with_part(alloc, &self.parts, index, files)?;
        Ok(LockBucket {
            given: self.given,
            parts,
        })
    }
}

/// The index of the bucket that the file with this number is in, and that gave a grant this number.
pub fn bucket_index(number: u64) -> u8
    ensures index { result ≡ number % bucket_count }
    ensures within { result < bucket_count }
{
    (number % u64::from(LOCK_BUCKETS)) as u8
}

/// The index of the part, in its bucket, that the file with this number is in.
fn part_index(number: u64) -> u8
    ensures { result ≡ part_index number }
{
    (number / u64::from(LOCK_BUCKETS) % LOCK_PARTS) as u8
}
