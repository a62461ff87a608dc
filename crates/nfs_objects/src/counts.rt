//! How many names a directory has, bucket by bucket.

ghost use Rattle.std.specs.Prelude.{◌≡◌, ◌<◌, ◌≤◌, ◌^◌, IfOk, replicate};
ghost use Rattle.std.specs.Arc.{arc_value};
ghost use Rattle.nfs_objects.specs.Directories.{count_in, counted_down, counted_up, width_in, width_of, with_count};

use crate::hashing::width_of;
use std::alloc::{AllocError, Global};
use std::marker::Model;
use std::sync::Arc;

/// A number for each bucket.
#[derive(Clone, Copy, PartialEq, Eq)]
struct Numbers {
    buckets: [u32; 64],
}

/// How many names are in each bucket of a directory; 2^32 - 1 says no more than that it is many. They are never
/// changed: clones share them, and one name more or less makes others.
#[derive(Drop)]
pub struct NameCounts {
    numbers: Arc<Numbers>,
}

impl Model for NameCounts {
    ghost use Rattle.std.specs.Prelude.{ℕ, List};
    ghost use Rattle.std.specs.Arc.{arc_value};

    ghost Value = { List ℕ };

    ghost view = { λ c. (arc_value c.numbers).buckets };
}

impl NameCounts {
    /// No name in any bucket.
    ///
    /// # Errors
    ///
    /// There is no memory for them.
    pub fn none(alloc: Global) -> Result<NameCounts, AllocError>
        ensures { IfOk result (λ counts. counts ≡ replicate 64 0) }
    {
        NameCounts::of(alloc, Numbers { buckets: [0; 64] })
    }

    fn of(alloc: Global, numbers: Numbers) -> Result<NameCounts, AllocError>
        ensures { IfOk result (λ counts. counts ≡ numbers.buckets) }
    {
        Ok(NameCounts {
            numbers: Arc::new(alloc, numbers)?,
        })
    }

    /// How many names are in a bucket.
    pub fn count(&self, bucket: u8) -> u32
        ensures { result ≡ count_in self.now bucket }
    {
        let numbers: &Numbers = &self.numbers;
        numbers
            .buckets
            .get(usize::from(bucket))
            .copied()
            .unwrap_or(0)
    }

    /// How many parts a bucket has.
    pub fn width(&self, bucket: u8) -> u32
        ensures which { result ≡ width_in self.now bucket }
        ensures small { result ≤ 2 ^ 29 }
    {
        width_of(self.count(bucket))
    }

    /// How many parts a bucket has with one name more.
    pub fn width_with_one_more(&self, bucket: u8) -> u32
        ensures which { result ≡ width_of (counted_up (count_in self.now bucket)) }
        ensures small { result ≤ 2 ^ 29 }
    {
        width_of(counted_up(self.count(bucket)))
    }

    /// How many parts a bucket has with one name less.
    pub fn width_with_one_less(&self, bucket: u8) -> u32
        ensures which { result ≡ width_of (counted_down (count_in self.now bucket)) }
        ensures small { result ≤ 2 ^ 29 }
    {
        width_of(counted_down(self.count(bucket)))
    }

    /// The same with one name more in a bucket.
    ///
    /// # Errors
    ///
    /// There is no memory for them.
    pub fn with_one_more(&self, alloc: Global, bucket: u8) -> Result<NameCounts, AllocError>
        requires { bucket < 64 }
        ensures { IfOk result (λ counts. counts ≡ with_count self.now bucket (counted_up (count_in self.now bucket))) }
    {
        let mut numbers = *self.numbers;
        numbers.buckets[usize::from(bucket)] = counted_up(self.count(bucket));
        NameCounts::of(alloc, numbers)
    }

    /// The same with one name less in a bucket.
    ///
    /// # Errors
    ///
    /// There is no memory for them.
    pub fn with_one_less(&self, alloc: Global, bucket: u8) -> Result<NameCounts, AllocError>
        requires { bucket < 64 }
        ensures { IfOk result
            (λ counts. counts ≡ with_count self.now bucket (counted_down (count_in self.now bucket))) }
    {
        let mut numbers = *self.numbers;
        numbers.buckets[usize::from(bucket)] = counted_down(self.count(bucket));
        NameCounts::of(alloc, numbers)
    }
}

/// One more than a count, if it can be told.
fn counted_up(count: u32) -> u32
    ensures { result ≡ counted_up count }
{
    count.saturating_add(1)
}

/// One less than a count; what is too many to be told stays so.
fn counted_down(count: u32) -> u32
    ensures { result ≡ counted_down count }
{
    if count == u32::MAX {
        count
    } else {
        count.saturating_sub(1)
    }
}

impl Clone for NameCounts {
    ghost is_clone = { λ counts copy. copy ≡ counts };

    fn clone(&self) -> Result<NameCounts, AllocError> {
        Ok(NameCounts {
            numbers: Arc::try_clone(&self.numbers)?,
        })
    }
}

impl PartialEq for NameCounts {
    ghost use Rattle.std.specs.Bool.{Decides};
    ghost use Rattle.std.specs.Cmp.{decided, partial_equiv_from_equiv};
    ghost use Rattle.nfs_machine.specs.Bytes.{same_bytes};
    ghost use Rattle.std.specs.Cmp.Lexicographic.{bytes_decides};

    ghost eq = { same_bytes };

    ghost laws = { partial_equiv_from_equiv (decided same_bytes bytes_decides) };

    fn eq(&self, other: &NameCounts) -> bool
        ensures test { result ≡ same_bytes self.now other.now }
        ensures same { Decides result (self.now ≡ other.now) }
    {
        *self.numbers == *other.numbers
    }
}

impl Eq for NameCounts {
    ghost use Rattle.std.specs.Cmp.{decided};
    ghost use Rattle.nfs_machine.specs.Bytes.{same_bytes};
    ghost use Rattle.std.specs.Cmp.Lexicographic.{bytes_decides};

    ghost laws = { decided same_bytes bytes_decides };
}
