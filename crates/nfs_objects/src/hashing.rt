//! Where the names of a directory stand: first by buckets, and in each bucket by parts.
//!
//! A bucket has a part for each `PART_NAMES` names. It has one part more, or one less, by linear hashing: names of one
//! part alone move then, all to the new part or back from it.

ghost use Rattle.std.specs.Prelude.{◌≡◌, ◌<◌, ◌≤◌, ◌^◌};
ghost use Rattle.nfs_objects.specs.Directories.{bucket_of, digest, part_among, part_hashed, source_of, top_of};
ghost use Rattle.nfs_objects.specs.Directories.{width_of};

use nfs_machine::NameKey;
use std::hash::{DefaultHasher, Hasher};

/// How many buckets the names of a directory stand in.
pub const BUCKETS: u8 = 64;

/// How many names of a bucket there are for each of its parts.
const PART_NAMES: u32 = 8;

/// The bucket of a name: the sum of its bytes, modulo `BUCKETS`.
pub fn bucket_of(name: &[u8]) -> u8
    ensures which { result ≡ bucket_of name.now }
    ensures within { result < BUCKETS }
{
    let mut sum: u8 = 0;
    for byte in name {
        sum = sum.wrapping_add(*byte);
    }
    sum % BUCKETS
}

/// How many parts a bucket of so many names has; an empty one has none.
pub fn width_of(names: u32) -> u32
    ensures which { result ≡ width_of names }
    ensures small { result ≤ 2 ^ 29 }
{
    names.div_ceil(PART_NAMES)
}

/// The part of a name in a bucket of so many parts, where it has any. Whoever does not know the key of the directory
/// can't choose names that come into one part.
pub fn part_among(key: &NameKey, width: u32, name: &[u8]) -> u32
    ensures which { result ≡ part_among key.now width name.now }
    ensures within { 0 < width → result < width }
{
    if width < 2 {
        // It needs no hash.
        return 0;
    }
    part_hashed(width, digest(key, name))
}

/// The part of a name with this hash in a bucket of so many parts.
fn part_hashed(width: u32, hash: u64) -> u32
    requires { 0 < width }
    ensures which { result ≡ part_hashed width hash }
    ensures within { result < width }
{
    let top = u64::from(top_of(width));
    let place = hash % (top * 2);
    if place < u64::from(width) {
        place as u32
    } else {
        (hash % top) as u32
    }
}

/// The part of a bucket of so many parts whose names go to the new one, where it gets one part more.
pub fn source_of(width: u32) -> u32
    requires { 0 < width }
    ensures which { result ≡ source_of width }
    ensures within { result < width }
{
    width - top_of(width)
}

/// The greatest power of two up to a number.
fn top_of(width: u32) -> u32
    requires { 0 < width }
    ensures which { result ≡ top_of width }
    ensures least { 0 < result }
    ensures within { result ≤ width }
{
    1 << (31 - width.leading_zeros())
}

/// The hash of a name under a key. It reads all of its bytes, eight at a time.
#[tactic(auto, unfolding(crate::specs::Directories::digest))]
fn digest(key: &NameKey, name: &[u8]) -> u64
    ensures { result ≡ digest key.now name.now }
{
    let mut hasher = DefaultHasher::new();
    hasher.write(key);
    hasher.write(name);
    hasher.finish()
}
