//! What the objects of an export use together (RFC 1813, 3.3.18).
//!
//! The objects of an export are counted in 64 groups, by their numbers, so that calls that change different objects
//! seldom wait for each other. What a group uses stands at an address of its own, where nothing stands as long as the
//! group is empty.

ghost use Rattle.std.specs.Prelude.{◌≡◌, ◌+◌, ◌*◌, ◌/◌, option_map};
ghost use Rattle.std.specs.Arc.{arc_value};
ghost use Rattle.nfs_machine.specs.Attributes.{block};
ghost use Rattle.nfs_objects.specs.Sums.{group_of, is_none, moved, no_usage, one_using, together, usage_of};

use crate::object::Object;
use std::sync::Arc;

/// How many groups the objects of an export are counted in.
pub const GROUPS: u8 = 64;

/// What objects use together. Numbers are below 2^64, and sizes below 2^63: so the sums of all objects of a store stay
/// below 2^128.
#[derive(Clone, Copy, Debug, PartialEq, Eq)]
pub struct Usage {
    /// In bytes (RFC 1813, 2.5: used).
    pub used: u128,
    /// How many objects there are.
    pub objects: u128,
}

/// The unit in which space is used, in bytes (RFC 1813, 2.5: used).
const BLOCK: u128 = 4096;

impl Usage {
    /// The share of one object of this size, in bytes.
    pub fn of_one(size: u64) -> Usage
        ensures { result ≡ one_using ((size + 4095) / block * block) }
    {
        Usage {
            used: (u128::from(size) + (BLOCK - 1)) / BLOCK * BLOCK,
            objects: 1,
        }
    }

    /// That of no object.
    pub fn none() -> Usage
        ensures { result ≡ no_usage }
    {
        Usage {
            used: 0,
            objects: 0,
        }
    }

    /// Whether it is that of no object.
    pub fn is_none(self) -> bool
        ensures { result ≡ is_none self }
    {
        self.used == 0 && self.objects == 0
    }

    /// The sums of both. They stay within their 128 bits.
    pub fn together(self, other: Usage) -> Usage
        ensures { result ≡ together self other }
    {
        Usage {
            used: self.used.saturating_add(other.used),
            objects: self.objects.saturating_add(other.objects),
        }
    }

    /// The sums once the share `before` gave way to the share `after`. They stay within their 128 bits.
    pub fn moved(self, before: Usage, after: Usage) -> Usage
        ensures { result ≡ moved before after self }
    {
        Usage {
            used: self
                .used
                .saturating_sub(before.used)
                .saturating_add(after.used),
            objects: self
                .objects
                .saturating_sub(before.objects)
                .saturating_add(after.objects),
        }
    }
}

/// The group that the object with this number is counted in, below `GROUPS`.
pub fn group_of(number: u64) -> u8
    ensures { result ≡ group_of number }
{
    (number % u64::from(GROUPS)) as u8
}

/// What stands for a group where this is known; that of no object where nothing does, or what is no usage.
pub fn usage_known(known: &Option<Arc<Object>>) -> Usage
    ensures { result ≡ usage_of (option_map arc_value known.now) }
{
    match known.as_deref() {
        Some(Object::Usage(usage)) => *usage,
        _ => Usage::none(),
    }
}
