//! How many replies are kept.

ghost use Rattle.std.specs.Prelude.{◌≡◌, ◌≤◌, ◌<◌, SomeIff};
ghost use Rattle.std.specs.NonZero.{non_zero_usize_get};

use std::marker::Model;
use std::num::NonZeroUsize;

/// How many replies are kept of each host: 1 to 65,536. A clause sees it as this number.
#[derive(Drop)]
pub struct Capacity {
    replies: NonZeroUsize,
}

impl Model for Capacity {
    ghost use Rattle.std.specs.Prelude.{ℕ, ◌≤◌};
    ghost use Rattle.std.specs.NonZero.{non_zero_usize_get};

    ghost Value = { ℕ };

    ghost view = { λ c. non_zero_usize_get c.replies };

    ghost invariant = { λ c. non_zero_usize_get c.replies ≤ 65536 };
}

impl Capacity {
    /// The most replies that may be kept of each host.
    pub const MAX: usize = 65_536;

    /// This capacity; None where it is 0, or above the greatest.
    pub fn new(replies: usize) -> Option<Capacity>
        ensures { SomeIff result ((0 < replies) × (replies ≤ Self.MAX)) replies }
    {
        if replies > Capacity::MAX {
            return None;
        }
        Some(Capacity {
            replies: NonZeroUsize::new(replies)?,
        })
    }

    /// The number.
    pub(crate) fn get(&self) -> NonZeroUsize
        ensures value { non_zero_usize_get result ≡ self.now }
        ensures some { 0 < self.now }
    {
        self.replies
    }
}
