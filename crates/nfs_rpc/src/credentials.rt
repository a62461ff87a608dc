//! Who calls.

ghost use Rattle.std.specs.Prelude.{◌≡◌, ◌<◌, ◌≤◌, ◌==◌, IsTrue, ◌↔◌, Contains, []};
ghost use Rattle.std.specs.Prelude.{◌++◌, ◌∷◌, length};

use std::marker::Model;

/// The most groups that a credential names besides the first (RFC 5531, appendix A).
pub const GIDS_LIMIT: usize = 16;

/// The groups of a caller besides the first, at most 16. A clause sees them as a list.
#[derive(Clone, Copy, PartialEq, Eq)]
pub struct Gids {
    groups: [u32; GIDS_LIMIT],
    count: usize,
}

impl Model for Gids {
    ghost use Rattle.std.specs.Prelude.{List, ℕ};

    ghost Value = { List ℕ };

    ghost use Rattle.nfs_rpc.specs.Gids.{gids_of, AreGids, inside_of};
    ghost use Rattle.nfs_rpc.specs.GidsLaws.{inside_of-gids_of};

    ghost view = { gids_of };

    ghost invariant = { AreGids };

    ghost inverse = { inside_of };

    ghost inverse_ok = { inside_of-gids_of };
}

impl Gids {
    /// No groups.
    pub fn new() -> Self
        ensures { result ≡ [] }
    {
        Gids {
            groups: [0; GIDS_LIMIT],
            count: 0,
        }
    }

    /// The groups.
    pub fn as_slice(&self) -> &[u32]
        ensures value { result.now ≡ self.now }
        ensures within { length self.now ≤ GIDS_LIMIT }
    {
        &self.groups[..self.count]
    }

    /// How many there are.
    pub fn len(&self) -> usize
        ensures value { result ≡ length self.now }
        ensures within { result ≤ GIDS_LIMIT }
    {
        self.as_slice().len()
    }

    /// Whether there are none.
    pub fn is_empty(&self) -> bool
        ensures { result ≡ (length self.now == 0) }
    {
        self.as_slice().is_empty()
    }

    /// Adds a group behind the others.
    pub fn push(&mut self, gid: u32)
        requires { length self.old < GIDS_LIMIT }
        ensures { self.new ≡ self.old ++ gid ∷ [] }
    {
        self.groups[self.count] = gid;
        self.count += 1;
    }

    /// Whether the group is one of them.
    pub fn contains(&self, gid: u32) -> bool
        ensures { IsTrue result ↔ Contains self.now gid }
    {
        self.as_slice().contains(&gid)
    }
}

/// Who calls: the user, the group, and further groups.
#[derive(Clone, Copy, PartialEq, Eq)]
pub struct Ids {
    pub uid: u32,
    pub gid: u32,
    pub gids: Gids,
}
