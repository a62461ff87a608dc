//! A page of a directory: entries whose cookies lie near each other.

ghost use Rattle.std.specs.Prelude.{◌≡◌, ◌==◌, ◌<◌, ◌≤◌, [], ◌∷◌, ◌++◌, IfOk, drop};
ghost use Rattle.std.specs.Prelude.{length, option_map, slice_get};
ghost use Rattle.std.specs.Prelude.{ℕ, not};
ghost use Rattle.std.specs.Cmp.Lexicographic.{pointwise};
ghost use Rattle.nfs_machine.specs.Pages.{behind};
ghost use Rattle.nfs_machine.specs.WellFormed.{CookiesRise};
ghost use Rattle.nfs_objects.specs.Directories.{has_some};
ghost use Rattle.nfs_objects.specs.Entries.{entry, without_entry};

use crate::directory::Leaf;
use bytes::Bytes;
use std::alloc::{AllocError, Global};
use std::marker::Model;

/// How many cookies that follow each other a page of a directory has.
pub const PAGE_COOKIES: u64 = 64;

/// A name with what it leads to. A clause sees it as the machine's entry.
#[derive(Drop, PartialEq, Eq)]
pub struct NamedLeaf {
    pub name: Bytes,
    pub leaf: Leaf,
}

impl Model for NamedLeaf {
    ghost use Rattle.nfs_machine.specs.State.{Entry};
    ghost use Rattle.nfs_objects.specs.Entries.{entry, leaf_of};

    ghost Value = { Entry };

    ghost view = { λ n. entry n.name n.leaf };

    ghost inverse = { λ e. record { name = e.name; leaf = leaf_of e } };
}

impl Clone for NamedLeaf {
    ghost is_clone = { λ named copy. copy ≡ named };

    fn clone(&self) -> Result<NamedLeaf, AllocError> {
        Ok(NamedLeaf {
            name: self.name.clone()?,
            leaf: self.leaf,
        })
    }
}

/// Some entries of a directory, in its order. A clause sees them as a list.
#[derive(Drop)]
pub struct EntryPage {
    entries: Vec<NamedLeaf>,
}

impl Model for EntryPage {
    ghost use Rattle.std.specs.Prelude.{List};
    ghost use Rattle.nfs_machine.specs.State.{Entry};

    ghost Value = { List Entry };

    ghost view = { λ p. p.entries.items };
}

impl EntryPage {
    /// No entry.
    pub fn new(alloc: Global) -> EntryPage
        ensures { result ≡ [] }
    {
        EntryPage {
            entries: Vec::new(alloc),
        }
    }

    /// How many entries there are.
    pub fn len(&self) -> usize
        ensures { result ≡ length self.now }
    {
        self.entries.len()
    }

    /// Whether there are none.
    pub fn is_empty(&self) -> bool
        ensures { result ≡ not (has_some self.now) }
    {
        self.len() == 0
    }

    /// The entry at this place, from 0.
    pub fn get(&self, place: usize) -> Option<&NamedLeaf>
        ensures { option_map (λ named. named.now) result ≡ slice_get self.now place }
    {
        self.entries.get(place)
    }

    /// The place of the first entry behind a cookie, where cookies rise; without such an entry, how many there are. It
    /// is found by a binary search.
    pub fn place_behind(&self, cookie: u64) -> usize
        ensures within { result ≤ length self.now }
        ensures behind { (below last : ℕ) → CookiesRise below self.now last →
            drop result self.now ≡ behind cookie self.now }
    {
        self.entries
            .partition_point(|named| named.leaf.cookie <= cookie)
    }

    /// The same with this entry last. The entries themselves stay as they are.
    ///
    /// # Errors
    ///
    /// There is no memory for the copy.
    pub fn with_entry(
        &self,
        alloc: Global,
        name: &Bytes,
        leaf: Leaf,
    ) -> Result<EntryPage, AllocError>
        ensures { IfOk result (λ page. page ≡ self.now ++ entry name.now leaf ∷ []) }
    {
        let mut entries = Vec::with_capacity(alloc, self.entries.len() + 1)?;
        for named in &self.entries {
            entries.push(named.clone()?)?;
        }
        let name = name.clone()?;
        entries.push(NamedLeaf { name, leaf })?;
        Ok(EntryPage { entries })
    }

    /// The same without the entry that has this name and this cookie. The entries themselves stay as they are. A name
    /// is compared only where the cookie is the same.
    ///
    /// # Errors
    ///
    /// There is no memory for the copy.
    pub fn without_entry(
        &self,
        alloc: Global,
        name: &[u8],
        cookie: u64,
    ) -> Result<EntryPage, AllocError>
        ensures { IfOk result (λ page. page ≡ without_entry self.now name.now cookie) }
    {
        let mut entries = Vec::with_capacity(alloc, self.entries.len())?;
        for named in &self.entries {
            if named.leaf.cookie != cookie || named.name.as_slice() != name {
                entries.push(named.clone()?)?;
            }
        }
        Ok(EntryPage { entries })
    }
}

impl PartialEq for EntryPage {
    ghost use Rattle.std.specs.Bool.{Decides};
    ghost use Rattle.std.specs.Cmp.{decided, partial_equiv_from_equiv};
    ghost use Rattle.nfs_objects.specs.Same.{same_entry};
    ghost use Rattle.nfs_objects.specs.SameLaws.{entries_decide};

    ghost eq = { pointwise same_entry };

    ghost laws = { partial_equiv_from_equiv (decided (pointwise same_entry) entries_decide) };

    fn eq(&self, other: &EntryPage) -> bool
        ensures test { result ≡ pointwise same_entry self.now other.now }
        ensures same { Decides result (self.now ≡ other.now) }
    {
        self.entries == other.entries
    }
}

impl Eq for EntryPage {
    ghost use Rattle.std.specs.Cmp.{decided};
    ghost use Rattle.nfs_objects.specs.Same.{same_entry};
    ghost use Rattle.nfs_objects.specs.SameLaws.{entries_decide};

    ghost laws = { decided (pointwise same_entry) entries_decide };
}
