//! Directories: names, what they lead to, and their cookies.

ghost use Rattle.std.specs.Prelude.{◌≡◌, [], ◌∷◌, ◌++◌, ◌==◌, ◌<◌, length, IfOk, None, filter};
ghost use Rattle.std.specs.Prelude.{find, not};
ghost use Rattle.std.specs.Prelude.{option_map};
ghost use Rattle.std.proofs.Common.{ap, nat_eq, rules};
ghost use Rattle.std.specs.Cmp.Lexicographic.{bytes_decides, nat_list_eq_equiv, pointwise};
ghost use Rattle.std.specs.Cmp.Rules.{hashing};
ghost use Rattle.std.specs.Hash as fed;
ghost use Rattle.nfs_machine.specs.Bytes.{same_bytes};
ghost use Rattle.nfs_machine.specs.RemoveSteps.{without};
ghost use Rattle.nfs_objects.specs.Directories.{AreApart, part_among};
ghost use Rattle.nfs_objects.specs.Entries.{entry, leaf_of};

use crate::entry_map::EntryMap;
use crate::hashing::part_among;
use bytes::Bytes;
use indexmap::{Equivalent, IndexMap};
use nfs_machine::NameKey;
use std::alloc::{AllocError, Global};
use std::hash::{Hash, Hasher};
use std::marker::Model;

/// What a name leads to, with the cookie that pages go by (RFC 1813, 3.3.16).
#[derive(Clone, Copy, Debug, PartialEq, Eq)]
pub struct Leaf {
    /// The object's number.
    pub number: u64,
    /// Above 2, and rising with each name that comes.
    pub cookie: u64,
}

/// A name to look up. It is hashed and compared as the names of a map are.
#[derive(Clone, Copy, PartialEq, Eq)]
struct Name<'a> {
    bytes: &'a [u8],
}

impl<'a> Hash for Name<'a> {
    ghost hash_input = { λ name. fed.slice fed.u8 name.bytes.now };

    ghost respects_eq = { Prim.search (hashing, rules) };

    fn hash<H: Hasher>(&self, state: &mut H) {
        self.bytes.hash(state);
    }
}

impl<'a> Equivalent<Bytes> for Name<'a> {
    ghost equivalent = { λ name key. pointwise nat_eq name.bytes.now key };

    ghost respects_hash = { λ name key same. ap (fed.slice fed.u8) ((bytes_decides name.bytes.now key).0 same) };

    ghost respects_eq = { λ name x y. nat_list_eq_equiv.congr name.bytes.now x y };

    fn equivalent(&self, key: &Bytes) -> bool {
        self.bytes == key.as_slice()
    }
}

/// Names of a directory, each once, with what they lead to. A clause sees them as a list. They are never changed: one
/// name more or less makes others.
#[derive(Drop)]
pub struct Entries {
    map: IndexMap<Bytes, Leaf>,
}

impl Model for Entries {
    ghost use Rattle.std.specs.Prelude.{List};
    ghost use Rattle.nfs_machine.specs.State.{Entry};
    ghost use Rattle.nfs_objects.specs.Entries.{entries_of_pairs};

    ghost Value = { List Entry };

    ghost view = { λ e. entries_of_pairs e.map.entries };
}

impl Entries {
    /// No name.
    pub fn new(alloc: Global) -> Entries
        ensures { result ≡ [] }
    {
        Entries {
            map: IndexMap::new(alloc),
        }
    }

    /// How many names there are.
    pub fn len(&self) -> usize
        ensures { result ≡ length self.now }
    {
        self.map.len()
    }

    /// Whether there are no names.
    pub fn is_empty(&self) -> bool
        ensures { result ≡ (length self.now == 0) }
    {
        self.len() == 0
    }

    /// What the name leads to; None where it is not there.
    pub fn find(&self, name: &[u8]) -> Option<Leaf>
        ensures { result ≡ option_map leaf_of (find (λ e. same_bytes e.name name.now) self.now) }
    {
        self.map.get(Name { bytes: name }).copied()
    }

    /// The same with this entry last, where the name is not there. The entries themselves stay as they are.
    ///
    /// # Errors
    ///
    /// There is no memory for the copy.
    pub fn with_entry(&self, name: &Bytes, leaf: Leaf) -> Result<Entries, AllocError>
        ensures { IfOk result (λ entries.
            find (λ e. same_bytes e.name name.now) self.now ≡ None → entries ≡ self.now ++ entry name.now leaf ∷ []) }
    {
        let mut map = self.map.clone()?;
        map.insert(name.clone()?, leaf)?;
        Ok(Entries { map })
    }

    /// The same without this name. The entries themselves stay as they are.
    ///
    /// # Errors
    ///
    /// There is no memory for the copy.
    pub fn without_name(&self, name: &[u8]) -> Result<Entries, AllocError>
        ensures { IfOk result (λ entries. entries ≡ without self.now name.now) }
    {
        let mut map = self.map.clone()?;
        map.retain(
            |key: &Bytes, leaf: &mut Leaf| -> bool
                ensures { (result ≡ not (same_bytes key.now name.entry.now)) × (leaf.new ≡ leaf.old) }
            { key.as_slice() != name },
        );
        Ok(Entries { map })
    }

    /// Those of them whose names are by this key in this part of a bucket of so many. The entries themselves stay as
    /// they are.
    ///
    /// # Errors
    ///
    /// There is no memory for the copy.
    pub fn in_part(&self, key: &NameKey, width: u32, part: u32) -> Result<Entries, AllocError>
        ensures { IfOk result (λ entries.
            entries ≡ filter (λ e. part_among key.now width e.name == part) self.now) }
    {
        let mut map = self.map.clone()?;
        map.retain(
            |name: &Bytes, leaf: &mut Leaf| -> bool
                ensures { (result ≡ (part_among key.entry.now width name.now == part)) × (leaf.new ≡ leaf.old) }
            { part_among(key, width, name.as_slice()) == part },
        );
        Ok(Entries { map })
    }

    /// These and others, none of whose names is among these.
    ///
    /// # Errors
    ///
    /// There is no memory for the copy.
    pub fn joined(&self, others: &Entries) -> Result<Entries, AllocError>
        ensures { IfOk result (λ entries. AreApart self.now others.now → entries ≡ self.now ++ others.now) }
    {
        let mut map = self.map.clone()?;
        for place in 0..others.map.len() {
            let (name, leaf) = others.map.get_index(place).unwrap();
            map.insert(name.clone()?, *leaf)?;
        }
        Ok(Entries { map })
    }
}

impl PartialEq for Entries {
    ghost use Rattle.std.specs.Bool.{Decides};
    ghost use Rattle.std.specs.Cmp.{decided, partial_equiv_from_equiv};
    ghost use Rattle.nfs_objects.specs.Same.{same_entry};
    ghost use Rattle.nfs_objects.specs.SameLaws.{entries_decide};

    ghost eq = { pointwise same_entry };

    ghost laws = { partial_equiv_from_equiv (decided (pointwise same_entry) entries_decide) };

    fn eq(&self, other: &Entries) -> bool
        ensures test { result ≡ pointwise same_entry self.now other.now }
        ensures same { Decides result (self.now ≡ other.now) }
    {
        self.map.as_slice() == other.map.as_slice()
    }
}

impl Eq for Entries {
    ghost use Rattle.std.specs.Cmp.{decided};
    ghost use Rattle.nfs_objects.specs.Same.{same_entry};
    ghost use Rattle.nfs_objects.specs.SameLaws.{entries_decide};

    ghost laws = { decided (pointwise same_entry) entries_decide };
}

/// A directory (RFC 1813, 2.5: NF3DIR), but for its entries, which stand in pages and parts of their own.
#[derive(Drop)]
pub struct Directory {
    /// The number of the directory that it is named in; of a root, its own.
    pub parent: u64,
    /// The greatest cookie that it ever used; `.` and `..` have 1 and 2.
    pub last_cookie: u64,
    pub entries: EntryMap,
}

/// The cookie of `..`, the greatest that a new directory has used (RFC 1813, 3.3.16).
const ABOVE_COOKIE: u64 = 2;

impl Directory {
    ghost use Rattle.nfs_objects.specs.Directories.{bare_directory};

    /// A directory with no entry, which is named in this one, and whose names are placed by this key.
    ///
    /// # Errors
    ///
    /// There is no memory for it.
    pub fn empty(alloc: Global, parent: u64, key: NameKey) -> Result<Directory, AllocError>
        ensures { IfOk result (λ directory. directory ≡ bare_directory parent key) }
    {
        Ok(Directory {
            parent,
            last_cookie: ABOVE_COOKIE,
            entries: EntryMap::none(alloc, key)?,
        })
    }
}

impl Clone for Directory {
    ghost is_clone = { λ directory copy. copy ≡ directory };

    fn clone(&self) -> Result<Directory, AllocError> {
        Ok(Directory {
            parent: self.parent,
            last_cookie: self.last_cookie,
            entries: self.entries.clone()?,
        })
    }
}

impl PartialEq for Directory {
    ghost use Rattle.std.specs.Bool.{Decides};
    ghost use Rattle.std.specs.Cmp.{decided, partial_equiv_from_equiv};
    ghost use Rattle.nfs_objects.specs.Same.{same_directory};
    ghost use Rattle.nfs_objects.specs.SameLaws.{directory_decides};

    ghost eq = { same_directory };

    ghost laws = { partial_equiv_from_equiv (decided same_directory directory_decides) };

    fn eq(&self, other: &Directory) -> bool
        ensures test { result ≡ same_directory self.now other.now }
        ensures same { Decides result (self.now ≡ other.now) }
    {
        self.parent == other.parent
            && self.last_cookie == other.last_cookie
            && self.entries == other.entries
    }
}

impl Eq for Directory {
    ghost use Rattle.std.specs.Cmp.{decided};
    ghost use Rattle.nfs_objects.specs.Same.{same_directory};
    ghost use Rattle.nfs_objects.specs.SameLaws.{directory_decides};

    ghost laws = { decided same_directory directory_decides };
}
