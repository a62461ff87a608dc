//! The entries of a view, which are few at most calls.

ghost use Rattle.std.specs.Prelude.{◌≡◌, ◌+◌, ◌<◌, ◌≤◌, [], ◌∷◌, ◌++◌, None};
ghost use Rattle.std.specs.Prelude.{OnOk, length, map, option_map, slice_get};
ghost use Rattle.std.specs.Arc.{arc_value};
ghost use Rattle.std.specs.Cmp.Lexicographic.{pointwise};
ghost use Rattle.indexmap.specs.IndexMap.{spare};
ghost use Rattle.nfs_objects.specs.Same.{same_seen};
ghost use Rattle.nfs_objects.specs.Values.{seen_at, seen_of, shown_at};

use super::Entry;
use crate::address::{Addr, is_same};
use indexmap::IndexMap;
use std::alloc::{AllocError, Global};
use std::marker::Model;

/// So many entries are searched one by one.
const FEW: usize = 8;

/// What a view has read, each address once and in order of adding: the first few in a vector, which is searched from
/// the front, and those behind them in a map.
#[derive(Drop)]
pub(crate) struct ViewEntries {
    first: Vec<(Addr, Entry)>,
    behind: Option<Box<IndexMap<Addr, Entry>>>,
}

impl Model for ViewEntries {
    ghost use Rattle.std.specs.Prelude.{◌-◌, ◌++◌, length, map, vec_capacity};
    ghost use Rattle.nfs_objects.specs.Rooms.{EntriesValue, mapped, room_behind};
    ghost use Rattle.nfs_objects.specs.Values.{seen_of};

    ghost Value = { EntriesValue };

    ghost view = { λ v. record {
      seen = map seen_of v.first.items ++ map seen_of (mapped v.behind);
      room = room_behind v.behind (vec_capacity v.first - length v.first.items);
    } };
}

impl ViewEntries {
    /// No entry, and no room.
    pub(crate) fn new(alloc: Global) -> ViewEntries
        ensures { result ≡ record { seen = []; room = 0 } }
    {
        ViewEntries {
            first: Vec::new(alloc),
            behind: None,
        }
    }

    /// How many there are.
    pub(crate) fn len(&self) -> usize
        ensures { result ≡ length self.now.seen }
    {
        match &self.behind {
            Some(map) => self.first.len() + map.len(),
            None => self.first.len(),
        }
    }

    /// What is known of an address.
    pub(crate) fn get(&self, address: Addr) -> Option<&Entry>
        ensures { option_map (λ e. option_map arc_value e.now.object) result ≡ shown_at self.now.seen address }
    {
        for pair in &self.first {
            if is_same(pair.0, address) {
                return Some(&pair.1);
            }
        }
        self.behind.as_ref()?.get(&address)
    }

    /// The entry at a place, in order of adding.
    pub(crate) fn at(&self, place: usize) -> Option<(Addr, &Entry)>
        ensures { option_map (λ e. seen_of (e.0, e.1.now)) result ≡ slice_get self.now.seen place }
    {
        if place < self.first.len() {
            let pair = &self.first[place];
            return Some((pair.0, &pair.1));
        }
        let (address, entry) = self.behind.as_ref()?.get_index(place - self.first.len())?;
        Some((*address, entry))
    }

    /// Whether these are the same entries in the same order.
    pub(crate) fn equals(&self, other: &ViewEntries) -> bool
        ensures { result ≡ pointwise same_seen self.now.seen other.now.seen }
    {
        for place in 0..self.len() {
            let Some(mine) = self.at(place) else {
                return false;
            };
            let Some(theirs) = other.at(place) else {
                return false;
            };
            if !are_one(mine, theirs) {
                return false;
            }
        }
        other.at(self.len()).is_none()
    }

    /// Makes room for so many more. The entries stay, also where the memory is refused.
    pub(crate) fn reserve(&mut self, count: usize) -> Result<(), AllocError>
        ensures ok { OnOk result (count ≤ self.new.room) }
        ensures kept { self.new.seen ≡ self.old.seen }
    {
        match &mut self.behind {
            Some(map) => map.reserve(count),
            None if count <= FEW && self.first.len() <= FEW - count => self.first.reserve(count),
            None => {
                let alloc = *self.first.allocator();
                let map = IndexMap::with_capacity(alloc, count)?;
                self.behind = Some(Box::new(alloc, map)?);
                Ok(())
            }
        }
    }

    /// Adds what is known of an address, last. It cannot fail.
    pub(crate) fn push(&mut self, address: Addr, entry: Entry)
        requires room { 0 < self.old.room }
        requires unseen { seen_at self.old.seen address ≡ None }
        ensures seen { self.new.seen ≡ self.old.seen ++ seen_of (address, entry) ∷ [] }
        ensures room { self.old.room ≤ self.new.room + 1 }
    {
        match &mut self.behind {
            Some(map) => add_last(map, address, entry),
            None => self.first.push_reserved((address, entry)),
        }
    }
}

/// Whether these are the same entry of the same address.
fn are_one(mine: (Addr, &Entry), theirs: (Addr, &Entry)) -> bool
    ensures { result ≡ same_seen (seen_of (mine.entry.0, mine.entry.1.now))
        (seen_of (theirs.entry.0, theirs.entry.1.now)) }
{
    is_same(mine.0, theirs.0) && mine.1 == theirs.1
}

/// Adds what is known of an address to a map that has room for it.
fn add_last(entries: &mut IndexMap<Addr, Entry>, address: Addr, entry: Entry)
    requires room { 0 < spare entries.old }
    requires unseen { seen_at (map seen_of entries.old.entries) address ≡ None }
    ensures entries { map seen_of entries.new.entries
        ≡ map seen_of entries.old.entries ++ seen_of (address, entry) ∷ [] }
    ensures room { spare entries.old ≤ spare entries.new + 1 }
{
    entries.insert(address, entry).unwrap();
}
