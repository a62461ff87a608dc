//! A map by key that grows without moving all that it holds at once.

ghost use Rattle.std.specs.Prelude.{◌≡◌, ◌+◌, ◌-◌, ◌^◌, ◌<◌, ◌≤◌, ◌++◌, [], IsFalse, IsOk, IsTrue, None, OnErr, OnOk};
ghost use Rattle.std.specs.Prelude.{Some, if◌then◌else◌, is_some, length, option_copied};
ghost use Rattle.std.specs.Borrow.{sem};
ghost use Rattle.std.specs.List.{IsDistinct};
ghost use Rattle.std.specs.Map.{keys_of, lookup};
ghost use Rattle.std.specs.Option.{option_copied_mut};
ghost use Rattle.nfs_tables.specs.Lending.{lends_value};
ghost use Rattle.nfs_tables.specs.Tables.{Changes, Keeps, entries, value_at};

use crate::placing::Placing;
use indexmap::IndexMap;
use std::alloc::{AllocError, Global};
use std::hash::Hash;
use std::marker::Model;
use std::mem;

/// So many entries are moved with each new one.
const MOVES: usize = 4;

/// A table with fewer entries grows where it stands.
const FEW: usize = 4096;

/// A map by key. Where it has many entries and no room it takes a larger map beside the one that it has, and a few
/// entries move there with each new one, so that no call places all of them anew. Where there is no memory for a second
/// map, or more room is wanted at once than entries that move make, it grows where it stands.
#[derive(Drop)]
pub struct Table<K: Eq + Hash, V> {
    /// What is still to be moved.
    waiting: IndexMap<K, V, Placing>,
    /// All else, with room for what is to be moved.
    placed: IndexMap<K, V, Placing>,
}

impl<K: Eq + Hash, V> Model for Table<K, V> {
    ghost use Rattle.nfs_tables.specs.Tables.{IsTable, TableValue, table_of};

    ghost Value = { TableValue K V };

    ghost view = { λ t. table_of t.waiting t.placed };

    ghost invariant = { λ t. IsTable K.eq t.waiting t.placed };
}

impl<K: Eq + Hash + Drop, V: Drop> Table<K, V> {
    /// An empty table, which takes no memory. Its keys are placed so.
    pub fn new(alloc: Global, placing: Placing) -> Table<K, V>
        ensures { entries result ≡ [] }
    {
        Table {
            waiting: IndexMap::with_hasher(alloc, placing),
            placed: IndexMap::with_hasher(alloc, placing),
        }
    }

    /// How many entries there are.
    pub fn len(&self) -> usize
        ensures len { result ≡ length (entries self.now) }
        ensures small { result < 2 ^ 64 }
    {
        self.waiting.len() + self.placed.len()
    }

    /// What stands at a key.
    pub fn get(&self, key: &K) -> Option<&V>
        ensures value { option_copied result ≡ value_at K.eq self.now key.now }
    {
        match self.placed.get(key) {
            Some(value) => Some(value),
            None => self.waiting.get(key),
        }
    }

    /// Whether something stands at a key.
    pub fn contains_key(&self, key: &K) -> bool
        ensures { result ≡ is_some (value_at K.eq self.now key.now) }
    {
        self.get(key).is_some()
    }

    /// What stands at a key, to write.
    pub fn get_mut(&mut self, key: &K) -> Option<&mut V>
        ensures* writes_back { sem 𝓛 (lends_value K.row V.row K.Hash self.entry key.now result) }
        ensures value { option_copied_mut result ≡ value_at K.eq self.old key.now }
    {
        if self.is_waiting(key) {
            self.waiting_mut(key)
        } else {
            self.placed_mut(key)
        }
    }

    /// Adds an entry with a key that is not there. Where there was room some entries move.
    ///
    /// # Errors
    ///
    /// There is no memory for it. All entries stay.
    pub fn add(&mut self, key: K, value: V) -> Result<(), AllocError>
        requires absent { value_at K.eq self.old key ≡ None }
        ensures ok { OnOk result (Changes K.eq self.old self.new key (Some value)) }
        ensures err { OnErr result (entries self.new ≡ entries self.old) }
        ensures succeeds { 0 < self.old.room → IsOk result }
        ensures room { self.old.room ≤ self.new.room + 1 }
        ensures moves { 0 < self.old.room → length self.new.waiting ≡ length self.old.waiting - MOVES }
    {
        self.reserve(1)?;
        self.move_some();
        self.push(key, value);
        Ok(())
    }

    /// Takes what stands at a key out of the table.
    pub fn remove(&mut self, key: &K) -> Option<V>
        ensures value { result ≡ value_at K.eq self.old key.now }
        ensures changes { Changes K.eq self.old self.new key.now None }
        ensures room { self.old.room ≤ self.new.room }
        ensures len { length (entries self.new) + (if is_some result then 1 else 0) ≡ length (entries self.old) }
    {
        match self.placed.swap_remove(key) {
            Some(value) => Some(value),
            None => self.waiting.swap_remove(key),
        }
    }

    /// Makes room for so many more entries. Where it is there already, nothing is done.
    ///
    /// # Errors
    ///
    /// There is no memory for it.
    pub fn reserve(&mut self, additional: usize) -> Result<(), AllocError>
        ensures entries { entries self.new ≡ entries self.old }
        ensures ok { OnOk result (additional ≤ self.new.room) }
        ensures room { self.old.room ≤ self.new.room }
        ensures there { additional ≤ self.old.room → IsOk result }
        ensures same { additional ≤ self.old.room → self.new ≡ self.old }
    {
        if additional <= self.room() {
            return Ok(());
        }
        if self.is_large() && self.enlarge(additional).is_ok() {
            return Ok(());
        }
        self.grow(additional)
    }

    /// The maps in which the entries stand.
    pub fn parts(&self) -> (&IndexMap<K, V, Placing>, &IndexMap<K, V, Placing>)
        ensures entries { entries self.now ≡ result.0.now.entries ++ result.1.now.entries }
        ensures once { IsDistinct K.eq (keys_of (entries self.now)) }
    {
        // Their lengths bring that each has a key once.
        let _ = self.waiting.len();
        let _ = self.placed.len();
        (&self.waiting, &self.placed)
    }

    /// For how many more entries there is room.
    pub fn room(&self) -> usize
        ensures { result ≡ self.now.room }
    {
        self.placed.capacity() - self.placed.len() - self.waiting.len()
    }

    /// Whether a key is still to be moved.
    fn is_waiting(&self, key: &K) -> bool
        ensures waits { IsTrue result → lookup (K.eq key.now) self.now.placed ≡ None }
        ensures stays { IsFalse result → lookup (K.eq key.now) self.now.waiting ≡ None }
    {
        !self.waiting.is_empty() && self.waiting.contains_key(key)
    }

    /// What stands at a key that stays where it is, to write.
    fn placed_mut(&mut self, key: &K) -> Option<&mut V>
        requires { lookup (K.eq key.now) self.old.waiting ≡ None }
        ensures* writes_back { sem 𝓛 (lends_value K.row V.row K.Hash self.entry key.now result) }
        ensures value { option_copied_mut result ≡ value_at K.eq self.old key.now }
    {
        self.placed.get_mut(key)
    }

    /// What stands at a key that is still to be moved, to write.
    fn waiting_mut(&mut self, key: &K) -> Option<&mut V>
        requires { lookup (K.eq key.now) self.old.placed ≡ None }
        ensures* writes_back { sem 𝓛 (lends_value K.row V.row K.Hash self.entry key.now result) }
        ensures value { option_copied_mut result ≡ value_at K.eq self.old key.now }
    {
        self.waiting.get_mut(key)
    }

    /// Whether it has so many entries that they are not to move at once, and all of them stand in one map.
    fn is_large(&self) -> bool
        ensures { IsTrue result → self.now.waiting ≡ [] }
    {
        self.waiting.is_empty() && self.placed.len() >= FEW
    }

    /// Takes a larger map, to which all entries are to be moved.
    fn enlarge(&mut self, additional: usize) -> Result<(), AllocError>
        requires { self.old.waiting ≡ [] }
        ensures entries { entries self.new ≡ entries self.old }
        ensures ok { OnOk result (additional ≤ self.new.room) }
        ensures same { OnErr result (self.new ≡ self.old) }
    {
        let len = self.placed.len();
        let Some(capacity) = len.checked_add(additional.max(len)) else {
            return Err(AllocError);
        };
        let larger = IndexMap::with_capacity_and_hasher(
            *self.placed.allocator(),
            capacity,
            *self.placed.hasher(),
        )?;
        self.waiting = mem::replace(&mut self.placed, larger);
        Ok(())
    }

    /// Makes room in the map that it has, where all entries are placed anew.
    fn grow(&mut self, additional: usize) -> Result<(), AllocError>
        ensures entries { entries self.new ≡ entries self.old }
        ensures ok { OnOk result (additional ≤ self.new.room) }
        ensures room { self.old.room ≤ self.new.room }
    {
        let Some(wanted) = additional.checked_add(self.waiting.len()) else {
            return Err(AllocError);
        };
        self.placed.reserve(wanted)
    }

    /// Moves a few of the entries that are still to be moved.
    fn move_some(&mut self)
        ensures keeps { Keeps K.eq self.old self.new }
        ensures room { self.old.room ≤ self.new.room }
        ensures waiting { length self.new.waiting ≡ length self.old.waiting - MOVES }
    {
        for _moved in 0..MOVES {
            self.move_one();
        }
        self.let_go();
    }

    /// Moves one of the entries that are still to be moved.
    fn move_one(&mut self)
        ensures keeps { Keeps K.eq self.old self.new }
        ensures room { self.old.room ≤ self.new.room }
        ensures waiting { length self.new.waiting ≡ length self.old.waiting - 1 }
    {
        let Some((key, moved)) = self.waiting.pop() else {
            return;
        };
        self.placed.insert(key, moved).unwrap();
    }

    /// Gives back the memory of the map from which entries move, once none is left in it.
    fn let_go(&mut self)
        ensures { self.new ≡ self.old }
    {
        if self.waiting.is_empty() && self.waiting.capacity() > 0 {
            self.waiting = IndexMap::with_hasher(*self.waiting.allocator(), *self.placed.hasher());
        }
    }

    /// Adds an entry with a key that is not there, for which there is room.
    fn push(&mut self, key: K, value: V)
        requires absent { value_at K.eq self.old key ≡ None }
        requires space { 0 < self.old.room }
        ensures changes { Changes K.eq self.old self.new key (Some value) }
        ensures room { self.old.room ≤ self.new.room + 1 }
        ensures waiting { length self.new.waiting ≡ length self.old.waiting }
    {
        self.placed.insert(key, value).unwrap();
    }
}
