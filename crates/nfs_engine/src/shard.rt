//! A shard: what stands at its addresses, and who holds them.

ghost use Rattle.std.specs.Prelude.{◌≡◌, ◌<◌, IsSome, MatchOption, OnErr, OnOk, None, Some, option_map};
ghost use Rattle.std.specs.Prelude.{IfOk, ◌-◌, ◌^◌, ◌≤◌, slice_index_or};
ghost use Rattle.std.specs.Arc.{arc_value};
ghost use Rattle.std.specs.Bool.{Decides};
ghost use Rattle.slab.specs.Slab.{ContainsKey, Updates};
ghost use Rattle.nfs_tables.specs.Tables.{entries};
ghost use Rattle.nfs_engine.specs.Found.{Changes, found};
ghost use Rattle.nfs_engine.specs.Holders.{IsExcluder};
ghost use Rattle.nfs_engine.specs.Locked.{IsLocked};
ghost use Rattle.nfs_engine.specs.Numbers.{IsFreeNumber, Moves};
ghost use Rattle.nfs_engine.specs.Shards.{Fills, IsHad, IsHeld, IsNew, IsReservedIn, Retakes, hold_at};
ghost use Rattle.nfs_engine.specs.Shards.{key_in, number_at, numbered, shard_of, shard_value};
ghost use Rattle.nfs_engine.specs.Shards.{slot_at, slot_value, slots_seen};

use crate::holders::Holders;
use crate::slot::{Slot, held_numbers, held_others};
use nfs_objects::{Addr, Mode, Object, Reserved};
use nfs_tables::{Placing, Table};
use slab::Slab;
use std::alloc::{AllocError, Global};
use std::marker::Model;
use std::sync::Arc;
use thiserror::Error;

/// How many shards there are.
pub const SHARDS: usize = 16;

/// A shard's map has so many free slots more than it has others, once a commit has added to it.
const FREE_SLOTS: usize = 8;

/// The generation that a shard gives first. Those of the roots, 1, lie below it.
const FIRST_GENERATION: u64 = 2;

/// The shard in which an address stands: an inode in that of its number modulo 16, and so the maps and blocks of a file
/// and the pages and parts of a directory; what a group of objects uses in that of the group modulo 16, the tables of
/// exports and of mounts in the first one.
pub fn shard_index(address: Addr) -> usize
    ensures which { result ≡ shard_of address }
    ensures within { result < SHARDS }
{
    match address {
        Addr::Exports | Addr::Mounts => 0,
        Addr::Inode(number) => (number % 16) as usize,
        Addr::Map { file, page: _ } | Addr::Block { file, index: _ } => (file % 16) as usize,
        Addr::Page { directory, page: _ } => (directory % 16) as usize,
        Addr::Part {
            directory,
            bucket: _,
            part: _,
        } => (directory % 16) as usize,
        Addr::Usage { export: _, group } => usize::from(group % 16),
        Addr::Locks(bucket) => usize::from(bucket % 16),
    }
}

/// The slots of the addresses of one shard. An address with no slot is empty, and nobody holds it; a slot that is so
/// goes at once.
///
/// The numbers that the shard gives are those from 16 on that have its index modulo 16. A number that it gave has its
/// slot in a slab, where a free key is found at once; all other addresses have theirs in a map, also numbers that some
/// handle names and that nothing has.
#[derive(Drop)]
pub struct Shard {
    index: u64,
    numbers: Slab<Slot>,
    others: Table<Addr, Slot>,
    /// Above each generation that was ever reserved here.
    next_generation: u64,
}

impl Model for Shard {
    ghost use Rattle.nfs_engine.specs.Shards.{IsSound, ShardValue, shard_value};
    ghost use Rattle.nfs_tables.specs.Tables.{entries};

    ghost Value = { ShardValue };

    ghost view = { λ s. shard_value s.index s.numbers.slots (entries s.others) s.next_generation };

    ghost invariant = { λ s. IsSound (shard_value s.index s.numbers.slots (entries s.others) s.next_generation) };
}

/// The key of a number that the shard with this index may give.
fn key_in(index: u64, address: Addr) -> Option<usize>
    ensures { result ≡ key_in index address }
{
    match address {
        Addr::Inode(number) if number % 16 == index && number >= 16 => Some(
            (number / 16 - 1) as usize,
        ),
        _ => None,
    }
}

/// The number at a key; None where it would pass 2^64 - 1.
fn number_at(index: u64, key: usize) -> Option<u64>
    requires { index < SHARDS }
    ensures { MatchOption result (2 ^ 64 ≤ number_at index key) (λ number. number ≡ number_at index key) }
{
    (key as u64)
        .checked_add(1)?
        .checked_mul(16)?
        .checked_add(index)
}

/// Makes a slot for an address that has none in the map. An error changes nothing.
fn add_slot(others: &mut Table<Addr, Slot>, address: Addr, slot: Slot) -> Result<(), AllocError>
    requires { found (slots_seen (entries others.old)) address ≡ None }
    ensures ok { OnOk result (Changes (found (slots_seen (entries others.old)))
        (found (slots_seen (entries others.new))) address (Some (slot_value slot))) }
    ensures err { OnErr result (entries others.new ≡ entries others.old) }
{
    others.add(address, slot)?;
    Ok(())
}

/// Takes the slot of an address out of the map.
fn remove_other(others: &mut Table<Addr, Slot>, address: Addr)
    ensures { Changes (found (slots_seen (entries others.old))) (found (slots_seen (entries others.new))) address None }
{
    others.remove(&address);
}

/// Takes the slot at a key out of the slab.
fn remove_number(numbers: &mut Slab<Slot>, key: usize)
    requires { ContainsKey numbers.old key }
    ensures { Updates numbers.old numbers.new key None }
{
    numbers.remove(key);
}

/// The number of a free key, with room for its slot in the slab. Where the next free key's number has its slot in the
/// map, that slot moves into the slab, and the next key is tried.
fn free_number(
    numbers: &mut Slab<Slot>,
    others: &mut Table<Addr, Slot>,
    index: u64,
) -> Result<u64, AllocError>
    requires { index < SHARDS }
    ensures same { Moves (shard_value index numbers.old.slots (entries others.old) 0)
        (shard_value index numbers.new.slots (entries others.new) 0) }
    ensures free { IfOk result (λ number. IsFreeNumber index numbers.new (entries others.new) number) }
{
    'keys: loop {
        numbers.reserve(1)?;
        let Some(number) = number_at(index, numbers.vacant_key()) else {
            return Err(AllocError);
        };
        let Some(slot) = others.remove(&Addr::Inode(number)) else {
            return Ok(number);
        };
        numbers.insert_reserved(slot);
    }
}

/// What asking a shard for an address came to.
#[derive(Drop)]
pub enum Had {
    /// It is held, and this stands there.
    Yes(Option<Arc<Object>>),
    /// The call with this number holds it in a mode that excludes.
    Taken(u64),
}

/// Why no number was reserved.
#[derive(Clone, Copy, Debug, PartialEq, Eq, Error)]
pub enum ReserveError {
    /// There is no memory for it, or the number would pass 2^64 - 1, which takes 2^60 slots.
    #[error("out of memory")]
    Memory,
    /// The last generation was given.
    #[error("no generation is left")]
    Spent,
}

impl Shard {
    /// The shard with this index, empty. Addresses are placed so.
    pub fn new(alloc: Global, placing: Placing, index: u64) -> Shard
        requires { index < SHARDS }
        ensures { IsNew index result }
    {
        Shard {
            index,
            numbers: Slab::new(alloc),
            others: Table::new(alloc, placing),
            next_generation: FIRST_GENERATION,
        }
    }

    /// Takes an address for a holder. Taken changes nothing.
    ///
    /// # Errors
    ///
    /// There is no memory for a slot, or for one more holder, and nobody holds it in a mode that excludes. Nothing is
    /// changed.
    pub fn acquire(
        &mut self,
        alloc: Global,
        address: Addr,
        mode: Mode,
        id: u64,
    ) -> Result<Had, AllocError>
        ensures { IsHad self.old self.new address mode id result }
    {
        if let Some(key) = self.key_of(address) {
            return self.numbers[key].acquire(alloc, mode, id);
        }
        if let Some(slot) = self.others.get_mut(&address) {
            return slot.acquire(alloc, mode, id);
        }
        let mut holders = Holders::Nobody;
        holders.add(alloc, mode, id)?;
        let slot = Slot {
            object: None,
            holders,
        };
        add_slot(&mut self.others, address, slot)?;
        Ok(Had::Yes(None))
    }

    /// The key of an address that has its slot in the slab.
    fn key_of(&self, address: Addr) -> Option<usize>
        ensures { MatchOption result (numbered self.now address ≡ None) (λ key.
            (key_in self.now.index address ≡ Some key) × IsSome (slice_index_or self.now.numbers key None)) }
    {
        let key = key_in(self.index, address)?;
        self.numbers.contains(key).then_some(key)
    }

    /// Whether this one holds an address.
    pub fn holds(&self, address: Addr, id: u64) -> bool
        ensures { Decides result (IsSome (hold_at self.now address id)) }
    {
        if let Some(key) = self.key_of(address) {
            return self.numbers[key].holders.has(id);
        }
        match self.others.get(&address) {
            Some(slot) => slot.holders.has(id),
            None => false,
        }
    }

    /// One that holds an address in a mode that excludes this one.
    pub fn excluder(&self, address: Addr, mode: Mode) -> Option<u64>
        ensures { IsExcluder mode (slot_at self.now address).holders result }
    {
        if let Some(key) = self.key_of(address) {
            return self.numbers[key].holders.excluder(mode);
        }
        match self.others.get(&address) {
            Some(slot) => slot.holders.excluder(mode),
            None => None,
        }
    }

    /// Which of the sixteen it is.
    pub fn index(&self) -> usize
        ensures which { result ≡ self.now.index }
        ensures within { result < SHARDS }
    {
        self.index as usize
    }

    /// Whether the last generation was given.
    pub fn is_spent(&self) -> bool
        ensures { Decides result (self.now.next_generation ≡ 2 ^ 64 - 1) }
    {
        self.next_generation == u64::MAX
    }

    /// Reserves a number of this shard where nothing stands and which nobody holds, with a generation above all that
    /// were given here. It is held alone from then on.
    ///
    /// # Errors
    ///
    /// `Spent` where the last generation was given, else `Memory`. Nothing is changed.
    pub fn reserve(&mut self, id: u64) -> Result<Reserved, ReserveError>
        ensures { IsReservedIn self.old self.new id result }
    {
        if self.is_spent() {
            return Err(ReserveError::Spent);
        }
        let Ok(number) = free_number(&mut self.numbers, &mut self.others, self.index) else {
            return Err(ReserveError::Memory);
        };
        self.numbers.insert_reserved(Slot {
            object: None,
            holders: Holders::One(id),
        });
        let generation = self.next_generation;
        self.next_generation += 1;
        Ok(Reserved { number, generation })
    }

    /// A holder lets an address go.
    pub fn release(&mut self, address: Addr, id: u64)
        ensures { Retakes self.old self.new address id None }
    {
        if let Some(key) = self.key_of(address) {
            if self.numbers[key].release(id) {
                remove_number(&mut self.numbers, key);
            }
            return;
        }
        let Some(slot) = self.others.get_mut(&address) else {
            return;
        };
        if slot.release(id) {
            remove_other(&mut self.others, address);
        }
    }

    /// Puts an object at an address that somebody holds, or takes away what stands there.
    pub fn fill(&mut self, address: Addr, object: Option<Arc<Object>>)
        requires { IsHeld self.old address }
        ensures { Fills self.old self.new address (option_map arc_value object) }
    {
        if let Some(key) = self.key_of(address) {
            self.numbers[key].object = object;
            return;
        }
        let Some(slot) = self.others.get_mut(&address) else {
            return;
        };
        slot.object = object;
    }

    /// Puts an object where one stands, or takes that away: what stood there comes in its place. It takes no memory.
    pub(crate) fn replace(&mut self, address: Addr, object: &mut Option<Arc<Object>>)
        requires { IsSome (option_map arc_value object.old) → IsSome (slot_at self.old address).object }
        ensures fills { Fills self.old self.new address (option_map arc_value object.old) }
        ensures stood { option_map arc_value object.new ≡ (slot_at self.old address).object }
    {
        if let Some(key) = self.key_of(address) {
            if self.numbers[key].replace(object) {
                remove_number(&mut self.numbers, key);
            }
            return;
        }
        let Some(slot) = self.others.get_mut(&address) else {
            return;
        };
        if slot.replace(object) {
            remove_other(&mut self.others, address);
        }
    }

    /// Whether something stands at an address.
    pub(crate) fn stands_at(&self, address: Addr) -> bool
        ensures { Decides result (IsSome (slot_at self.now address).object) }
    {
        if let Some(key) = self.key_of(address) {
            return self.numbers[key].is_filled();
        }
        match self.others.get(&address) {
            Some(slot) => slot.is_filled(),
            None => false,
        }
    }

    /// Makes room in the map until half of it is free. Then an address where nothing stands is held without memory,
    /// since such a map does not grow: it counts anew the places that were left.
    ///
    /// # Errors
    ///
    /// There is no memory for it. Nothing is changed.
    pub(crate) fn make_room(&mut self) -> Result<(), AllocError>
        ensures { self.new ≡ self.old }
    {
        let wanted = self.others.len().saturating_add(FREE_SLOTS);
        self.others.reserve(wanted)?;
        Ok(())
    }

    /// How many addresses are held; 2^64 - 1 where there are more.
    pub fn locked(&self) -> usize
        ensures { IsLocked self.now result }
    {
        held_numbers(&self.numbers).saturating_add(held_others(&self.others))
    }
}
