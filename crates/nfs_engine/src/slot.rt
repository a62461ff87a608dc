//! What stands at an address, and who holds it.

ghost use Rattle.std.specs.Prelude.{◌≡◌, ◌-◌, ◌^◌, IsSome, count_by, min, option_map};
ghost use Rattle.std.specs.Arc.{arc_value};
ghost use Rattle.std.specs.Bool.{Decides};
ghost use Rattle.std.specs.List.{IsDistinct};
ghost use Rattle.std.specs.Map.{keys_of};
ghost use Rattle.slab.specs.Slab.{entries};
ghost use Rattle.nfs_objects.specs.Values.{is_addr};
ghost use Rattle.nfs_tables.specs.Tables.{entries as entries_of};
ghost use Rattle.nfs_engine.specs.Locked.{is_held};
ghost use Rattle.nfs_engine.specs.Shards.{IsSlotHad, IsSlotLeft, empty_slot, slot_value};

use crate::holders::Holders;
use crate::shard::Had;
use indexmap::IndexMap;
use nfs_objects::{Addr, Mode, Object, share};
use nfs_tables::{Placing, Table};
use slab::Slab;
use std::alloc::{AllocError, Global};
use std::mem::swap;
use std::sync::Arc;

/// What stands at an address, and who holds it.
#[derive(Drop)]
pub(crate) struct Slot {
    pub object: Option<Arc<Object>>,
    pub holders: Holders,
}

impl Slot {
    /// Whether nothing stands there and nobody holds it.
    pub(crate) fn is_idle(&self) -> bool
        ensures { Decides result (slot_value self.now ≡ empty_slot) }
    {
        self.object.is_none() && self.holders.is_nobody()
    }

    /// Whether something stands there.
    pub(crate) fn is_filled(&self) -> bool
        ensures { Decides result (IsSome (slot_value self.now).object) }
    {
        self.object.is_some()
    }

    /// Takes the address for a holder. Taken and errors change nothing; an error comes only where nobody excludes.
    pub(crate) fn acquire(&mut self, alloc: Global, mode: Mode, id: u64) -> Result<Had, AllocError>
        ensures { IsSlotHad (slot_value self.old) (slot_value self.new) mode id result }
    {
        if let Some(holder) = self.holders.excluder(mode) {
            return Ok(Had::Taken(holder));
        }
        let object = share(&self.object)?;
        self.holders.add(alloc, mode, id)?;
        Ok(Had::Yes(object))
    }

    /// Lets the address go for a holder. Answers whether the slot is idle then.
    pub(crate) fn release(&mut self, id: u64) -> bool
        ensures left { IsSlotLeft (slot_value self.old) (slot_value self.new) id }
        ensures idle { Decides result (slot_value self.new ≡ empty_slot) }
    {
        self.holders.remove(id);
        self.is_idle()
    }
}

impl Slot {
    /// Puts an object, or nothing, in the place of what stands there, which comes in its place. Answers whether the
    /// slot is idle then.
    pub(crate) fn replace(&mut self, object: &mut Option<Arc<Object>>) -> bool
        ensures put { slot_value self.new
            ≡ record (slot_value self.old) { object = option_map arc_value object.old } }
        ensures stood { option_map arc_value object.new ≡ (slot_value self.old).object }
        ensures idle { Decides result (slot_value self.new ≡ empty_slot) }
    {
        swap(&mut self.object, object);
        self.is_idle()
    }
}

/// How many slots of a slab are held; 2^64 - 1 where there are more.
pub(crate) fn held_numbers(numbers: &Slab<Slot>) -> usize
    ensures { result ≡ min (count_by (λ e. is_held (slot_value e.1)) (entries numbers.now)) (2 ^ 64 - 1) }
{
    let mut held: usize = 0;
    for (_, slot) in numbers.iter() {
        if !slot.holders.is_nobody() {
            held = held.saturating_add(1);
        }
    }
    held
}

/// How many slots of a table are held; 2^64 - 1 where there are more.
pub(crate) fn held_others(others: &Table<Addr, Slot>) -> usize
    ensures value { result ≡ min (count_by (λ e. is_held (slot_value e.1)) (entries_of others.now)) (2 ^ 64 - 1) }
    ensures once { IsDistinct is_addr (keys_of (entries_of others.now)) }
{
    let (waiting, placed) = others.parts();
    held_slots(waiting).saturating_add(held_slots(placed))
}

/// How many slots of a map are held; 2^64 - 1 where there are more.
fn held_slots(slots: &IndexMap<Addr, Slot, Placing>) -> usize
    ensures { result ≡ min (count_by (λ e. is_held (slot_value e.1)) slots.now.entries) (2 ^ 64 - 1) }
{
    let mut held: usize = 0;
    for (_, slot) in slots.iter() {
        if !slot.holders.is_nobody() {
            held = held.saturating_add(1);
        }
    }
    held
}
