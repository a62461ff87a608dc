//! The objects of the present store, by address: first room for what is written, then writes, which cannot fail.

ghost use Rattle.std.specs.Prelude.{◌≡◌, ◌+◌, ◌<◌, ◌≤◌, [], is_some, map, option_map, false, true, if◌then◌else◌, IfOk};
ghost use Rattle.std.specs.Prelude.{IfSome, IsOk};
ghost use Rattle.std.specs.Prelude.{OnOk};
ghost use Rattle.std.specs.Prelude.{option_copied, slice_get};
ghost use Rattle.std.specs.Arc.{arc_value};
ghost use Rattle.std.specs.Bool.{Decides};
ghost use Rattle.std.specs.List.{AllByRecursion};
ghost use Rattle.nfs_objects.specs.Fits.{Fits};
ghost use Rattle.nfs_objects.specs.Store.{with_write, with_writes};
ghost use Rattle.nfs_objects.specs.Values.{write_value};
ghost use Rattle.nfs_engine.specs.Opening.{no_store};
ghost use Rattle.nfs_tables.specs.Tables.{entries};
ghost use Rattle.nfs_engine.specs.Standing.{HasObjects, count_after};
ghost use Rattle.nfs_engine.specs.Tables.{IsTidy, IsTidyBut, Puts, Stands, TakesOutIdle, Unspent, generation_in};
ghost use Rattle.nfs_engine.specs.Tables.{idle_at, kept_at, kept_slots, needs_slot, slots_needed, store_of};

use nfs_objects::{Addr, Object, Reserved, View, Write, share};
use nfs_tables::{Placing, Table};
use std::alloc::{AllocError, Global};
use std::marker::Model;
use std::sync::Arc;

/// What is kept at an address.
#[derive(Drop)]
pub(crate) struct StoredObject {
    pub object: Option<Arc<Object>>,
    /// The greatest generation that the number was given; 0 was never given.
    pub last: u64,
}

/// What stands at each address, and which generation its number was given last. An address that is not there is empty,
/// and its number was never given. The address of a number that was given stays in it, empty or not, and others just as
/// long as something stands there; of its look-ups only comparisons of views (`fits`) make use.
#[derive(Drop)]
pub(crate) struct Objects {
    slots: Table<Addr, StoredObject>,
    /// At how many addresses something stands.
    standing: u64,
}

impl Model for Objects {
    ghost use Rattle.nfs_tables.specs.Tables.{entries};
    ghost use Rattle.nfs_engine.specs.Standing.{HasObjects};
    ghost use Rattle.nfs_engine.specs.Tables.{IsTidy, ObjectsValue, kept_slots, store_of};

    ghost Value = { ObjectsValue };

    ghost view = { λ t. record { slots = kept_slots (entries t.slots); room = t.slots.room; standing = t.standing } };

    ghost invariant = { λ t. HasObjects (store_of (kept_slots (entries t.slots))) t.standing
        × IsTidy (kept_slots (entries t.slots)) };
}

impl Objects {
    /// No object. Addresses are placed so.
    fn new(alloc: Global, placing: Placing) -> Objects
        ensures { result.slots ≡ [] }
    {
        Objects {
            slots: Table::new(alloc, placing),
            standing: 0,
        }
    }

    /// At how many addresses something stands.
    pub(crate) fn count(&self) -> u64
        ensures { HasObjects (store_of self.now.slots) result }
    {
        self.standing
    }

    /// What these writes make of no object. They share their objects with it. Addresses are placed so.
    pub(crate) fn opening(
        alloc: Global,
        placing: Placing,
        writes: &[Write],
    ) -> Result<Objects, AllocError>
        ensures { IfOk result
            (λ objects. store_of objects.slots ≡ with_writes no_store (map write_value writes.now)) }
    {
        let mut objects = Objects::new(alloc, placing);
        let copies = copy_writes(alloc, writes)?;
        objects.make_room(&copies)?;
        objects.install(copies, writes);
        Ok(objects)
    }

    /// What stands at an address.
    pub(crate) fn find(&self, address: Addr) -> Option<&Arc<Object>>
        ensures { option_map arc_value (option_copied result) ≡ (store_of self.now.slots).at address }
    {
        self.slots.get(&address)?.object.as_ref()
    }

    /// The greatest generation that the number of an address was given; 0 where it never was.
    pub(crate) fn last(&self, address: Addr) -> u64
        ensures { result ≡ (kept_at self.now.slots address).last }
    {
        match self.slots.get(&address) {
            Some(kept) => kept.last,
            None => 0,
        }
    }

    /// Whether a view is true of these objects: what it has read stands there, and its numbers were never given with
    /// such generations.
    pub(crate) fn fits(&self, view: &View) -> bool
        ensures { Decides result (Fits view.now (store_of self.now.slots)) }
    {
        self.shows(view) && self.may_give(view.reserved())
    }

    /// Whether all that a view has read stands here.
    fn shows(&self, view: &View) -> bool
        ensures { Decides result (AllByRecursion (Stands (store_of self.now.slots)) view.now.entries) }
    {
        for index in 0..view.len() {
            if !self.shows_entry(view, index) {
                return false;
            }
        }
        true
    }

    /// The same of a view of which all that it has read stands here. No object is looked at.
    pub(crate) fn fits_shown(&self, view: &View) -> bool
        requires { AllByRecursion (Stands (store_of self.now.slots)) view.now.entries }
        ensures { Decides result (Fits view.now (store_of self.now.slots)) }
    {
        self.may_give(view.reserved())
    }

    /// Whether what a view has read at this place stands here, if there is an entry.
    pub(crate) fn shows_entry(&self, view: &View, index: usize) -> bool
        ensures { Decides result
            (IfSome (slice_get view.now.entries index) (Stands (store_of self.now.slots))) }
    {
        match view.entry(index) {
            Some((address, entry)) => is_same(self.find(address), &entry.object),
            None => true,
        }
    }

    /// Whether each of these numbers was given only smaller generations.
    fn may_give(&self, numbers: &[Reserved]) -> bool
        ensures { Decides result (AllByRecursion (Unspent (store_of self.now.slots)) numbers.now) }
    {
        for reserved in numbers {
            if self.last(Addr::Inode(reserved.number)) >= reserved.generation {
                return false;
            }
        }
        true
    }

    /// Makes room for the slots that these writes need. Where the room is there, no more is asked for.
    pub(crate) fn make_room(&mut self, writes: &[Write]) -> Result<(), AllocError>
        ensures slots { self.new.slots ≡ self.old.slots }
        ensures room { OnOk result (slots_needed self.new.slots (map write_value writes.now) ≤ self.new.room) }
        ensures enough { slots_needed self.old.slots (map write_value writes.now) ≤ self.old.room → IsOk result }
    {
        let needed = self.slots_needed(writes);
        self.slots.reserve(needed)
    }

    /// How many of these writes need a slot.
    fn slots_needed(&self, writes: &[Write]) -> usize
        ensures { result ≡ slots_needed self.now.slots (map write_value writes.now) }
    {
        let mut needed: usize = 0;
        for write in writes {
            if self.needs_slot(write) {
                needed += 1;
            }
        }
        needed
    }

    /// Whether a write puts something at an address that has no slot.
    fn needs_slot(&self, write: &Write) -> bool
        ensures { result ≡ needs_slot self.now.slots (write_value write.now) }
    {
        write.object.is_some() && !self.slots.contains_key(&write.address)
    }

    /// Makes the writes, for which there is room, one after the other; then slots that they left with nothing in them
    /// go. For that they are given once more.
    pub(crate) fn install(&mut self, writes: Vec<Write>, same: &[Write])
        requires room { slots_needed self.old.slots (map write_value writes.items) ≤ self.old.room }
        requires same { map write_value same.now ≡ map write_value writes.items }
        ensures { store_of self.new.slots ≡ with_writes (store_of self.old.slots) (map write_value writes.items) }
    {
        self.standing = put_all(&mut self.slots, self.standing, writes);
        remove_idle(&mut self.slots, same);
    }

    /// Puts an object where a slot is, or takes away what stands at an address; then a slot that it left with nothing
    /// in it goes. It takes no memory.
    pub(crate) fn write(&mut self, address: Addr, object: Option<Arc<Object>>)
        requires { needs_slot self.old.slots (address, option_map arc_value object) ≡ false }
        ensures { store_of self.new.slots
            ≡ with_write (store_of self.old.slots) address (option_map arc_value object) }
    {
        self.standing = write(&mut self.slots, self.standing, address, object);
    }
}

/// How many addresses there are at which something stands, once something stands at one or not, where something stood
/// there or not.
fn count_after(count: u64, stood: bool, stands: bool) -> u64
    ensures { result ≡ count_after count stood stands }
{
    match (stood, stands) {
        (true, false) => count.saturating_sub(1),
        (false, true) => count.saturating_add(1),
        (true, true) | (false, false) => count,
    }
}

/// Makes the writes, for which there is room: at how many addresses something stands then. Each slot that is there
/// stays.
fn put_all(slots: &mut Table<Addr, StoredObject>, standing: u64, writes: Vec<Write>) -> u64
    requires room { slots_needed (kept_slots (entries slots.old)) (map write_value writes.items) ≤ slots.old.room }
    requires count { HasObjects (store_of (kept_slots (entries slots.old))) standing }
    requires tidy { IsTidy (kept_slots (entries slots.old)) }
    ensures store { store_of (kept_slots (entries slots.new))
        ≡ with_writes (store_of (kept_slots (entries slots.old))) (map write_value writes.items) }
    ensures count { HasObjects (store_of (kept_slots (entries slots.new))) result }
    ensures tidy { IsTidyBut (kept_slots (entries slots.new)) (map write_value writes.items) }
{
    let mut standing = standing;
    let mut writes = writes.into_iter();
    'writes: while let Some(write) = writes.next() {
        standing = make(slots, standing, write);
    }
    standing
}

/// Makes a write: at how many addresses something stands then.
fn make(slots: &mut Table<Addr, StoredObject>, standing: u64, write: Write) -> u64
    requires room { needs_slot (kept_slots (entries slots.old)) (write_value write) ≡ true → 0 < slots.old.room }
    requires count { HasObjects (store_of (kept_slots (entries slots.old))) standing }
    ensures puts { Puts (kept_slots (entries slots.old)) (kept_slots (entries slots.new)) (write_value write) }
    ensures count { HasObjects (store_of (kept_slots (entries slots.new))) result }
    ensures room { slots.old.room ≤ slots.new.room
        + (if needs_slot (kept_slots (entries slots.old)) (write_value write) then 1 else 0) }
{
    let stands = write.object.is_some();
    let stood = put(slots, write.address, write.object);
    // The number of slots brings the bound of the count.
    let _slots = slots.len();
    count_after(standing, stood, stands)
}

/// Makes a write for which a slot is there: at how many addresses something stands then. A slot that it leaves with
/// nothing in it goes.
fn write(
    slots: &mut Table<Addr, StoredObject>,
    standing: u64,
    address: Addr,
    object: Option<Arc<Object>>,
) -> u64
    requires slot { needs_slot (kept_slots (entries slots.old)) (address, option_map arc_value object) ≡ false }
    requires count { HasObjects (store_of (kept_slots (entries slots.old))) standing }
    requires tidy { IsTidy (kept_slots (entries slots.old)) }
    ensures store { store_of (kept_slots (entries slots.new))
        ≡ with_write (store_of (kept_slots (entries slots.old))) address (option_map arc_value object) }
    ensures count { HasObjects (store_of (kept_slots (entries slots.new))) result }
    ensures tidy { IsTidy (kept_slots (entries slots.new)) }
{
    let standing = make(slots, standing, Write { address, object });
    let taken = Write {
        address,
        object: None,
    };
    take_out_idle(slots, &taken);
    standing
}

/// Puts an object at an address, or takes away what stands there: whether something stood there. Only something that is
/// put where no slot is takes room. The address is looked up once, and once more where a slot comes.
fn put(slots: &mut Table<Addr, StoredObject>, address: Addr, object: Option<Arc<Object>>) -> bool
    requires { needs_slot (kept_slots (entries slots.old)) (address, option_map arc_value object) ≡ true
        → 0 < slots.old.room }
    ensures puts { Puts (kept_slots (entries slots.old)) (kept_slots (entries slots.new))
        (address, option_map arc_value object) }
    ensures stood { result ≡ is_some (kept_at (kept_slots (entries slots.old)) address).object }
    ensures room { slots.old.room ≤ slots.new.room
        + (if needs_slot (kept_slots (entries slots.old)) (address, option_map arc_value object) then 1 else 0) }
{
    let given = generation(&object);
    if let Some(slot) = slots.get_mut(&address) {
        let stood = slot.object.is_some();
        let last = slot.last.max(given);
        *slot = StoredObject { object, last };
        return stood;
    }
    if object.is_some() {
        let kept = StoredObject {
            object,
            last: given,
        };
        slots.add(address, kept).unwrap();
    }
    false
}

/// Takes out the slots that these writes left with nothing in them.
fn remove_idle(slots: &mut Table<Addr, StoredObject>, writes: &[Write])
    requires { IsTidyBut (kept_slots (entries slots.old)) (map write_value writes.now) }
    ensures store { store_of (kept_slots (entries slots.new)) ≡ store_of (kept_slots (entries slots.old)) }
    ensures tidy { IsTidy (kept_slots (entries slots.new)) }
{
    for write in writes {
        take_out_idle(slots, write);
    }
}

/// Takes out the slot of what this write took away, where nothing is kept in it.
fn take_out_idle(slots: &mut Table<Addr, StoredObject>, write: &Write)
    ensures { TakesOutIdle (kept_slots (entries slots.old)) (kept_slots (entries slots.new)) (write_value write.now) }
{
    if write.object.is_none() && is_idle(slots, write.address) {
        slots.remove(&write.address);
    }
}

/// Whether there is a slot at an address in which nothing is kept.
fn is_idle(slots: &Table<Addr, StoredObject>, address: Addr) -> bool
    ensures { result ≡ idle_at (kept_slots (entries slots.now)) address }
{
    match slots.get(&address) {
        Some(kept) => kept.object.is_none() && kept.last == 0,
        None => false,
    }
}

/// Whether both are the same object, or none.
fn is_same(known: Option<&Arc<Object>>, other: &Option<Arc<Object>>) -> bool
    ensures { Decides result (option_map arc_value other.now ≡ option_map arc_value (option_copied known.entry)) }
{
    match (known, other) {
        (Some(known), Some(other)) => **known == **other,
        (None, None) => true,
        _ => false,
    }
}

/// The generation of an inode; 0 where none stands.
fn generation(object: &Option<Arc<Object>>) -> u64
    ensures { result ≡ generation_in (option_map arc_value object.now) }
{
    match object.as_deref() {
        Some(Object::Inode(inode)) => inode.generation,
        _ => 0,
    }
}

/// The same writes once more; they share their objects.
pub(crate) fn copy_writes(alloc: Global, writes: &[Write]) -> Result<Vec<Write>, AllocError>
    ensures { IfOk result (λ copies. map write_value copies.items ≡ map write_value writes.now) }
{
    let mut copies = Vec::with_capacity(alloc, writes.len())?;
    for write in writes {
        copies.push(Write {
            address: write.address,
            object: share(&write.object)?,
        })?;
    }
    Ok(copies)
}
