//! What a call that was executed leaves in a shard: its writes are made, and what it has read there is let go.

ghost use Rattle.std.specs.Prelude.{◌≡◌, OnErr, map};
ghost use Rattle.std.specs.Bool.{Decides};
ghost use Rattle.std.specs.List.{AllByRecursion};
ghost use Rattle.nfs_objects.specs.Values.{write_value};
ghost use Rattle.nfs_engine.specs.Engine.{freed_more};
ghost use Rattle.nfs_engine.specs.Settling.{AreHeldIn, HoldsWritten, Makes, ReplacesWritten, Settles, spent_in};

use crate::calls::Finished;
use crate::journal::Committed;
use crate::shard::{Shard, shard_index};
use crate::taking::let_go;
use nfs_objects::{View, Write};
use std::alloc::AllocError;

impl Finished {
    /// Whether the call holds, in this shard, all that it is to write there.
    pub fn holds_written(&self, shard: &Shard) -> bool
        ensures { Decides result (AllByRecursion (HoldsWritten shard.now self.now.id) self.now.done.change.writes) }
    {
        hold_written(shard, self.id, &self.writes)
    }

    /// Makes room in this shard, where the call adds an address to it: so calls that take away find room there when
    /// memory is full.
    ///
    /// # Errors
    ///
    /// The call adds an address, and there is no memory for the room. Nothing is changed.
    pub fn make_room_in(&self, shard: &mut Shard) -> Result<(), AllocError>
        ensures same { shard.new ≡ shard.old }
        ensures err { OnErr result (AllByRecursion (ReplacesWritten shard.old) self.now.done.change.writes → ⊥) }
    {
        if self.replaces_written(shard) {
            return Ok(());
        }
        shard.make_room()
    }

    /// Whether something stands wherever the call puts an object, in this shard.
    fn replaces_written(&self, shard: &Shard) -> bool
        ensures { Decides result (AllByRecursion (ReplacesWritten shard.now) self.now.done.change.writes) }
    {
        replace_written(shard, &self.writes)
    }
}

impl Committed {
    /// Makes in this shard what the call has written there, each at an address that somebody holds, and lets go all
    /// that it has read there. It takes no memory.
    pub fn settle_in(self, shard: &mut Shard) -> Committed
        requires { AreHeldIn shard.old shard.old.index (map write_value self.writes.items) }
        ensures shard { Settles shard.old shard.new shard.old.index self.release.id self.release.view.entries
            (map write_value self.writes.items) }
        ensures receipt { result.receipt ≡ self.receipt }
        ensures release { result.release ≡ freed_more self.release shard.old.index }
        ensures left { map write_value result.writes.items
            ≡ map (spent_in shard.old.index) (map write_value self.writes.items) }
    {
        let Committed {
            receipt,
            release,
            mut writes,
            spent,
        } = self;
        let index = shard.index();
        shard.settle(release.id, &release.view, &mut writes);
        Committed {
            receipt,
            release: release.freed(index),
            writes,
            spent,
        }
    }
}

impl Shard {
    /// Makes what a call writes in this shard, each at an address that somebody holds, and lets go all that the call
    /// has read here. A write that is made keeps its address alone; those in other shards stay as they are. It takes
    /// no memory.
    pub fn settle(&mut self, id: u64, view: &View, writes: &mut [Write])
        requires { AreHeldIn self.old self.old.index (map write_value writes.old) }
        ensures shard { Settles self.old self.new self.old.index id view.now.entries (map write_value writes.old) }
        ensures left { map write_value writes.new ≡ map (spent_in self.old.index) (map write_value writes.old) }
    {
        let index = self.index();
        make(self, index, writes);
        let_go(self, index, id, view);
    }
}

/// Makes those of these writes that are in the shard of this index.
fn make(shard: &mut Shard, index: usize, writes: &mut [Write])
    requires { AreHeldIn shard.old index (map write_value writes.old) }
    ensures made { Makes shard.old shard.new index (map write_value writes.old) }
    ensures left { map write_value writes.new ≡ map (spent_in index) (map write_value writes.old) }
{
    for place in 0..writes.len() {
        let address = writes[place].address;
        if shard_index(address) != index {
            continue;
        }
        let object = writes[place].object.take();
        shard.fill(address, object);
    }
}

/// Whether the call with this number holds, in this shard, all of these writes that are in it.
fn hold_written(shard: &Shard, id: u64, writes: &[Write]) -> bool
    ensures { Decides result (AllByRecursion (λ w. HoldsWritten shard.now id (write_value w)) writes.now) }
{
    for write in writes {
        if !holds_one(shard, id, write) {
            return false;
        }
    }
    true
}

/// Whether something stands wherever one of these writes puts an object, in this shard.
fn replace_written(shard: &Shard, writes: &[Write]) -> bool
    ensures { Decides result (AllByRecursion (λ w. ReplacesWritten shard.now (write_value w)) writes.now) }
{
    for write in writes {
        if !replaces_one(shard, write) {
            return false;
        }
    }
    true
}

/// Whether something stands where this write puts an object, if that is in this shard.
fn replaces_one(shard: &Shard, write: &Write) -> bool
    ensures { Decides result (ReplacesWritten shard.now (write_value write.now)) }
{
    if write.object.is_none() || shard_index(write.address) != shard.index() {
        return true;
    }
    shard.stands_at(write.address)
}

/// Whether the call with this number holds this write's address, if it is in this shard.
fn holds_one(shard: &Shard, id: u64, write: &Write) -> bool
    ensures { Decides result (HoldsWritten shard.now id (write_value write.now)) }
{
    if shard_index(write.address) != shard.index() {
        return true;
    }
    shard.holds(write.address, id)
}
