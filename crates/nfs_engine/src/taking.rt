//! What a call does in one shard: it takes an address, gets a new number, or lets go what it holds there.

ghost use Rattle.std.specs.Prelude.{◌≡◌, ◌<◌, None};
ghost use Rattle.nfs_objects.specs.Values.{seen_at};
ghost use Rattle.nfs_engine.specs.Apart.{GetsNumber};
ghost use Rattle.nfs_engine.specs.Taking.{HoldsIn, IsGained, IsGot, IsTested, LetsGo};

use crate::calls::Txn;
use crate::shard::{Had, ReserveError, Shard, shard_index};
use nfs_objects::{Addr, Mode, RoomyView, View};
use std::alloc::{AllocError, Global};
use std::mem;

/// What asking for an address came to for a call.
#[derive(Clone, Copy, PartialEq, Eq)]
pub enum Got {
    /// It is held, and what stands there is in the view.
    Yes,
    /// The call with this number holds it in a mode that excludes.
    Taken(u64),
}

impl Txn {
    /// Takes an address of this shard, and reads what stands there. Taken changes nothing.
    ///
    /// # Errors
    ///
    /// There is no memory for it in the view or in the shard, and nobody holds it in a mode that excludes. Nothing is
    /// changed.
    pub fn acquire_in(
        &mut self,
        alloc: Global,
        shard: &mut Shard,
        address: Addr,
        mode: Mode,
    ) -> Result<Got, AllocError>
        requires unseen { seen_at self.old.view.entries address ≡ None }
        ensures got { IsGot (record { shard = shard.old; view = self.old.view })
            (record { shard = shard.new; view = self.new.view }) address mode self.old.id result }
        ensures rest { self.new ≡ record self.old { view = self.new.view } }
    {
        let view = mem::replace(&mut self.view, View::new(alloc));
        let mut roomy = match view.make_room(1) {
            Ok(roomy) => roomy,
            Err(refused) => {
                self.view = refused.value;
                let Some(holder) = shard.excluder(address, mode) else {
                    return Err(AllocError);
                };
                return Ok(Got::Taken(holder));
            }
        };
        let got = take(alloc, shard, &mut roomy, address, mode, self.id);
        self.view = roomy.into_view();
        got
    }

    /// Gets a number of this shard that no other call has, held alone and empty.
    ///
    /// # Errors
    ///
    /// `Spent` where the shard's last generation was given, else `Memory`. Nothing is changed.
    pub fn reserve_in(&mut self, alloc: Global, shard: &mut Shard) -> Result<(), ReserveError>
        requires holds { HoldsIn shard.old self.old.id self.old.view.entries }
        ensures gained { IsGained (record { shard = shard.old; view = self.old.view })
            (record { shard = shard.new; view = self.new.view }) self.old.id result }
        ensures rest { self.new ≡ record self.old { view = self.new.view } }
    {
        if shard.is_spent() {
            return Err(ReserveError::Spent);
        }
        let view = mem::replace(&mut self.view, View::new(alloc));
        let mut roomy = match view.make_room_for_numbers(1) {
            Ok(roomy) => roomy,
            Err(refused) => {
                self.view = refused.value;
                return Err(ReserveError::Memory);
            }
        };
        let gained = gain(shard, &mut roomy, self.id);
        self.view = roomy.into_view();
        gained
    }
}

impl Txn {
    /// Gets a number of this shard, held alone and empty. No where the number that the shard gives is one that the call
    /// has read; in a shard in which the call holds what it has read there, it is not.
    ///
    /// # Errors
    ///
    /// `Spent` where the shard's last generation was given, else `Memory`. The call is as it was, and a number that was
    /// given before the memory was refused is given back.
    pub fn reserve_tested(&mut self, shard: &mut Shard) -> Result<bool, ReserveError>
        ensures gets { GetsNumber self.old self.new result }
        ensures tested { IsTested (record { shard = shard.old; view = self.old.view })
            (record { shard = shard.new; view = self.new.view }) self.old.id result }
    {
        let reserved = shard.reserve(self.id)?;
        let address = Addr::Inode(reserved.number);
        if self.view.find(address).is_some() {
            shard.release(address, self.id);
            return Ok(false);
        }
        match self.view.add_reserved(reserved) {
            Ok(()) => Ok(true),
            Err(AllocError) => {
                shard.release(address, self.id);
                Err(ReserveError::Memory)
            }
        }
    }
}

/// Takes an address for a view that has room for it. Taken and errors change nothing.
fn take(
    alloc: Global,
    shard: &mut Shard,
    view: &mut RoomyView,
    address: Addr,
    mode: Mode,
    id: u64,
) -> Result<Got, AllocError>
    requires room { 0 < view.old.room }
    requires unseen { seen_at view.old.view.entries address ≡ None }
    ensures { IsGot (record { shard = shard.old; view = view.old.view })
        (record { shard = shard.new; view = view.new.view }) address mode id result }
{
    match shard.acquire(alloc, address, mode, id)? {
        Had::Yes(object) => {
            view.put(address, mode, object);
            Ok(Got::Yes)
        }
        Had::Taken(holder) => Ok(Got::Taken(holder)),
    }
}

/// Gets a number for a view that has room for it. An error changes nothing.
fn gain(shard: &mut Shard, view: &mut RoomyView, id: u64) -> Result<(), ReserveError>
    requires room { 0 < view.old.room }
    requires numbers { 0 < view.old.numbers }
    requires holds { HoldsIn shard.old id view.old.view.entries }
    ensures { IsGained (record { shard = shard.old; view = view.old.view })
        (record { shard = shard.new; view = view.new.view }) id result }
{
    let reserved = shard.reserve(id)?;
    view.put_reserved(reserved);
    Ok(())
}

/// Lets go all that a call holds in the shard of this index.
pub(crate) fn let_go(shard: &mut Shard, index: usize, id: u64, view: &View)
    ensures { LetsGo shard.old shard.new index id view.now.entries }
{
    for place in 0..view.len() {
        let Some((address, _)) = view.entry(place) else {
            return;
        };
        if shard_index(address) != index {
            continue;
        }
        shard.release(address, id);
    }
}
