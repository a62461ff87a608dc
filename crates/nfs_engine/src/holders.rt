//! Who holds an address.

ghost use Rattle.std.specs.Prelude.{◌≡◌, IsSome, OnErr, OnOk, Some, None};
ghost use Rattle.std.specs.Bool.{Decides};
ghost use Rattle.nfs_engine.specs.Holders.{CanHold, IsExcluder, Reholds, hold_of, holders_value, nobody};

use crate::sharers::Sharers;
use nfs_objects::Mode;
use std::alloc::{AllocError, Global};
use std::mem::replace;

/// Who holds an address, by their numbers: nobody, one that excludes all others, or some beside each other, each once.
/// Only several take memory, and none is left where nobody holds the address any more.
#[derive(Drop)]
pub enum Holders {
    Nobody,
    /// It holds the address exclusively.
    One(u64),
    /// It holds the address shared, and no other does.
    Sharer(u64),
    /// They hold it shared; it may be one.
    Several(Sharers),
}

impl Holders {
    /// Whether nobody does.
    pub fn is_nobody(&self) -> bool
        ensures { Decides result (holders_value self.now ≡ nobody) }
    {
        match self {
            Holders::Nobody => true,
            Holders::One(_) | Holders::Sharer(_) => false,
            Holders::Several(sharers) => {
                sharers.are_some();
                false
            }
        }
    }

    /// Whether this one does.
    pub fn has(&self, id: u64) -> bool
        ensures { Decides result (IsSome (hold_of (holders_value self.now) id)) }
    {
        match self {
            Holders::Nobody => false,
            Holders::One(holder) | Holders::Sharer(holder) => *holder == id,
            Holders::Several(sharers) => sharers.has(id),
        }
    }

    /// One that holds the address in a mode that excludes this one.
    pub fn excluder(&self, mode: Mode) -> Option<u64>
        ensures { IsExcluder mode (holders_value self.now) result }
    {
        match self {
            Holders::Nobody => None,
            Holders::One(holder) => Some(*holder),
            Holders::Sharer(holder) => match mode {
                Mode::Shared => None,
                Mode::Exclusive => Some(*holder),
            },
            Holders::Several(sharers) => match mode {
                Mode::Shared => None,
                Mode::Exclusive => sharers.first(),
            },
        }
    }

    /// One more holder, whom nobody excludes.
    ///
    /// # Errors
    ///
    /// There is no memory for one more. Nothing is changed.
    pub fn add(&mut self, alloc: Global, mode: Mode, id: u64) -> Result<(), AllocError>
        requires { CanHold mode (holders_value self.old) }
        ensures ok { OnOk result (Reholds (holders_value self.old) (holders_value self.new) id (Some mode)) }
        ensures err { OnErr result (holders_value self.new ≡ holders_value self.old) }
    {
        match mode {
            Mode::Exclusive => {
                *self = Holders::One(id);
                Ok(())
            }
            Mode::Shared => self.add_beside(alloc, id),
        }
    }

    /// One more holder beside others. An error changes nothing.
    fn add_beside(&mut self, alloc: Global, id: u64) -> Result<(), AllocError>
        requires { CanHold Mode.Shared (holders_value self.old) }
        ensures ok { OnOk result
            (Reholds (holders_value self.old) (holders_value self.new) id (Some Mode.Shared)) }
        ensures err { OnErr result (holders_value self.new ≡ holders_value self.old) }
    {
        match self {
            Holders::Nobody | Holders::One(_) => *self = Holders::Sharer(id),
            Holders::Sharer(holder) => {
                let mut sharers = Sharers::one(alloc, *holder)?;
                sharers.add(id)?;
                *self = Holders::Several(sharers);
            }
            Holders::Several(sharers) => sharers.add(id)?,
        }
        Ok(())
    }

    /// A holder lets go.
    pub fn remove(&mut self, id: u64)
        ensures { Reholds (holders_value self.old) (holders_value self.new) id None }
    {
        match replace(self, Holders::Nobody) {
            Holders::Nobody => {}
            Holders::One(holder) => {
                if holder != id {
                    *self = Holders::One(holder);
                }
            }
            Holders::Sharer(holder) => {
                if holder != id {
                    *self = Holders::Sharer(holder);
                }
            }
            Holders::Several(sharers) => {
                if let Some(left) = sharers.without(id) {
                    *self = Holders::Several(left);
                }
            }
        }
    }
}
