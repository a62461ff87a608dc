//! Addresses that are asked for at once.

ghost use Rattle.std.specs.Prelude.{◌≡◌, [], IfErr, List, OnErr, OnOk, false};
ghost use Rattle.nfs_objects.specs.Values.{DraftValue};
ghost use Rattle.nfs_objects.specs.declared.address.Addr.{Addr as Address};
ghost use Rattle.nfs_inodes.specs.Asking.{IsAsking, with_wish};
ghost use Rattle.nfs_inodes.specs.Stops.{StopsAt};

use nfs_objects::{Addr, Draft, Missing, Wish};
use std::alloc::{AllocError, Global};

/// For so many addresses room is made with the first one: a READ of 64 KiB has as many blocks.
const ROOM: usize = 16;

/// What is asked for so far, each address once.
#[derive(Drop)]
pub struct Asking {
    asked: Vec<Wish>,
}

impl Asking {
    /// Nothing.
    pub fn new(alloc: Global) -> Asking
        ensures { result.asked.items ≡ [] }
    {
        Asking {
            asked: Vec::new(alloc),
        }
    }

    /// Asks for an address besides, where the draft lacks it.
    ///
    /// # Errors
    ///
    /// `AllocError` where the memory was refused. It changes nothing.
    pub fn add(&mut self, draft: &Draft<'_>, address: Addr) -> Result<(), AllocError>
        ensures ok { OnOk result (self.new.asked.items ≡ with_wish draft.now address self.old.asked.items) }
        ensures err { OnErr result (self.new.asked.items ≡ self.old.asked.items) }
    {
        match draft.missing(address) {
            Some(wish) => {
                self.make_room()?;
                Ok(self.asked.push(wish)?)
            }
            None => Ok(()),
        }
    }

    /// Makes room for some, where nothing is asked for so far. It changes nothing.
    fn make_room(&mut self) -> Result<(), AllocError>
        ensures { self.new.asked.items ≡ self.old.asked.items }
    {
        if self.asked.is_empty() {
            self.asked.reserve(ROOM)
        } else {
            Ok(())
        }
    }

    /// Asks, if there is anything to ask for.
    ///
    /// # Errors
    ///
    /// `Need` of all that was asked for.
    pub fn ask(self) -> Result<(), Missing>
        ensures nothing { OnOk result (self.asked.items ≡ []) }
        ensures stops { (d : DraftValue) (named : List Address) → IsAsking d named self.asked.items →
            IfErr result (StopsAt d named) }
    {
        if self.asked.is_empty() {
            Ok(())
        } else {
            Err(Missing::Need(self.asked))
        }
    }
}
