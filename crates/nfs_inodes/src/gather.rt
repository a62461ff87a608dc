//! Objects that are read at once.

ghost use Rattle.std.specs.Prelude.{◌≡◌, [], ◌∷◌, ◌++◌, List, IfErr, OnOk, map};
ghost use Rattle.nfs_machine.specs.State.{Entry};
ghost use Rattle.nfs_objects.specs.Asks.{IsThere};
ghost use Rattle.nfs_objects.specs.Values.{DraftValue};
ghost use Rattle.nfs_inodes.specs.Gathers.{AsksAll, EachKnown, EachLives, Gathers};
ghost use Rattle.nfs_inodes.specs.Listing.{listed_entry};
ghost use Rattle.nfs_inodes.specs.Stops.{StopsAt};

use crate::content::listing::ListedEntry;
use indexmap::IndexSet;
use nfs_objects::{Addr, Draft, Missing, Wish};
use std::alloc::{AllocError, Global};

/// Reads the objects of these entries, so that each of them is known.
///
/// # Errors
///
/// `Need` of all those objects that are not known yet, each once; and `Memory`.
pub fn read_objects(draft: &Draft<'_>, entries: &[ListedEntry<'_>]) -> Result<(), Missing>
    requires { EachLives draft.now.view (map listed_entry entries.now) }
    ensures known { OnOk result (EachKnown draft.now (map listed_entry entries.now)) }
    ensures asks { IfErr result (AsksAll draft.now (map listed_entry entries.now)) }
    ensures stops { IfErr result (StopsAt draft.now []) }
{
    let mut wishes = WantedObjects::new(draft.alloc());
    for entry in entries {
        wishes.add(draft, entry.number)?;
    }
    wishes.ask()
}

/// What is asked for so far, each address once.
#[derive(Drop)]
struct WantedObjects {
    numbers: IndexSet<u64>,
    asked: Vec<Wish>,
}

impl WantedObjects {
    fn new(alloc: Global) -> WantedObjects
        ensures { (d : DraftValue) → Gathers d [] result }
    {
        WantedObjects {
            numbers: IndexSet::new(alloc),
            asked: Vec::new(alloc),
        }
    }

    /// Asks for what stands at a number besides, where the draft lacks it.
    fn add(&mut self, draft: &Draft<'_>, number: u64) -> Result<(), AllocError>
        requires { IsThere draft.now.view (Addr.Inode number) }
        ensures { (entries : List Entry) (e : Entry) → e.number ≡ number → Gathers draft.now entries self.old →
            OnOk result (Gathers draft.now (entries ++ e ∷ []) self.new) }
    {
        if let Some(wish) = draft.missing(Addr::Inode(number)) {
            if self.numbers.insert(number)? {
                self.asked.push(wish)?;
            }
        }
        Ok(())
    }

    /// Asks, if there is anything to ask for.
    fn ask(self) -> Result<(), Missing>
        ensures known { (d : DraftValue) (entries : List Entry) → Gathers d entries self →
            OnOk result (EachKnown d entries) }
        ensures asks { (d : DraftValue) (entries : List Entry) → Gathers d entries self →
            IfErr result (AsksAll d entries) }
        ensures stops { (d : DraftValue) (entries : List Entry) → Gathers d entries self →
            IfErr result (StopsAt d []) }
    {
        if self.asked.is_empty() {
            Ok(())
        } else {
            Err(Missing::Need(self.asked))
        }
    }
}
