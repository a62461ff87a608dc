//! The records of an era.

ghost use Rattle.std.specs.Prelude.{◌≡◌, ◌+◌, ◌-◌, ◌<◌, ◌^◌, [], ◌∷◌, ◌++◌, length};
ghost use Rattle.std.specs.Prelude.{map, min, IsOk, MatchOption, OnOk};
ghost use Rattle.nfs_engine.specs.Arrivals.{shared_value};

use crate::arrival::Executed;
use std::alloc::{AllocError, Global};
use std::marker::Model;
use std::mem;
use std::sync::Arc;

/// The records of an era that is over.
#[derive(Drop)]
pub struct Era {
    /// How many records there were before it: the number of its first is one above.
    pub before: u64,
    pub records: Vec<Arc<Executed>>,
}

/// What was executed since the era began, in order. Records are numbered from 1, over all eras.
#[derive(Drop)]
pub(crate) struct EraRecords {
    list: Vec<Arc<Executed>>,
    before: u64,
    bytes: u64,
}

impl Model for EraRecords {
    ghost use Rattle.std.specs.Prelude.{◌+◌, ◌-◌, ◌<◌, ◌^◌, length, map};
    ghost use Rattle.std.specs.Vec.{vec_capacity};
    ghost use Rattle.nfs_engine.specs.Arrivals.{shared_value};
    ghost use Rattle.nfs_engine.specs.Journal.{RecordsValue};

    ghost Value = { RecordsValue };

    ghost view = { λ r. record {
      list = map shared_value r.list.items;
      before = r.before;
      bytes = r.bytes;
      room = vec_capacity r.list - length r.list.items;
    } };

    ghost invariant = { λ r. r.before + length r.list.items < 2 ^ 64 };
}

impl EraRecords {
    /// No record yet, in the first era.
    pub(crate) fn new(alloc: Global) -> EraRecords
        ensures { (result.list ≡ []) × (result.before ≡ 0) × (result.bytes ≡ 0) }
    {
        EraRecords {
            list: Vec::new(alloc),
            before: 0,
            bytes: 0,
        }
    }

    /// How many there are.
    pub(crate) fn len(&self) -> usize
        ensures { result ≡ length self.now.list }
    {
        self.list.len()
    }

    /// How many there were before the era.
    pub(crate) fn before(&self) -> u64
        ensures before { result ≡ self.now.before }
        ensures numbers { self.now.before + length self.now.list < 2 ^ 64 }
    {
        self.before
    }

    /// They, in order.
    pub(crate) fn list(&self) -> &[Arc<Executed>]
        ensures { map shared_value result.now ≡ self.now.list }
    {
        &self.list
    }

    /// How many bytes they are counted as.
    pub(crate) fn bytes(&self) -> u64
        ensures { result ≡ self.now.bytes }
    {
        self.bytes
    }

    /// The number that the next record gets; None where it would be above 2^64 - 1.
    pub(crate) fn next_number(&self) -> Option<u64>
        ensures { MatchOption result (self.now.before + length self.now.list + 1 ≡ 2 ^ 64)
            (λ number. number ≡ self.now.before + length self.now.list + 1) }
    {
        (self.before + self.list.len() as u64).checked_add(1)
    }

    /// Makes room for one record, where there is none.
    pub(crate) fn make_room(&mut self) -> Result<(), AllocError>
        ensures same { self.new ≡ record self.old { room = self.new.room } }
        ensures room { OnOk result (0 < self.new.room) }
        ensures enough { 0 < self.old.room → IsOk result }
    {
        self.list.reserve(1)
    }

    /// Adds a record, for which there is room, and counts so many bytes.
    pub(crate) fn push(&mut self, executed: Arc<Executed>, bytes: u64)
        requires room { 0 < self.old.room }
        requires number { self.old.before + length self.old.list + 1 < 2 ^ 64 }
        ensures { self.new ≡ record self.old {
          list = self.old.list ++ shared_value executed ∷ [];
          bytes = min (self.old.bytes + bytes) (2 ^ 64 - 1);
          room = self.new.room;
        } }
    {
        self.list.push(executed).unwrap();
        self.bytes = self.bytes.saturating_add(bytes);
    }

    /// Ends the era, and begins the next.
    pub(crate) fn take(&mut self, alloc: Global) -> Era
        ensures era { (result.before ≡ self.old.before) × (map shared_value result.records.items ≡ self.old.list) }
        ensures new { self.new ≡ record
            { list = []; before = self.old.before + length self.old.list; bytes = 0; room = self.new.room } }
    {
        let before = self.before;
        let records = mem::replace(&mut self.list, Vec::new(alloc));
        self.before = before + records.len() as u64;
        self.bytes = 0;
        Era { before, records }
    }
}
