//! An era that is over, and the receipts that its seats left.

ghost use Rattle.std.specs.Prelude.{◌≡◌, IfErr, IfOk, length, map, vec_capacity};
ghost use Rattle.nfs_engine.specs.Arrivals.{shared_value};
ghost use Rattle.nfs_engine.specs.Book.{BookValue};
ghost use Rattle.nfs_pool.specs.Eras.{EndsSome, LeavesEra, TellAll, told_in};

use crate::comparing::take_all_told;
use crate::pool::Pool;
use crate::room::EraRoom;
use nfs_engine::{Era, Receipt};
use nfs_objects::Object;
use nfs_stamps::Naming;
use std::alloc::Global;
use std::marker::Model;
use std::sync::Arc;
use std::sync::ledger::Ledger;

/// An era that is over, whose receipts are as many as its records and not yet compared with them, and what was swept at
/// its end. A clause sees what the receipts tell. It has to be spent, and nobody outside of this crate can but compare
/// it.
pub struct Ended {
    era: Era,
    /// The receipts of each seat.
    lists: Vec<Vec<Receipt>>,
    /// What was swept, which is let go with the era.
    gone: Vec<Arc<Object>>,
}

impl Model for Ended {
    ghost use Rattle.std.specs.Prelude.{length, vec_capacity};
    ghost use Rattle.nfs_pool.specs.Eras.{EndedValue, IsLeft, told_in};

    ghost Value = { EndedValue };

    ghost view = { λ e. record { era = e.era; receipts = told_in e.lists.items; room = vec_capacity e.lists } };

    ghost invariant = { λ e. IsLeft
        (record { era = e.era; receipts = told_in e.lists.items; room = vec_capacity e.lists }) };
}

impl Ended {
    /// The era that a book came from, and the receipts of each seat; and room for what is swept.
    pub(crate) fn new(era: Era, lists: Vec<Vec<Receipt>>, gone: Vec<Arc<Object>>) -> Ended
        requires { (old : BookValue) × (new : BookValue) × LeavesEra old new (length (told_in lists.items)) era }
        ensures { result ≡ record { era = era; receipts = told_in lists.items; room = vec_capacity lists } }
    {
        Ended { era, lists, gone }
    }

    /// Sweeps a few pages of dead files in a pool. What stood there is let go with the era.
    pub(crate) fn sweep<L: Ledger + Naming>(&mut self, alloc: Global, pool: &mut Pool<L>)
        ensures { self.new ≡ self.old }
    {
        pool.sweep(alloc, &mut self.gone);
    }

    /// Whether something was swept at the era's end.
    pub fn has_swept(&self) -> bool {
        !self.gone.is_empty()
    }

    /// The receipts of each seat, the oldest first.
    pub fn receipts(&self) -> &[Vec<Receipt>]
        ensures { told_in result.now ≡ self.now.receipts }
    {
        &self.lists
    }

    /// The records, where the receipts of all seats are they, each once; and the room in which the era ended. It takes
    /// no memory.
    ///
    /// # Errors
    ///
    /// A record has no equal receipt. Records and room are handed back.
    pub fn compare(self) -> Result<(Era, EraRoom), (Era, EraRoom)>
        ensures era { IfOk result (λ r. r.0 ≡ self.era) }
        ensures room { IfOk result (λ r. r.1 ≡ self.room) }
        ensures ends { IfOk result (λ r. EndsSome self.receipts r.0) }
        ensures missing { IfErr result
            (λ _. TellAll self.era.before (map shared_value self.era.records.items) self.receipts → ⊥) }
        ensures back { IfErr result (λ e. (e.0 ≡ self.era) × (e.1 ≡ self.room)) }
    {
        let Ended { era, lists, gone } = self;
        let mut lists = lists;
        let are_told = take_all_told(era.before, &era.records, &mut lists);
        let room = EraRoom::without(lists, gone);
        if are_told {
            Ok((era, room))
        } else {
            Err((era, room))
        }
    }

    /// The records as they are, and the room in which the era ended.
    pub(crate) fn into_parts(self) -> (Era, EraRoom)
        ensures era { result.0 ≡ self.era }
        ensures room { result.1 ≡ self.room }
    {
        let Ended { era, lists, gone } = self;
        (era, EraRoom::without(lists, gone))
    }
}
