//! Room for what the seats of an era leave.

ghost use Rattle.std.specs.Prelude.{◌≡◌, ◌≤◌, [], IfOk, vec_capacity};
ghost use Rattle.std.specs.Bool.{Decides};

use crate::sweeping::MOST_GONE;
use nfs_engine::Receipt;
use nfs_objects::Object;
use std::alloc::{AllocError, Global};
use std::marker::Model;
use std::sync::Arc;

/// Room to end an era in, so that its end takes no memory: a place for what each seat leaves, and places for what is
/// swept then. A clause sees how many places for seats there are.
#[derive(Drop)]
pub struct EraRoom {
    lists: Vec<Vec<Receipt>>,
    gone: Vec<Arc<Object>>,
}

impl Model for EraRoom {
    ghost use Rattle.std.specs.Prelude.{◌≡◌, ℕ, [], vec_capacity};

    ghost Value = { ℕ };

    ghost view = { λ r. vec_capacity r.lists };

    ghost invariant = { λ r. r.lists.items ≡ [] };
}

impl EraRoom {
    /// Room for so many seats.
    ///
    /// # Errors
    ///
    /// There is no memory for it.
    pub fn new(alloc: Global, count: usize) -> Result<EraRoom, AllocError>
        ensures { IfOk result (λ room. count ≤ room) }
    {
        Ok(EraRoom {
            lists: Vec::with_capacity(alloc, count)?,
            gone: Vec::with_capacity(alloc, MOST_GONE)?,
        })
    }

    /// Whether there is room for so many seats.
    pub(crate) fn is_for(&self, count: usize) -> bool
        ensures { Decides result (count ≤ self.now) }
    {
        count <= self.lists.capacity()
    }

    /// The places for seats, in which nothing stands, and those for what is swept.
    pub(crate) fn into_parts(self) -> (Vec<Vec<Receipt>>, Vec<Arc<Object>>)
        ensures empty { result.0.items ≡ [] }
        ensures room { vec_capacity result.0 ≡ self }
    {
        let EraRoom { lists, gone } = self;
        (lists, gone)
    }

    /// The room that is left where these are let go, and what was swept.
    pub(crate) fn without(lists: Vec<Vec<Receipt>>, gone: Vec<Arc<Object>>) -> EraRoom
        ensures { result ≡ vec_capacity lists }
    {
        let mut lists = lists;
        lists.clear();
        let mut gone = gone;
        gone.clear();
        EraRoom { lists, gone }
    }
}
