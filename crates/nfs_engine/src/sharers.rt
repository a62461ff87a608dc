//! Who holds an address beside each other.

ghost use Rattle.std.specs.Prelude.{◌≡◌, ◌≢◌, [], ◌∷◌, ◌||◌, ◌==◌, ℕ, IfOk, MatchOption, OnErr, OnOk, not};
ghost use Rattle.std.specs.Prelude.{slice_get};
ghost use Rattle.std.specs.List.{filter};
ghost use Rattle.nfs_engine.specs.Holders.{is_among};

use std::alloc::{AllocError, Global};
use std::marker::Model;

/// Who holds an address beside each other, by their numbers, each once. There is at least one.
#[derive(Drop)]
pub struct Sharers {
    ids: Vec<u64>,
}

impl Model for Sharers {
    ghost use Rattle.std.specs.Prelude.{◌≢◌, ℕ, List, []};
    ghost use Rattle.std.specs.List.{AllPairs};

    ghost Value = { List ℕ };

    ghost view = { λ s. s.ids.items };

    ghost invariant = { λ s. AllPairs (λ x y. x ≢ y) s.ids.items × (s.ids.items ≢ []) };
}

impl Sharers {
    /// One alone.
    ///
    /// # Errors
    ///
    /// There is no memory for the list.
    pub fn one(alloc: Global, id: u64) -> Result<Sharers, AllocError>
        ensures { IfOk result (λ sharers. sharers ≡ id ∷ []) }
    {
        let mut ids = Vec::new(alloc);
        ids.push(id)?;
        Ok(Sharers { ids })
    }

    /// There are some.
    pub fn are_some(&self)
        ensures { self.now ≢ [] }
    {
        let _ = &self.ids;
    }

    /// One of them.
    pub fn first(&self) -> Option<u64>
        ensures { result ≡ slice_get self.now 0 }
    {
        self.ids.first().copied()
    }

    /// Whether this one is among them.
    pub fn has(&self, id: u64) -> bool
        ensures { result ≡ is_among self.now id }
    {
        self.ids.contains(&id)
    }

    /// Adds one, who may be among them.
    ///
    /// # Errors
    ///
    /// There is no memory for one more. Nothing is changed.
    pub fn add(&mut self, id: u64) -> Result<(), AllocError>
        ensures added { OnOk result ((j : ℕ) → is_among self.new j ≡ ((id == j) || is_among self.old j)) }
        ensures err { OnErr result (self.new ≡ self.old) }
    {
        if self.ids.contains(&id) {
            return Ok(());
        }
        self.ids.push(id)?;
        Ok(())
    }

    /// Those without this one; None where nobody is left.
    pub fn without(self, id: u64) -> Option<Sharers>
        ensures { MatchOption result (filter (λ h. not (h == id)) self ≡ [])
            (λ left. left ≡ filter (λ h. not (h == id)) self) }
    {
        let Sharers { mut ids } = self;
        ids.retain(|h| *h != id);
        if ids.is_empty() {
            return None;
        }
        Some(Sharers { ids })
    }
}
