//! How many seats a pool has.

ghost use Rattle.std.specs.Prelude.{◌≡◌};
ghost use Rattle.std.specs.Bool.{Decides};

use std::marker::PhantomData;
use std::sync::ledger::Ledger;

/// How many parts the ledger of a pool has: a seat has one.
#[derive(Drop)]
pub(crate) struct Count<L: Ledger> {
    parts: usize,
    ledger: PhantomData<L>,
    ghost all: { parts ≡ L.parts },
}

impl<L: Ledger> Count<L> {
    /// So many.
    pub(crate) fn new(parts: usize) -> Count<L>
        requires { parts ≡ L.parts }
    {
        Count {
            parts,
            ledger: PhantomData,
        }
    }

    /// Whether these are all parts.
    pub(crate) fn is(&self, parts: usize) -> bool
        ensures { Decides result (parts ≡ L.parts) }
    {
        self.parts == parts
    }
}
