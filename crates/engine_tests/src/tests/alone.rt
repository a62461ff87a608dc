//! An engine with one call in progress, from its beginning to its end.

ghost use Rattle.std.specs.Prelude.{◌<◌};
ghost use Rattle.nfs_engine.specs.Engine.{Lives};

use super::admissions::admitted;
use nfs_engine::{Engine, Got, Next, Pending, Release, ReserveError, Txn};
use nfs_machine::{Call, Ctx};
use nfs_objects::{Addr, Mode, Reserved, View};
use std::alloc::{AllocError, Global};
use std::marker::Model;
use std::process::Abort;

/// What asking for an address comes to that the call has not read.
fn acquire(
    rt: &(impl Abort + AllocGlobal),
    engine: &mut Engine,
    txn: &mut Txn,
    address: Addr,
    mode: Mode,
) -> Result<Got, AllocError>
    requires { Lives engine.old txn.old }
    ensures { Lives engine.new txn.new }
{
    assert!(rt; txn.view().find(address).is_none());
    engine.acquire(rt.alloc(), txn, address, mode)
}

/// What asking for a number of a shard comes to.
fn reserve(
    rt: &(impl Abort + AllocGlobal),
    engine: &mut Engine,
    txn: &mut Txn,
    shard: usize,
) -> Result<(), ReserveError>
    requires lives { Lives engine.old txn.old }
    requires shard { shard < 16 }
    ensures { Lives engine.new txn.new }
{
    engine.reserve(rt.alloc(), txn, shard)
}

/// An engine in which one call is in progress.
pub(super) struct Alone {
    engine: Engine,
    txn: Txn,
}

impl Model for Alone {
    ghost use Rattle.nfs_engine.specs.Engine.{Lives};

    ghost Value = { Unit {0} };

    ghost view = { λ _. tt };

    ghost invariant = { λ a. Lives a.engine a.txn };
}

impl Alone {
    /// The call of the record of these words begins.
    pub(super) fn begun(rt: &(impl Abort + AllocGlobal), engine: Engine, words: &[u32]) -> Alone {
        let mut engine = engine;
        let txn = admitted(rt, &mut engine, words);
        Alone { engine, txn }
    }

    /// How many calls are in progress, and how many addresses are held.
    pub(super) fn counts(&self) -> (usize, usize) {
        (self.engine.living(), self.engine.locked())
    }

    /// What the call has read.
    pub(super) fn view(&self) -> &View {
        self.txn.view()
    }

    /// The call.
    pub(super) fn call(&self) -> &Call {
        self.txn.call()
    }

    /// What it is made under.
    pub(super) fn ctx(&self) -> &Ctx {
        self.txn.ctx()
    }

    /// What asking for an address comes to, if need be at a second try. A refused try reads nothing.
    pub(super) fn asks(
        &mut self,
        rt: &(impl Abort + AllocGlobal),
        address: Addr,
        mode: Mode,
    ) -> Got {
        match acquire(rt, &mut self.engine, &mut self.txn, address, mode) {
            Ok(got) => got,
            Err(AllocError) => match acquire(rt, &mut self.engine, &mut self.txn, address, mode) {
                Ok(got) => got,
                Err(AllocError) => panic!(rt; "no memory for a second try"),
            },
        }
    }

    /// A number of a shard for the call, if need be at a second try.
    pub(super) fn reserves(
        &mut self,
        rt: &(impl Abort + AllocGlobal),
        shard: usize,
    ) -> Option<Reserved>
        requires { shard < 16 }
    {
        if reserve(rt, &mut self.engine, &mut self.txn, shard).is_err() {
            assert!(rt; reserve(rt, &mut self.engine, &mut self.txn, shard).is_ok());
        }
        self.txn.view().reserved().last().copied()
    }

    /// The attempt is given up.
    pub(super) fn abort(self) -> Leaving {
        let Alone { engine, txn } = self;
        let release = engine.abort(txn);
        Leaving { engine, release }
    }

    /// The call is given up, which holds addresses of one shard at most.
    pub(super) fn end(self, rt: &impl Abort) -> Engine {
        self.abort().let_go_last(rt).give_up()
    }
}

/// An engine in which the one call lets go what it held.
pub(super) struct Leaving {
    engine: Engine,
    release: Release,
}

impl Model for Leaving {
    ghost use Rattle.nfs_engine.specs.Engine.{IsLeaving};

    ghost Value = { Unit {0} };

    ghost view = { λ _. tt };

    ghost invariant = { λ l. IsLeaving l.engine l.release };
}

impl Leaving {
    /// The only shard that is left is let go, if there is one.
    pub(super) fn let_go_last(self, rt: &impl Abort) -> Waiting {
        let Leaving {
            mut engine,
            release,
        } = self;
        match engine.release(release) {
            Next::Aborted(pending) => Waiting { engine, pending },
            Next::More(_release) => panic!(rt; "no shard is left"),
            Next::Ended => panic!(rt; "it was given up"),
        }
    }
}

/// An engine in which the one call holds nothing, and may begin again.
pub(super) struct Waiting {
    engine: Engine,
    pending: Pending,
}

impl Model for Waiting {
    ghost use Rattle.nfs_engine.specs.Engine.{Waits};

    ghost Value = { Unit {0} };

    ghost view = { λ _. tt };

    ghost invariant = { λ w. Waits w.engine w.pending };
}

impl Waiting {
    /// How many calls are in progress, and how many addresses are held.
    pub(super) fn counts(&self) -> (usize, usize) {
        (self.engine.living(), self.engine.locked())
    }

    /// The call begins again.
    pub(super) fn again(self, alloc: Global) -> Alone {
        let Waiting { engine, pending } = self;
        let txn = engine.again(alloc, pending);
        Alone { engine, txn }
    }

    /// The call is given up.
    pub(super) fn give_up(self) -> Engine {
        let Waiting {
            mut engine,
            pending,
        } = self;
        drop(engine.give_up(pending));
        engine
    }
}
