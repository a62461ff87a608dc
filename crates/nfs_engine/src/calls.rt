//! Calls in progress.

ghost use Rattle.std.specs.Prelude.{◌≡◌, IfOk, MatchResult, map};
ghost use Rattle.nfs_objects.specs.Promise.{IsPromised};
ghost use Rattle.nfs_objects.specs.Values.{change_value, done_value, write_value};
ghost use Rattle.nfs_machine.specs.RpcReplies.{success_message};
ghost use Rattle.nfs_engine.specs.Arrivals.{shared_value};
ghost use Rattle.nfs_engine.specs.Calls.{IsCalled, IsFinished, change_from, done_from, finished_of, txn_of};
ghost use Rattle.nfs_engine.specs.Made.{IsMade};
ghost use Rattle.nfs_engine.specs.Forms.{HasForm};

use crate::answers;
use crate::arrival::Executed;
use crate::ready::Ready;
use crate::request::Request;
use bytes::Bytes;
use nfs_machine::{Call, Ctx};
use nfs_objects::{Change, View, Write};
use std::alloc::{AllocError, Global};
use std::marker::Model;
use std::sync::Arc;

/// A call in progress, with what it has read and how it holds that. It has to be spent.
pub struct Txn {
    pub(crate) id: u64,
    pub(crate) key: usize,
    pub(crate) request: Box<Request>,
    pub(crate) view: View,
}

impl Model for Txn {
    ghost use Rattle.nfs_engine.specs.Arrivals.{incoming_value};
    ghost use Rattle.nfs_engine.specs.Calls.{IsCalled, TxnValue};

    ghost Value = { TxnValue };

    ghost view = { λ t. record {
      id = t.id;
      key = t.key;
      received = incoming_value t.request.value.received;
      xid = t.request.value.xid;
      call = t.request.value.call;
      ctx = t.request.value.ctx;
      view = t.view;
    } };

    ghost invariant = { λ t. IsCalled (incoming_value t.request.value.received) t.request.value.xid
        t.request.value.call t.request.value.ctx };
}

impl Txn {
    /// The call.
    pub fn call(&self) -> &Call
        ensures { result.now ≡ self.now.call }
    {
        &self.request.call
    }

    /// What it is made under.
    pub fn ctx(&self) -> &Ctx
        ensures { result.now ≡ self.now.ctx }
    {
        &self.request.ctx
    }

    /// What it has read.
    pub fn view(&self) -> &View
        ensures { result.now ≡ self.now.view }
    {
        &self.view
    }

    /// It is what came in asks.
    pub fn show_called(&self)
        ensures { IsCalled self.now.received self.now.xid self.now.call self.now.ctx }
    {
        let _ = &self.request;
    }

    /// The call with what it is to change and answer, as its attempt on this view came to it.
    ///
    /// # Errors
    ///
    /// The call as it was, where the memory was refused.
    #[inline(always)]
    pub fn done(self, alloc: Global, change: Change) -> Result<Finished, Txn>
        requires { IsPromised (done_value self.call self.ctx self.view (change_value change)) }
        ensures { MatchResult result
            (λ finished. finished ≡ finished_of self (change_value change)) (λ txn. txn ≡ self) }
    {
        let Ok(received) = self.request.received.share() else {
            drop(change);
            return Err(self);
        };
        let Change {
            writes,
            messages,
            reply,
        } = change;
        let executed = Executed {
            received,
            reply,
            messages,
        };
        let executed = match Arc::new(alloc, executed) {
            Ok(executed) => executed,
            Err(refused) => {
                drop(refused);
                drop(writes);
                return Err(self);
            }
        };
        match Ready::new(alloc, self.request.xid, &writes, &executed) {
            Ok(ready) => Ok(self.finish(writes, executed, ready)),
            Err(AllocError) => {
                drop(writes);
                drop(executed);
                Err(self)
            }
        }
    }

    /// The call with its writes, with what it is recorded as, and with what its commit gives away.
    fn finish(self, writes: Vec<Write>, executed: Arc<Executed>, ready: Ready) -> Finished
        requires finished { IsFinished self.received self.xid
            (done_from self.call self.ctx self.view writes executed) executed }
        requires made { IsMade self.xid (map write_value writes.items) (shared_value executed) ready }
        ensures { result ≡ finished_of self (change_from writes executed) }
    {
        let Txn {
            id,
            key,
            request,
            view,
        } = self;
        Finished {
            id,
            key,
            request,
            view,
            writes,
            executed,
            ready,
        }
    }
}

/// A call with what it is to change and answer. Its type keeps the promise, that this is a step of the machine from
/// every sound store that its view fits. It has to be spent.
pub struct Finished {
    pub(crate) id: u64,
    pub(crate) key: usize,
    pub(crate) request: Box<Request>,
    pub(crate) view: View,
    pub(crate) writes: Vec<Write>,
    pub(crate) executed: Arc<Executed>,
    pub(crate) ready: Ready,
}

impl Model for Finished {
    ghost use Rattle.std.specs.Prelude.{map};
    ghost use Rattle.nfs_objects.specs.Values.{write_value};
    ghost use Rattle.nfs_engine.specs.Arrivals.{incoming_value, shared_value};
    ghost use Rattle.nfs_engine.specs.Calls.{FinishedValue, IsFinished, done_from};
    ghost use Rattle.nfs_engine.specs.Made.{IsMade};

    ghost Value = { FinishedValue };

    ghost view = { λ f. record {
      id = f.id;
      key = f.key;
      received = incoming_value f.request.value.received;
      xid = f.request.value.xid;
      done = done_from f.request.value.call f.request.value.ctx f.view f.writes f.executed;
    } };

    ghost invariant = { λ f. IsFinished (incoming_value f.request.value.received) f.request.value.xid
        (done_from f.request.value.call f.request.value.ctx f.view f.writes f.executed) f.executed ×
        IsMade f.request.value.xid (map write_value f.writes.items) (shared_value f.executed) f.ready };
}

impl Finished {
    /// What it is made under.
    pub fn ctx(&self) -> &Ctx
        ensures { result.now ≡ self.now.done.ctx }
    {
        &self.request.ctx
    }

    /// What it has read.
    pub fn view(&self) -> &View
        ensures { result.now ≡ self.now.done.view }
    {
        &self.view
    }

    /// A number that no other call has.
    pub fn id(&self) -> u64
        ensures { result ≡ self.now.id }
    {
        self.id
    }

    /// What it is to write.
    pub fn writes(&self) -> &[Write]
        ensures { map write_value result.now ≡ self.now.done.change.writes }
    {
        &self.writes
    }

    /// The bytes of its answer. They are spelled here only where the reply alone does not tell that it has a form.
    pub(crate) fn answer(&self, alloc: Global) -> Result<Bytes, AllocError>
        requires { HasForm self.now.done.change.reply }
        ensures { IfOk result (λ bytes. bytes ≡ success_message self.now.xid self.now.done.change.reply) }
    {
        match &self.ready.answer {
            Some(answer) => answer.clone(),
            None => {
                let answer = answers::success(alloc, self.request.xid, &self.executed.reply)?;
                Ok(Bytes::from_vec(answer)?)
            }
        }
    }

    /// It is what came in asks, and keeps the promise.
    pub fn show_finished(&self)
        ensures called { IsCalled self.now.received self.now.xid self.now.done.call self.now.done.ctx }
        ensures promised { IsPromised self.now.done }
    {
        let _ = &self.request;
    }

    /// The call without what it was to change.
    pub fn into_txn(self) -> Txn
        ensures { result ≡ txn_of self }
    {
        let Finished {
            id,
            key,
            request,
            view,
            writes,
            executed,
            ready,
        } = self;
        drop(writes);
        drop(executed);
        drop(ready);
        Txn {
            id,
            key,
            request,
            view,
        }
    }
}

/// A call in progress that holds nothing. It has to be spent.
pub struct Pending {
    pub(crate) id: u64,
    pub(crate) key: usize,
    pub(crate) request: Box<Request>,
}

impl Model for Pending {
    ghost use Rattle.nfs_engine.specs.Arrivals.{incoming_value};
    ghost use Rattle.nfs_engine.specs.Calls.{IsCalled, PendingValue};

    ghost Value = { PendingValue };

    ghost view = { λ p. record {
      id = p.id;
      key = p.key;
      received = incoming_value p.request.value.received;
      xid = p.request.value.xid;
      call = p.request.value.call;
      ctx = p.request.value.ctx;
    } };

    ghost invariant = { λ p. IsCalled (incoming_value p.request.value.received) p.request.value.xid
        p.request.value.call p.request.value.ctx };
}

impl Pending {
    ghost use Rattle.nfs_engine.specs.Calls.{again_of};

    /// The same call, which begins anew: it has read nothing. It takes no memory.
    pub fn again(self, alloc: Global) -> Txn
        ensures { result ≡ again_of self }
    {
        let Pending { id, key, request } = self;
        Txn {
            id,
            key,
            request,
            view: View::new(alloc),
        }
    }
}
