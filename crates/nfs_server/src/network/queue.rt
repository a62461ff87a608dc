//! Messages that wait for one host, so many at most.

ghost use Rattle.std.specs.Prelude.{◌≡◌};
ghost use Rattle.nfs_server.specs.Queued.{IsTaken, count_of, is_grant, put, with_grant, with_last};

use nfs_engine::Posted;
use side_wire::Callback;
use std::alloc::{AllocError, Global};
use std::collections::VecDeque;
use std::marker::Model;

/// How many messages wait for a host at most.
pub(crate) const MOST_WAITING: usize = 1_000;

/// Messages that wait for one host, the oldest of each kind first. To put one takes no memory.
#[derive(Drop)]
pub(crate) struct Queue {
    /// Grants, which are sent before all others.
    grants: VecDeque<Posted>,
    /// The results of calls.
    results: VecDeque<Posted>,
}

impl Model for Queue {
    ghost use Rattle.std.specs.Prelude.{◌+◌, ◌≤◌};
    ghost use Rattle.std.specs.VecDeque.{deque_capacity, deque_len};
    ghost use Rattle.std.specs.Coded.{codes};
    ghost use Rattle.nfs_engine.specs.contracts.outbox.Posted as posted;
    ghost use Rattle.nfs_server.specs.Queued.{Waiting};
    ghost use Rattle.nfs_server.specs.declared.network.queue.TheConstants.{MOST_WAITING};

    ghost Value = { Waiting };

    ghost coded = { Prim.hlevel (codes, posted.the_row.coded) };

    ghost view = { λ q. record { grants = q.grants.items; results = q.results.items } };

    ghost invariant = { λ q. (deque_len q.grants + deque_len q.results ≤ MOST_WAITING)
        × ((MOST_WAITING ≤ deque_capacity q.grants) × (MOST_WAITING ≤ deque_capacity q.results)) };
}

impl Queue {
    ghost use Rattle.std.specs.Prelude.{[], ◌<◌, ◌≤◌, ◌==◌, nat_lt, not, IfOk};

    /// Nothing waits.
    ///
    /// # Errors
    ///
    /// There is no memory for so many messages.
    pub(crate) fn new(alloc: Global) -> Result<Queue, AllocError>
        ensures { IfOk result (λ queue. (queue.grants ≡ []) × (queue.results ≡ [])) }
    {
        Ok(Queue {
            grants: VecDeque::with_capacity(alloc, MOST_WAITING)?,
            results: VecDeque::with_capacity(alloc, MOST_WAITING)?,
        })
    }

    /// Whether nothing waits.
    pub(crate) fn is_empty(&self) -> bool
        ensures { result ≡ (count_of self.now == 0) }
    {
        self.len() == 0
    }

    /// How many wait.
    fn len(&self) -> usize
        ensures count { result ≡ count_of self.now }
        ensures bounded { result ≤ MOST_WAITING }
    {
        self.grants.len() + self.results.len()
    }

    /// Puts a message after those of its kind that wait. Where so many wait already a result of a call is dropped:
    /// this message, or for a grant the oldest one that waits. Where grants alone wait it is dropped too. Whether one
    /// was dropped.
    pub(crate) fn put(&mut self, posted: Posted) -> bool
        ensures puts { self.new ≡ put self.old posted }
        ensures bounded { count_of self.new ≤ MOST_WAITING }
        ensures dropped { result ≡ not (nat_lt (count_of self.old) MOST_WAITING) }
    {
        if self.len() < MOST_WAITING {
            self.put_last(posted);
            return false;
        }
        if is_grant(&posted) {
            self.put_grant(posted);
        } else {
            drop(posted);
        }
        true
    }

    /// Puts a message after those of its kind.
    fn put_last(&mut self, posted: Posted)
        requires { count_of self.old < MOST_WAITING }
        ensures { self.new ≡ with_last self.old posted }
    {
        if is_grant(&posted) {
            self.grants.push_back_reserved(posted);
        } else {
            self.results.push_back_reserved(posted);
        }
    }

    /// Puts a grant, for which the oldest result is dropped. Where grants alone wait, this one is.
    fn put_grant(&mut self, posted: Posted)
        requires { count_of self.old ≡ MOST_WAITING }
        ensures { self.new ≡ with_grant self.old posted }
    {
        match self.results.pop_front() {
            Some(oldest) => {
                drop(oldest);
                self.grants.push_back_reserved(posted);
            }
            None => drop(posted),
        }
    }

    /// Takes the oldest grant, or where none waits the oldest result.
    pub(crate) fn take(&mut self) -> Option<Posted>
        ensures { IsTaken self.old self.new result }
    {
        if self.grants.is_empty() {
            self.results.pop_front()
        } else {
            self.grants.pop_front()
        }
    }
}

/// Whether a message tells a host of a lock that it waited for.
fn is_grant(posted: &Posted) -> bool
    ensures { result ≡ is_grant posted.now }
{
    matches!(
        &posted.message.call,
        Callback::Granted(_) | Callback::GrantedMsg(_)
    )
}
