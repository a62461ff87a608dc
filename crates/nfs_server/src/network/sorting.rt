//! The thread that takes messages out of the pool, and hands each on to the thread that sends those to its host.

use crate::callbacks::Callbacks;
use crate::network::counters::CountedEvent;
use crate::network::dispatcher::Dispatcher;
use crate::network::mailbox::Mailbox;
use nfs_engine::Posted;
use nfs_pool::Naming;
use std::rt::Clock;
use std::sync::ledger::Ledger;
use std::sync::{Arc, Wait};

/// How many messages are taken on one permit, so that others have it soon.
const MOST_MESSAGES: usize = 64;

/// What hands messages on.
#[derive(Drop)]
pub(crate) struct Sorter<L: Ledger + Naming, C> {
    pub(crate) dispatcher: Dispatcher<L, C>,
    pub(crate) callbacks: Arc<Callbacks>,
    /// Where messages to the host of each callback wait.
    pub(crate) mailboxes: Vec<Arc<Mailbox>>,
}

impl<L: Ledger + Naming, C: Clock> Sorter<L, C> {
    /// Hands messages on as they come, the oldest first.
    pub(crate) fn work<R: Wait>(&self, rt: &R) {
        for _ in rt.forever() {
            if self.is_emptied(rt) {
                self.dispatcher.wakeup.wait(rt);
            }
        }
        unreachable!()
    }

    /// Hands messages on, so many at most. Whether there was none any more.
    fn is_emptied<R: Wait>(&self, rt: &R) -> bool {
        let permit = self.dispatcher.permits.take(rt);
        let mut is_emptied = false;
        for _ in 0..MOST_MESSAGES {
            match permit.pool.message(rt) {
                Some(posted) => self.hand_on(rt, posted),
                None => {
                    is_emptied = true;
                    break;
                }
            }
        }
        self.dispatcher.permits.give(rt, permit);
        is_emptied
    }

    /// Hands a message on. One whose host is not called back is dropped.
    fn hand_on<R: Wait>(&self, rt: &R, posted: Posted) {
        let is_dropped = match self.mailbox(&posted) {
            Some(mailbox) => mailbox.put(rt, posted),
            None => {
                drop(posted);
                true
            }
        };
        if is_dropped {
            self.dispatcher.counters.happened(CountedEvent::Dropped);
        }
    }

    /// Where a message waits for its host: with the last callback that names it.
    fn mailbox(&self, posted: &Posted) -> Option<&Arc<Mailbox>> {
        let behind = self.callbacks.behind_host(&posted.message.host)?;
        self.mailboxes.iter().rev().nth(behind)
    }
}
