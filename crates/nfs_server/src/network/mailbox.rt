//! Where messages to one host wait for the thread that sends them.

use crate::network::queue::Queue;
use nfs_engine::Posted;
use std::alloc::{AllocError, Global};
use std::sync::{Condvar, Mutex, Wait};

/// The messages that wait for one host. Who puts one waits for no host, and takes no memory.
#[derive(Drop)]
pub(crate) struct Mailbox {
    queue: Mutex<Queue>,
    /// Notified when a message was put.
    put: Condvar,
}

impl Mailbox {
    /// Nothing waits.
    ///
    /// # Errors
    ///
    /// There is no memory for the messages that may wait.
    pub(crate) fn new(alloc: Global) -> Result<Mailbox, AllocError> {
        Ok(Mailbox {
            queue: Mutex::new(Queue::new(alloc)?),
            put: Condvar::new(),
        })
    }

    /// Puts a message, as `Queue::put` has it. Whether one was dropped.
    pub(crate) fn put<R: Wait>(&self, rt: &R, posted: Posted) -> bool {
        let mut guard = self.queue.lock(rt);
        let queue = &mut *guard;
        let is_dropped = queue.put(posted);
        drop(guard);
        self.put.notify_all();
        is_dropped
    }

    /// Takes the message that is to be sent next, as `Queue::take` has it, once there is one.
    pub(crate) fn take<R: Wait>(&self, rt: &R) -> Posted {
        for _ in rt.forever() {
            let guard = self.queue.lock(rt);
            let mut guard = self.put.wait_while(rt, guard, |queue| queue.is_empty());
            let queue = &mut *guard;
            if let Some(posted) = queue.take() {
                return posted;
            }
        }
        unreachable!()
    }
}
