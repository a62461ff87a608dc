//! Messages that are to be sent.

ghost use Rattle.std.specs.Prelude.{◌≡◌, ◌+◌, ◌<◌, ◌≤◌, ◌^◌, [], ◌++◌, length, IfOk, IsOk, OnOk};
ghost use Rattle.std.specs.Bool.{Decides};
ghost use Rattle.side_wire.specs.Messages.{HasCallbackForm};
ghost use Rattle.nfs_engine.specs.Posting.{HasCallbackForm-prop, HaveForms};

use side_wire::Message;
use std::alloc::{AllocError, Global};
use std::collections::VecDeque;
use std::marker::Model;

/// A message that was taken, with its number. It can be spelled.
#[derive(Drop)]
pub struct Posted {
    /// From 1.
    pub number: u64,
    pub message: Message,
    pub ghost form: { HasCallbackForm message.call } by { HasCallbackForm-prop message.call },
}

/// The messages of what was executed that were not yet taken, the oldest first. They are numbered from 1.
#[derive(Drop)]
pub(crate) struct Outbox {
    waiting: VecDeque<Message>,
    taken: u64,
}

impl Model for Outbox {
    ghost use Rattle.std.specs.Prelude.{◌-◌};
    ghost use Rattle.std.specs.VecDeque.{deque_capacity, deque_len};
    ghost use Rattle.nfs_engine.specs.Journal.{IsOutbox, OutboxValue};

    ghost Value = { OutboxValue };

    ghost view = { λ o. record {
      waiting = o.waiting.items;
      taken = o.taken;
      room = deque_capacity o.waiting - deque_len o.waiting;
    } };

    ghost invariant = { λ o. IsOutbox o.waiting.items o.taken };
}

impl Outbox {
    ghost use Rattle.nfs_engine.specs.Journal.{TakesPosted};

    /// No message yet.
    pub(crate) fn new(alloc: Global) -> Outbox
        ensures { (result.waiting ≡ []) × (result.taken ≡ 0) }
    {
        Outbox {
            waiting: VecDeque::new(alloc),
            taken: 0,
        }
    }

    /// Whether so many more messages have numbers up to 2^64 - 1.
    pub(crate) fn has_numbers(&self, count: usize) -> bool
        ensures { Decides result (self.now.taken + length self.now.waiting + count < 2 ^ 64) }
    {
        (self.taken + self.waiting.len() as u64)
            .checked_add(count as u64)
            .is_some()
    }

    /// Makes room for so many messages, where there is less.
    pub(crate) fn make_room(&mut self, count: usize) -> Result<(), AllocError>
        ensures same { self.new ≡ record self.old { room = self.new.room } }
        ensures room { OnOk result (count ≤ self.new.room) }
        ensures enough { count ≤ self.old.room → IsOk result }
    {
        self.waiting.reserve(count)
    }

    /// Adds messages, for which there is room, at the end.
    pub(crate) fn post(&mut self, messages: Vec<Message>)
        requires room { length messages.items ≤ self.old.room }
        requires numbers { self.old.taken + length self.old.waiting + length messages.items < 2 ^ 64 }
        requires forms { HaveForms messages.items }
        ensures { self.new ≡ record self.old {
          waiting = self.old.waiting ++ messages.items;
          room = self.new.room;
        } }
    {
        let mut messages = messages.into_iter();
        'messages: while let Some(message) = messages.next() {
            self.waiting.push_back(message).unwrap();
        }
    }

    /// Takes the oldest message.
    pub(crate) fn take(&mut self) -> Option<Posted>
        ensures { TakesPosted self.old self.new result }
    {
        let message = self.waiting.pop_front()?;
        self.taken += 1;
        Some(Posted {
            number: self.taken,
            message,
        })
    }
}

/// The same messages once more; they share their bytes.
pub(crate) fn copy_messages(alloc: Global, messages: &[Message]) -> Result<Vec<Message>, AllocError>
    ensures { IfOk result (λ copies. copies.items ≡ messages.now) }
{
    let mut copies = Vec::with_capacity(alloc, messages.len())?;
    for message in messages {
        copies.push(message.clone()?)?;
    }
    Ok(copies)
}
