//! Who makes calls.

ghost use Rattle.std.specs.Prelude.{◌≡◌, ◌+◌, ◌≤◌, ℕ, [], length, max, vec_capacity};
ghost use Rattle.nfs_pool.specs.Eras.{AreNew, told_by, told_in};
ghost use Rattle.nfs_pool.specs.Seats.{Counts};

use nfs_engine::{Receipt, SHARDS};
use std::alloc::Global;
use std::marker::Model;
use std::sync::ledger::{Ledger, Share};

/// What one caller has: a part of the pool's ledger, and a receipt of each of its calls of the era that was executed. A
/// clause sees it as its receipts.
#[derive(Drop)]
pub struct Seat<L: Ledger> {
    /// Of which shard the new numbers of its first call are.
    pub(crate) shard: usize,
    pub(crate) share: Share<L>,
    pub(crate) receipts: Vec<Receipt>,
    /// The number of its last receipt, or a higher one that its next one is to be above.
    pub(crate) last: u64,
}

impl<L: Ledger> Model for Seat<L> {
    ghost use Rattle.nfs_pool.specs.Seats.{IsSeat, SeatValue};

    ghost Value = { SeatValue };

    ghost view = { λ s. record { shard = s.shard; receipts = s.receipts.items; last = s.last } };

    ghost invariant = { λ s. IsSeat
        (record { shard = s.shard; receipts = s.receipts.items; last = s.last }) s.share.parts s.share.amount };
}

impl<L: Ledger> Seat<L> {
    /// A seat with one part of the ledger, and no receipt.
    pub(crate) fn new(alloc: Global, number: usize, share: Share<L>) -> Seat<L>
        requires part { share.parts ≡ 1 }
        requires none { Counts 0 share.amount }
        ensures { result.receipts ≡ [] }
    {
        Seat {
            shard: number % SHARDS,
            share,
            receipts: Vec::new(alloc),
            last: 0,
        }
    }

    /// Of its calls of the era that were executed, the oldest first.
    pub fn receipts(&self) -> &[Receipt]
        ensures { result.now ≡ self.now.receipts }
    {
        &self.receipts
    }

    /// The numbers of its next receipts are above this one too.
    pub fn go_above(&mut self, number: u64)
        ensures { self.new ≡ record self.old { last = max self.old.last number } }
    {
        self.last = self.last.max(number);
    }

    /// Gives its part back, and leaves its receipts.
    pub(crate) fn leave(self, all: &mut Share<L>) -> Vec<Receipt>
        ensures parts { all.new.parts ≡ all.old.parts + 1 }
        ensures counted { (receipts : ℕ) → Counts receipts all.old.amount →
            Counts (receipts + length self.receipts) all.new.amount }
        ensures receipts { result.items ≡ self.receipts }
    {
        let Seat {
            shard: _,
            share,
            receipts,
            last: _,
        } = self;
        all.merge(share);
        receipts
    }
}

/// A seat for each part of the share, in this room. The last one has what is counted of eras that are over.
pub(crate) fn new_seats<L: Ledger>(
    alloc: Global,
    room: Vec<Seat<L>>,
    all: Share<L>,
    count: usize,
) -> Vec<Seat<L>>
    requires parts { all.parts ≡ count }
    requires none { Counts 0 all.amount }
    requires empty { room.items ≡ [] }
    requires room { count ≤ vec_capacity room }
    ensures { AreNew result.items count }
{
    let Some(last) = count.checked_sub(1) else {
        return room;
    };
    let mut seats = room;
    let mut all = all;
    for number in 0..last {
        let seat = Seat::new(alloc, number, all.split_off(1, 0));
        seats.push_reserved(seat);
    }
    seats.push_reserved(Seat::new(alloc, last, all));
    seats
}

/// Gives the parts of these seats back, and leaves the receipts of each in this room. The seats' own room is left.
pub(crate) fn leave_all<L: Ledger>(
    seats: Vec<Seat<L>>,
    room: Vec<Vec<Receipt>>,
    all: &mut Share<L>,
) -> (Vec<Vec<Receipt>>, Vec<Seat<L>>)
    requires empty { room.items ≡ [] }
    requires room { length seats.items ≤ vec_capacity room }
    requires none { Counts 0 all.old.amount }
    ensures parts { all.new.parts ≡ all.old.parts + length seats.items }
    ensures counted { Counts (length (told_in result.0.items)) all.new.amount }
    ensures told { told_in result.0.items ≡ told_by seats.items }
    ensures same { vec_capacity result.0 ≡ vec_capacity room }
    ensures emptied { result.1.items ≡ [] }
    ensures left { vec_capacity result.1 ≡ vec_capacity seats }
{
    let mut lists = room;
    let mut rest = seats;
    // So that the first seat is taken out first.
    rest.reverse();
    'seats: while let Some(seat) = rest.pop() {
        lists.push_reserved(seat.leave(all));
    }
    (lists, rest)
}
