//! Receipts beside the records of an era.

ghost use Rattle.std.specs.Prelude.{◌≡◌, ◌+◌, ◌++◌, IfNone, IfOk, IfSome, IsPermutation, OnOk, length, map};
ghost use Rattle.std.specs.Prelude.{vec_capacity};
ghost use Rattle.std.specs.Bool.{Decides};
ghost use Rattle.std.specs.List.Sorted.{IsNonDecreasingBy};
ghost use Rattle.nfs_machine.specs.Run.{FromHost, NewExports};
ghost use Rattle.nfs_engine.specs.Arrivals.{incoming_value, received_value, record_value, shared_value};
ghost use Rattle.nfs_pool.specs.Eras.{BeginSo, IsAlike, IsTellIn, IsTold, IsToldAt, NoneTells, StandsAt, TakesTold};
ghost use Rattle.nfs_pool.specs.Eras.{TellAll, told, told_by, told_in, told_number, told_value};

use crate::seat::Seat;
use nfs_engine::{Executed, Incoming, Receipt, Received};
use nfs_machine::{Exports, Moment};
use std::alloc::{AllocError, Global};
use std::sync::Arc;
use std::sync::ledger::Ledger;

/// What a receipt tells.
#[derive(Drop)]
pub(crate) struct Told {
    number: u64,
    executed: Arc<Executed>,
}

/// What the receipts of all these seats tell, in order of their numbers.
///
/// # Errors
///
/// There is no memory for it.
pub(crate) fn told_in_order<L: Ledger>(
    alloc: Global,
    seats: &[Seat<L>],
) -> Result<Vec<Told>, AllocError>
    ensures told { IfOk result (λ tells. IsPermutation (told_by seats.now) (map told_value tells.items)) }
    ensures rises { IfOk result (λ tells. IsNonDecreasingBy told_number tells.items) }
{
    let mut tells = Vec::new(alloc);
    for seat in seats {
        add_receipts(&mut tells, seat.receipts())?;
    }
    tells.sort_unstable_by_key(|tell| tell.number);
    Ok(tells)
}

/// Whether the receipts in these lists are the records, each once, which have the numbers behind this one. They are
/// taken out, from the last record's down, and it takes no memory.
pub(crate) fn take_all_told(
    before: u64,
    records: &[Arc<Executed>],
    lists: &mut Vec<Vec<Receipt>>,
) -> bool
    requires { length (told_in lists.old.items) ≡ length records.now }
    ensures told { Decides result (TellAll before (map shared_value records.now) (told_in lists.old.items)) }
    ensures room { vec_capacity lists.new ≡ vec_capacity lists.old }
{
    let mut left = records.len();
    'records: while left > 0 {
        let place = left - 1;
        if !take_told(before, place, &records[place], lists) {
            return false;
        }
        left = place;
    }
    true
}

/// Takes the receipt that tells this out of these lists, with the number of a record at this place, if there is one.
fn take_told(
    before: u64,
    place: usize,
    executed: &Arc<Executed>,
    lists: &mut Vec<Vec<Receipt>>,
) -> bool
    ensures takes { TakesTold (before + place + 1) (shared_value executed.now) (told_in lists.old.items)
        (told_in lists.new.items) result }
    ensures room { vec_capacity lists.new ≡ vec_capacity lists.old }
{
    match find(before, place, executed, lists) {
        Some((index, at)) => {
            drop(lists[index].remove(at));
            true
        }
        None => false,
    }
}

/// In which list, and at which place there, this is told with the number of a record at this place. The last receipt of
/// each list is looked at first: those of a seat rise.
fn find(
    before: u64,
    place: usize,
    executed: &Arc<Executed>,
    lists: &[Vec<Receipt>],
) -> Option<(usize, usize)>
    ensures found { IfSome result
        (λ p. IsTellIn lists.now p.0 p.1 (before + place + 1) (shared_value executed.now)) }
    ensures none { IfNone result (NoneTells (before + place + 1) (shared_value executed.now) (told_in lists.now)) }
{
    match find_last(before, place, executed, lists) {
        Some(found) => Some(found),
        None => find_anywhere(before, place, executed, lists),
    }
}

/// The list whose last receipt tells this, and that receipt's place.
fn find_last(
    before: u64,
    place: usize,
    executed: &Arc<Executed>,
    lists: &[Vec<Receipt>],
) -> Option<(usize, usize)>
    ensures { IfSome result
        (λ p. IsTellIn lists.now p.0 p.1 (before + place + 1) (shared_value executed.now)) }
{
    for index in 0..lists.len() {
        if let Some(at) = find_at_end(before, place, executed, &lists[index]) {
            return Some((index, at));
        }
    }
    None
}

/// The place of the last receipt, where it tells this.
fn find_at_end(
    before: u64,
    place: usize,
    executed: &Arc<Executed>,
    list: &[Receipt],
) -> Option<usize>
    ensures { IfSome result
        (λ at. IsToldAt (map told list.now) at (before + place + 1) (shared_value executed.now)) }
{
    let last = list.len().saturating_sub(1);
    if is_told_at(before, place, executed, list, last) {
        Some(last)
    } else {
        None
    }
}

/// The list in which a receipt tells this, and that receipt's place.
fn find_anywhere(
    before: u64,
    place: usize,
    executed: &Arc<Executed>,
    lists: &[Vec<Receipt>],
) -> Option<(usize, usize)>
    ensures found { IfSome result
        (λ p. IsTellIn lists.now p.0 p.1 (before + place + 1) (shared_value executed.now)) }
    ensures none { IfNone result (NoneTells (before + place + 1) (shared_value executed.now) (told_in lists.now)) }
{
    for index in 0..lists.len() {
        if let Some(at) = find_in(before, place, executed, &lists[index]) {
            return Some((index, at));
        }
    }
    None
}

/// The place of a receipt that tells this.
fn find_in(before: u64, place: usize, executed: &Arc<Executed>, list: &[Receipt]) -> Option<usize>
    ensures found { IfSome result
        (λ at. IsToldAt (map told list.now) at (before + place + 1) (shared_value executed.now)) }
    ensures none { IfNone result (NoneTells (before + place + 1) (shared_value executed.now) (map told list.now)) }
{
    for at in 0..list.len() {
        if is_told_at(before, place, executed, list, at) {
            return Some(at);
        }
    }
    None
}

/// Whether the receipt there tells this.
fn is_told_at(
    before: u64,
    place: usize,
    executed: &Arc<Executed>,
    list: &[Receipt],
    at: usize,
) -> bool
    ensures { Decides result (IsToldAt (map told list.now) at (before + place + 1) (shared_value executed.now)) }
{
    match list.get(at) {
        Some(receipt) => is_told_by(before, place, receipt, executed),
        None => false,
    }
}

/// Whether the receipt tells this, with the number of a record at this place.
fn is_told_by(before: u64, place: usize, receipt: &Receipt, executed: &Arc<Executed>) -> bool
    ensures { Decides result (IsTold (before + place + 1) (shared_value executed.now) (told receipt.now)) }
{
    is_numbered(before, place, receipt.number) && is_same(&receipt.executed, executed)
}

/// Adds what receipts tell.
fn add_receipts(tells: &mut Vec<Told>, receipts: &[Receipt]) -> Result<(), AllocError>
    ensures { OnOk result (map told_value tells.new.items ≡ map told_value tells.old.items ++ map told receipts.now) }
{
    for receipt in receipts {
        tells.push(Told {
            number: receipt.number,
            executed: Arc::try_clone(&receipt.executed)?,
        })?;
    }
    Ok(())
}

/// Whether these begin with the records, in order, which have the numbers behind this one.
pub(crate) fn begin_so(before: u64, records: &[Arc<Executed>], tells: &[Told]) -> bool
    ensures { Decides result (BeginSo before (map shared_value records.now) (map told_value tells.now)) }
{
    for place in 0..records.len() {
        if !stands_at(before, records, tells, place) {
            return false;
        }
    }
    true
}

/// Whether the record at this place is told there, with its number.
fn stands_at(before: u64, records: &[Arc<Executed>], tells: &[Told], place: usize) -> bool
    ensures { Decides result (StandsAt before (map shared_value records.now) (map told_value tells.now) place) }
{
    match records.get(place) {
        Some(executed) => tells_at(before, tells, place, executed),
        None => true,
    }
}

/// Whether this is told at this place, with the number of a record there.
fn tells_at(before: u64, tells: &[Told], place: usize, executed: &Executed) -> bool
    ensures { Decides result
        (IsToldAt (map told_value tells.now) place (before + place + 1) (record_value executed.now)) }
{
    match tells.get(place) {
        Some(tell) => is_told(before, place, tell, executed),
        None => false,
    }
}

/// Whether it tells this, with the number of a record at this place.
fn is_told(before: u64, place: usize, tell: &Told, executed: &Executed) -> bool
    ensures { Decides result (IsTold (before + place + 1) (record_value executed.now) (told_value tell.now)) }
{
    is_numbered(before, place, tell.number) && is_same(&tell.executed, executed)
}

/// Whether this is the number of a record at this place.
fn is_numbered(before: u64, place: usize, number: u64) -> bool
    ensures { Decides result (number ≡ before + place + 1) }
{
    before < number && number - before - 1 == place as u64
}

/// Whether they are recorded alike.
fn is_same(one: &Executed, other: &Executed) -> bool
    ensures { Decides result (IsAlike (record_value one.now) (record_value other.now)) }
{
    came_alike(&one.received, &other.received)
        && one.reply == other.reply
        && one.messages == other.messages
}

/// Whether they came in alike.
fn came_alike(one: &Incoming, other: &Incoming) -> bool
    ensures { Decides result (incoming_value one.now ≡ incoming_value other.now) }
{
    match one {
        Incoming::Record(received) => is_record(received, other),
        Incoming::Exports(exports, moment) => are_exports(exports, *moment, other),
    }
}

/// Whether it is a record that came in like this one.
fn is_record(received: &Received, incoming: &Incoming) -> bool
    ensures { Decides result (FromHost (received_value received.now) ≡ incoming_value incoming.now) }
{
    match incoming {
        Incoming::Record(other) => records_alike(received, other),
        Incoming::Exports(..) => false,
    }
}

/// Whether it is exports like these that came in at this moment.
fn are_exports(exports: &Exports, moment: Moment, incoming: &Incoming) -> bool
    ensures { Decides result (NewExports exports.now moment ≡ incoming_value incoming.now) }
{
    match incoming {
        Incoming::Record(_) => false,
        Incoming::Exports(others, other) => exports == others && moment == *other,
    }
}

/// Whether these records came in alike.
fn records_alike(one: &Received, other: &Received) -> bool
    ensures { Decides result (received_value one.now ≡ received_value other.now) }
{
    one.host.text() == other.host.text()
        && one.message == other.message
        && one.moment == other.moment
}
