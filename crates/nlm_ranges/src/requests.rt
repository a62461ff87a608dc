//! Requests in order of arrival.

ghost use Rattle.std.specs.Prelude.{◌≡◌, ◌==◌, ◌++◌, ◌∷◌, [], find, length, map};
ghost use Rattle.std.specs.Prelude.{IfNone, IfOk, IfSome, OnOk, Some, false, true};
ghost use Rattle.std.specs.Arc.{arc_value};
ghost use Rattle.std.specs.List.{AllByRecursion, list_any};
ghost use Rattle.std.specs.Cmp.Lexicographic.{pointwise};
ghost use Rattle.nfs_machine.specs.FileLists.{all_but};
ghost use Rattle.nfs_machine.specs.OneFile.{IsHeldUp};
ghost use Rattle.nlm_ranges.specs.Cutting.{joined};
ghost use Rattle.nlm_ranges.specs.Requests.{goes};
ghost use Rattle.nlm_ranges.specs.Same.{equal_requests};

use crate::batch::{Batch, ListedRequest, list_all, push_shared};
use crate::locks::LockTable;
use crate::range::LockRange;
use crate::request::LockRequest;
use side_wire::message::NlmLock;
use std::alloc::{AllocError, Global};
use std::marker::Model;
use std::sync::Arc;

/// How many requests a batch has at most.
const BATCH_LIMIT: usize = 128;

/// Which requests of a list are meant.
#[derive(Clone, Copy)]
pub enum Going<'a> {
    /// Those for a lock, asked for in the same terms (RFC 1813, 6.2: NLMPROC4_CANCEL).
    For { exclusive: bool, lock: &'a NlmLock },
    /// Those of a caller (NLMPROC4_FREE_ALL).
    Of(&'a [u8]),
    /// That under a number (NLMPROC4_GRANTED_RES).
    Under(u64),
    /// Those of a range's owner that lie within it (NLMPROC4_LOCK, NLMPROC4_UNLOCK).
    Within(&'a LockRange<'a>),
}

/// Requests in order of arrival. A list is never changed: a change makes another one, which shares with it the
/// requests, and all batches of them but a few.
#[derive(Drop)]
pub struct RequestList {
    batches: Vec<Batch>,
}

impl Model for RequestList {
    ghost use Rattle.std.specs.Prelude.{List};
    ghost use Rattle.nfs_machine.specs.State.{Request};
    ghost use Rattle.nlm_ranges.specs.Cutting.{joined};

    ghost Value = { List Request };

    ghost view = { λ l. joined l.batches.items };
}

impl PartialEq for RequestList {
    ghost use Rattle.std.specs.Bool.{Decides};
    ghost use Rattle.std.specs.Cmp.{decided, partial_equiv_from_equiv};
    ghost use Rattle.std.specs.Cmp.Lexicographic.{pointwise};
    ghost use Rattle.nlm_ranges.specs.Same.{equal_requests};
    ghost use Rattle.nlm_ranges.specs.SameLaws.{lists_equal};

    ghost eq = { pointwise equal_requests };

    ghost laws = { partial_equiv_from_equiv (decided (pointwise equal_requests) lists_equal) };

    fn eq(&self, other: &RequestList) -> bool
        ensures test { result ≡ pointwise equal_requests self.now other.now }
        ensures same { Decides result (self.now ≡ other.now) }
    {
        are_same(self.iter(), other.iter())
    }
}

impl Eq for RequestList {
    ghost use Rattle.std.specs.Cmp.{decided};
    ghost use Rattle.std.specs.Cmp.Lexicographic.{pointwise};
    ghost use Rattle.nlm_ranges.specs.Same.{equal_requests};
    ghost use Rattle.nlm_ranges.specs.SameLaws.{lists_equal};

    ghost laws = { decided (pointwise equal_requests) lists_equal };
}

impl Clone for RequestList {
    ghost is_clone = { λ list copy. copy ≡ list };

    fn clone(&self) -> Result<RequestList, AllocError> {
        Ok(RequestList {
            batches: self.batches.clone()?,
        })
    }
}

impl RequestList {
    /// No request.
    pub fn new(alloc: Global) -> RequestList
        ensures { result ≡ [] }
    {
        RequestList {
            batches: Vec::new(alloc),
        }
    }

    /// Whether there is no request.
    pub fn is_empty(&self) -> bool
        ensures { result ≡ (length self.now == 0) }
    {
        are_empty(&self.batches)
    }

    /// The requests, the earliest first.
    pub fn iter(&self) -> Requests<'_>
        ensures { result ≡ self.now }
    {
        Requests {
            front: &[],
            batches: &self.batches,
        }
    }

    /// The requests, the earliest first, in a vector of their own.
    pub(crate) fn to_vec(&self, alloc: Global) -> Result<Vec<Arc<LockRequest>>, AllocError>
        ensures { IfOk result (λ requests. map arc_value requests.items ≡ self.now) }
    {
        all_shared(alloc, &self.batches)
    }

    /// Whether one of these is among them.
    pub fn has(&self, going: Going<'_>) -> bool
        ensures { result ≡ list_any (goes going.entry) self.now }
    {
        any_of(&self.batches, going)
    }

    /// The earliest of these.
    pub fn find(&self, going: Going<'_>) -> Option<&Arc<LockRequest>>
        ensures none { IfNone result (list_any (goes going.entry) self.now ≡ false) }
        ensures some { IfSome result (λ request.
            find (goes going.entry) self.now ≡ Some (arc_value request.now)) }
    {
        earliest(&self.batches, going)
    }

    /// Whether each of them conflicts with what is held.
    pub(crate) fn are_held_up(&self, locks: &LockTable) -> bool
        ensures { result ≡ true → AllByRecursion (IsHeldUp locks.now) self.now }
    {
        are_held_up(&self.batches, locks)
    }

    /// The list with one more, last.
    ///
    /// # Errors
    ///
    /// `AllocError` where the memory for the list was refused.
    pub fn with(&self, alloc: Global, request: Arc<LockRequest>) -> Result<RequestList, AllocError>
        ensures { IfOk result (λ list. list ≡ self.now ++ arc_value request ∷ []) }
    {
        let mut requests = Vec::with_capacity(alloc, 1)?;
        requests.push(ListedRequest::of(request))?;
        let last = Batch::of(alloc, requests)?;
        let mut batches = copied(alloc, &self.batches)?;
        add_batch(alloc, &mut batches, last)?;
        Ok(RequestList { batches })
    }

    /// The list with these behind its own.
    ///
    /// # Errors
    ///
    /// `AllocError` where the memory for the list was refused.
    pub(crate) fn with_all(
        &self,
        alloc: Global,
        others: &[Arc<LockRequest>],
    ) -> Result<RequestList, AllocError>
        ensures { IfOk result (λ list. list ≡ self.now ++ map arc_value others.now) }
    {
        let mut batches = copied(alloc, &self.batches)?;
        add_requests(alloc, &mut batches, others)?;
        Ok(RequestList { batches })
    }

    /// A list of these.
    ///
    /// # Errors
    ///
    /// `AllocError` where the memory for the list was refused.
    pub(crate) fn of(
        alloc: Global,
        requests: &[Arc<LockRequest>],
    ) -> Result<RequestList, AllocError>
        ensures { IfOk result (λ list. list ≡ map arc_value requests.now) }
    {
        let mut batches = Vec::new(alloc);
        add_requests(alloc, &mut batches, requests)?;
        Ok(RequestList { batches })
    }

    /// The list without these.
    ///
    /// # Errors
    ///
    /// `AllocError` where the memory for the list was refused.
    pub fn without(&self, alloc: Global, going: Going<'_>) -> Result<RequestList, AllocError>
        ensures { IfOk result (λ list. list ≡ all_but (goes going.entry) self.now) }
    {
        let batches = others(alloc, &self.batches, going)?;
        Ok(RequestList { batches })
    }
}

/// The requests of a list that are left, one after the other.
#[derive(Drop)]
pub struct Requests<'a> {
    front: &'a [ListedRequest],
    batches: &'a [Batch],
}

impl<'a> Model for Requests<'a> {
    ghost use Rattle.std.specs.Prelude.{List, ◌++◌};
    ghost use Rattle.nfs_machine.specs.State.{Request};
    ghost use Rattle.nlm_ranges.specs.Cutting.{joined};

    ghost Value = { List Request };

    ghost view = { λ r. r.front.now ++ joined r.batches.now };
}

impl<'a> Iterator for Requests<'a> {
    ghost use Rattle.std.specs.Iterator.{YieldsFirstRef, item_count};

    type Item = &'a LockRequest;

    ghost next_gives = { YieldsFirstRef (λ requests. requests) };

    ghost remaining = { item_count (λ requests. requests) };

    fn next(&mut self) -> Option<&'a LockRequest> {
        'batches: loop {
            if let Some((listed, rest)) = self.front.split_first() {
                self.front = rest;
                return Some(listed.request());
            }
            let (batch, rest) = self.batches.split_first()?;
            self.front = batch.requests();
            self.batches = rest;
        }
    }
}

/// Whether these are the same requests in the same order, in whatever batches.
fn are_same<'a>(mut requests: Requests<'a>, mut others: Requests<'a>) -> bool
    ensures { result ≡ pointwise equal_requests requests.entry others.entry }
{
    while let Some(request) = requests.next() {
        match others.next() {
            Some(other) if request == other => {}
            _ => return false,
        }
    }
    others.next().is_none()
}

/// The requests of these batches.
fn all_shared(alloc: Global, batches: &[Batch]) -> Result<Vec<Arc<LockRequest>>, AllocError>
    ensures { IfOk result (λ requests. map arc_value requests.items ≡ joined batches.now) }
{
    let mut requests = Vec::new(alloc);
    for batch in batches {
        push_shared(&mut requests, batch.requests())?;
    }
    Ok(requests)
}

/// Copies of these batches, with room for one more.
fn copied(alloc: Global, batches: &[Batch]) -> Result<Vec<Batch>, AllocError>
    ensures { IfOk result (λ copy. copy.items ≡ batches.now) }
{
    let mut copy = Vec::with_capacity(alloc, batches.len() + 1)?;
    for batch in batches {
        copy.push(batch.clone()?)?;
    }
    Ok(copy)
}

/// Whether the batches have no requests.
fn are_empty(batches: &[Batch]) -> bool
    ensures { result ≡ (length (joined batches.now) == 0) }
{
    for batch in batches {
        if !batch.requests().is_empty() {
            return false;
        }
    }
    true
}

/// Whether a batch has one of these.
fn any_of(batches: &[Batch], going: Going<'_>) -> bool
    ensures { result ≡ list_any (list_any (goes going.entry)) batches.now }
{
    batches.iter().any(|batch| batch.has(going))
}

/// The earliest of these among the requests.
fn earliest<'a>(batches: &'a [Batch], going: Going<'_>) -> Option<&'a Arc<LockRequest>>
    ensures none { IfNone result (list_any (goes going.entry) (joined batches.now) ≡ false) }
    ensures some { IfSome result (λ request.
        find (goes going.entry) (joined batches.now) ≡ Some (arc_value request.now)) }
{
    for batch in batches {
        if let Some(request) = batch.find(going) {
            return Some(request);
        }
    }
    None
}

/// Whether each of the requests conflicts with what is held.
fn are_held_up(batches: &[Batch], locks: &LockTable) -> bool
    ensures { result ≡ true → AllByRecursion (IsHeldUp locks.now) (joined batches.now) }
{
    for batch in batches {
        if !batch.are_held_up(locks) {
            return false;
        }
    }
    true
}

/// The batches without these requests.
fn others(alloc: Global, batches: &[Batch], going: Going<'_>) -> Result<Vec<Batch>, AllocError>
    ensures { IfOk result (λ others.
        joined others.items ≡ all_but (goes going.entry) (joined batches.now)) }
{
    let mut others = Vec::new(alloc);
    for batch in batches {
        add_others(alloc, &mut others, batch, going)?;
    }
    Ok(others)
}

/// Adds a batch without these requests.
fn add_others(
    alloc: Global,
    batches: &mut Vec<Batch>,
    batch: &Batch,
    going: Going<'_>,
) -> Result<(), AllocError>
    ensures { OnOk result
        (joined batches.new.items ≡ joined batches.old.items ++ all_but (goes going.entry) batch.now) }
{
    if !batch.has(going) {
        add_batch(alloc, batches, batch.clone()?)?;
        return Ok(());
    }
    let others = Batch::of(alloc, batch.without(alloc, going)?)?;
    add_batch(alloc, batches, others)?;
    Ok(())
}

/// Adds these requests, in batches.
fn add_requests(
    alloc: Global,
    batches: &mut Vec<Batch>,
    requests: &[Arc<LockRequest>],
) -> Result<(), AllocError>
    ensures { OnOk result
        (joined batches.new.items ≡ joined batches.old.items ++ map arc_value requests.now) }
{
    let mut rest = requests;
    'batches: while !rest.is_empty() {
        let (front, behind) = rest.split_at(rest.len().min(BATCH_LIMIT));
        let batch = Batch::of(alloc, list_all(alloc, front)?)?;
        add_batch(alloc, batches, batch)?;
        rest = behind;
    }
    Ok(())
}

/// Adds a batch. It is joined to the last where both fit into one, and left out where it is empty.
fn add_batch(alloc: Global, batches: &mut Vec<Batch>, batch: Batch) -> Result<(), AllocError>
    ensures { OnOk result (joined batches.new.items ≡ joined batches.old.items ++ batch) }
{
    if batch.requests().is_empty() {
        return Ok(());
    }
    match batches.split_last() {
        Some((last, _)) if fit_together(last, &batch) => {
            let both = Batch::of(alloc, last.joined_with(alloc, &batch)?)?;
            batches.pop();
            batches.push(both)?;
        }
        _ => batches.push(batch)?,
    }
    Ok(())
}

/// Whether the requests of both fit into one batch.
fn fit_together(batch: &Batch, other: &Batch) -> bool {
    let requests = batch.requests().len();
    requests.saturating_add(other.requests().len()) <= BATCH_LIMIT
}
