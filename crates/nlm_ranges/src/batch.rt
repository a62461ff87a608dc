//! Batches of requests, which lists of requests stand in.

ghost use Rattle.std.specs.Prelude.{◌≡◌, ◌++◌, false, find, map, true, IfNone, IfOk, IfSome, OnOk, Some};
ghost use Rattle.std.specs.Arc.{arc_value};
ghost use Rattle.std.specs.List.{AllByRecursion, list_any};
ghost use Rattle.nfs_machine.specs.FileLists.{all_but};
ghost use Rattle.nfs_machine.specs.OneFile.{IsHeldUp};
ghost use Rattle.nlm_ranges.specs.Requests.{goes};

use crate::locks::LockTable;
use crate::range::LockRange;
use crate::request::LockRequest;
use crate::requests::Going;
use side_wire::message::NlmLock;
use std::alloc::{AllocError, Global};
use std::marker::Model;
use std::sync::Arc;

/// A request that is listed, and what of it is compared before the request itself is looked at.
#[derive(Drop)]
pub(crate) struct ListedRequest {
    number: u64,
    process: i32,
    offset: u64,
    request: Arc<LockRequest>,
}

impl Model for ListedRequest {
    ghost use Rattle.std.specs.Arc.{arc_value};
    ghost use Rattle.nfs_machine.specs.State.{Request};
    ghost use Rattle.nlm_ranges.specs.Requests.{IsListed};

    ghost Value = { Request };

    ghost view = { λ l. arc_value l.request };

    ghost invariant = { λ l. IsListed (arc_value l.request) l.number l.process l.offset };
}

impl Clone for ListedRequest {
    ghost is_clone = { λ listed copy. copy ≡ listed };

    fn clone(&self) -> Result<ListedRequest, AllocError> {
        Ok(ListedRequest {
            number: self.number,
            process: self.process,
            offset: self.offset,
            request: Arc::try_clone(&self.request)?,
        })
    }
}

impl ListedRequest {
    ghost use Rattle.nfs_machine.specs.Locks.{lies_within};
    ghost use Rattle.nfs_machine.specs.LockSteps.{is_request};
    ghost use Rattle.nfs_machine.specs.OneFile.{requested};
    ghost use Rattle.nlm_ranges.specs.Requests.{goes};

    /// The request, to be listed.
    pub(crate) fn of(request: Arc<LockRequest>) -> ListedRequest
        ensures { result ≡ arc_value request }
    {
        let number = request.number();
        let asked = request.asked();
        let process = asked.process;
        let offset = asked.offset;
        ListedRequest {
            number,
            process,
            offset,
            request,
        }
    }

    /// The request.
    pub(crate) fn request(&self) -> &LockRequest
        ensures { result.now ≡ self.now }
    {
        &self.request
    }

    /// The request, with the count of its owners.
    pub(crate) fn shared(&self) -> &Arc<LockRequest>
        ensures { arc_value result.now ≡ self.now }
    {
        &self.request
    }

    /// Whether it is one of these.
    fn is_one_of(&self, going: Going<'_>) -> bool
        ensures { result ≡ goes going.entry self.now }
    {
        match going {
            Going::For { exclusive, lock } => self.is_for(exclusive, lock),
            Going::Of(caller_name) => self.request.is_of_caller(caller_name),
            Going::Under(number) => self.number == number,
            Going::Within(range) => self.is_within(range),
        }
    }

    /// Whether it is one for this lock, asked for in the same terms.
    fn is_for(&self, exclusive: bool, lock: &NlmLock) -> bool
        ensures { result ≡ is_request exclusive lock.now self.now }
    {
        self.process == lock.process
            && self.offset == lock.offset
            && self.request.is_for(exclusive, lock)
    }

    /// Whether it is of the range's owner and lies within it.
    fn is_within(&self, range: &LockRange<'_>) -> bool
        ensures { result ≡ lies_within range.now (requested self.now) }
    {
        range.process() == self.process
            && range.first() <= self.offset
            && range.contains(&self.request.range())
    }
}

/// Requests that stand behind each other in a list. Copies share them.
#[derive(Drop)]
pub(crate) struct Batch {
    requests: Arc<Vec<ListedRequest>>,
}

impl Model for Batch {
    ghost use Rattle.std.specs.Prelude.{List};
    ghost use Rattle.std.specs.Arc.{arc_value};
    ghost use Rattle.nfs_machine.specs.State.{Request};

    ghost Value = { List Request };

    ghost view = { λ b. (arc_value b.requests).items };
}

impl Clone for Batch {
    ghost is_clone = { λ batch copy. copy ≡ batch };

    fn clone(&self) -> Result<Batch, AllocError> {
        Ok(Batch {
            requests: Arc::try_clone(&self.requests)?,
        })
    }
}

impl Batch {
    /// A batch of these requests.
    pub(crate) fn of(alloc: Global, requests: Vec<ListedRequest>) -> Result<Batch, AllocError>
        ensures { IfOk result (λ batch. batch ≡ requests.items) }
    {
        Ok(Batch {
            requests: Arc::new(alloc, requests)?,
        })
    }

    /// The requests.
    pub(crate) fn requests(&self) -> &[ListedRequest]
        ensures { result.now ≡ self.now }
    {
        self.requests.as_slice()
    }

    /// Whether one of these is among them.
    pub(crate) fn has(&self, going: Going<'_>) -> bool
        ensures { result ≡ list_any (goes going.entry) self.now }
    {
        any_of(self.requests(), going)
    }

    /// The earliest of these.
    pub(crate) fn find(&self, going: Going<'_>) -> Option<&Arc<LockRequest>>
        ensures none { IfNone result (list_any (goes going.entry) self.now ≡ false) }
        ensures some { IfSome result (λ request.
            find (goes going.entry) self.now ≡ Some (arc_value request.now)) }
    {
        earliest(self.requests(), going)
    }

    /// Whether each of them conflicts with what is held.
    pub(crate) fn are_held_up(&self, locks: &LockTable) -> bool
        ensures { result ≡ true → AllByRecursion (IsHeldUp locks.now) self.now }
    {
        are_held_up(self.requests(), locks)
    }

    /// The requests without these.
    pub(crate) fn without(
        &self,
        alloc: Global,
        going: Going<'_>,
    ) -> Result<Vec<ListedRequest>, AllocError>
        ensures { IfOk result (λ others. others.items ≡ all_but (goes going.entry) self.now) }
    {
        others(alloc, self.requests(), going)
    }

    /// The requests of both, those of the other last.
    pub(crate) fn joined_with(
        &self,
        alloc: Global,
        other: &Batch,
    ) -> Result<Vec<ListedRequest>, AllocError>
        ensures { IfOk result (λ requests. requests.items ≡ self.now ++ other.now) }
    {
        let mut requests = Vec::new(alloc);
        push_listed(&mut requests, self.requests())?;
        push_listed(&mut requests, other.requests())?;
        Ok(requests)
    }
}

/// Whether one of these is among the requests.
fn any_of(requests: &[ListedRequest], going: Going<'_>) -> bool
    ensures { result ≡ list_any (goes going.entry) requests.now }
{
    requests.iter().any(|listed| listed.is_one_of(going))
}

/// The earliest of these among the requests.
fn earliest<'a>(requests: &'a [ListedRequest], going: Going<'_>) -> Option<&'a Arc<LockRequest>>
    ensures none { IfNone result (list_any (goes going.entry) requests.now ≡ false) }
    ensures some { IfSome result (λ request.
        find (goes going.entry) requests.now ≡ Some (arc_value request.now)) }
{
    for listed in requests {
        if listed.is_one_of(going) {
            return Some(listed.shared());
        }
    }
    None
}

/// Whether each of the requests conflicts with what is held.
fn are_held_up(requests: &[ListedRequest], locks: &LockTable) -> bool
    ensures { result ≡ true → AllByRecursion (IsHeldUp locks.now) requests.now }
{
    for listed in requests {
        if listed.request().is_free(locks) {
            return false;
        }
    }
    true
}

/// The requests without these.
fn others(
    alloc: Global,
    requests: &[ListedRequest],
    going: Going<'_>,
) -> Result<Vec<ListedRequest>, AllocError>
    ensures { IfOk result (λ others. others.items ≡ all_but (goes going.entry) requests.now) }
{
    let mut others = Vec::new(alloc);
    for listed in requests {
        if !listed.is_one_of(going) {
            others.push(listed.clone()?)?;
        }
    }
    Ok(others)
}

/// Adds copies of these.
fn push_listed(
    requests: &mut Vec<ListedRequest>,
    others: &[ListedRequest],
) -> Result<(), AllocError>
    ensures { OnOk result (requests.new.items ≡ requests.old.items ++ others.now) }
{
    for other in others {
        requests.push(other.clone()?)?;
    }
    Ok(())
}

/// These requests, to be listed.
pub(crate) fn list_all(
    alloc: Global,
    requests: &[Arc<LockRequest>],
) -> Result<Vec<ListedRequest>, AllocError>
    ensures { IfOk result (λ all. all.items ≡ map arc_value requests.now) }
{
    let mut all = Vec::with_capacity(alloc, requests.len())?;
    for request in requests {
        all.push(ListedRequest::of(Arc::try_clone(request)?))?;
    }
    Ok(all)
}

/// Adds these requests.
pub(crate) fn push_shared(
    requests: &mut Vec<Arc<LockRequest>>,
    others: &[ListedRequest],
) -> Result<(), AllocError>
    ensures { OnOk result
        (map arc_value requests.new.items ≡ map arc_value requests.old.items ++ others.now) }
{
    for other in others {
        requests.push(Arc::try_clone(other.shared())?)?;
    }
    Ok(())
}
