//! The requests that are granted where a file's locks changed.

ghost use Rattle.std.specs.Prelude.{◌≡◌, ◌++◌, [], false, map, true, IfOk, MatchOption, OnOk};
ghost use Rattle.std.specs.Arc.{arc_value};
ghost use Rattle.nfs_machine.specs.OneFile.{AreHeldUp, IsHeldUp};
ghost use Rattle.nlm_ranges.specs.Granting.{AllTried, ComesTo, Grants, IsEmptied, Tries, TriesAnew, held_in, holding};

use crate::locks::LockTable;
use crate::request::LockRequest;
use crate::requests::RequestList;
use std::alloc::{AllocError, Global};
use std::mem;
use std::sync::Arc;

/// What is held of a file, the requests that it holds up, and those that were granted so far, each in order.
#[derive(Drop)]
pub(crate) struct Settling {
    pub locks: Arc<LockTable>,
    pub waiting: Vec<Arc<LockRequest>>,
    pub granted: Vec<Arc<LockRequest>>,
}

/// Grants what waits: the earliest request that conflicts with nothing that is held, until each conflicts. Each is
/// tried once, in order of arrival. The earlier ones are tried again only behind the grant of a shared lock to who had
/// an exclusive one, since what holds a request up stays in its way where any other lock is granted.
///
/// # Errors
///
/// `AllocError` where the memory for it was refused.
pub(crate) fn settle(
    alloc: Global,
    locks: &Arc<LockTable>,
    waiting: &RequestList,
) -> Result<Settling, AllocError>
    ensures { IfOk result (ComesTo (holding (arc_value locks.now) waiting.now)) }
{
    let mut settling = Settling {
        locks: Arc::try_clone(locks)?,
        waiting: Vec::new(alloc),
        granted: Vec::new(alloc),
    };
    let mut requests = waiting.to_vec(alloc)?;
    'requests: while let Some(left) = settling.try_each(alloc, &requests)? {
        requests = left;
    }
    Ok(settling)
}

impl Settling {
    /// Tries these requests in turn, and keeps those that are held up. None where each was tried, and else all that are
    /// left, which are to be tried from the front again.
    fn try_each(
        &mut self,
        alloc: Global,
        requests: &[Arc<LockRequest>],
    ) -> Result<Option<Vec<Arc<LockRequest>>>, AllocError>
        requires { self.old.waiting.items ≡ [] }
        ensures { IfOk result (λ left. MatchOption left (AllTried self.old (map arc_value requests.now) self.new)
            (λ left. TriesAnew self.old (map arc_value requests.now) self.new (map arc_value left.items))) }
    {
        for (place, request) in requests.iter().enumerate() {
            if self.try_one(alloc, request)? {
                return Ok(Some(self.all_left(alloc, &requests[place + 1..])?));
            }
        }
        Ok(None)
    }

    /// Grants the request if it conflicts with nothing, and else keeps it behind those that are held up. Whether one of
    /// these may conflict with nothing now.
    fn try_one(&mut self, alloc: Global, request: &Arc<LockRequest>) -> Result<bool, AllocError>
        requires { AreHeldUp (held_in self.old) }
        ensures { IfOk result (λ anew. Tries self.old (arc_value request.now) anew self.new) }
    {
        if request.is_free(&self.locks) {
            let anew = self.grant(alloc, request)?;
            return Ok(anew);
        }
        self.waiting.push(Arc::try_clone(request)?)?;
        Ok(false)
    }

    /// Grants a request that conflicts with nothing. Whether its owner has a shared lock now where it had an exclusive
    /// one, so that another request may conflict with nothing now.
    fn grant(&mut self, alloc: Global, request: &Arc<LockRequest>) -> Result<bool, AllocError>
        requires { IsHeldUp (arc_value self.old.locks) (arc_value request.now) → ⊥ }
        ensures { IfOk result (λ weakens. Grants self.old (arc_value request.now) weakens self.new) }
    {
        let range = request.range();
        let exclusive = request.is_exclusive();
        let weakens = !exclusive && self.locks.has_exclusive(&range);
        let locks = self.locks.set(alloc, &range, exclusive)?;
        self.locks = Arc::new(alloc, locks)?;
        self.granted.push(Arc::try_clone(request)?)?;
        Ok(weakens)
    }

    /// The requests that are held up, which it keeps no more, and these behind them.
    fn all_left(
        &mut self,
        alloc: Global,
        behind: &[Arc<LockRequest>],
    ) -> Result<Vec<Arc<LockRequest>>, AllocError>
        ensures { IfOk result (λ left.
            IsEmptied self.old (map arc_value behind.now) self.new (map arc_value left.items)) }
    {
        let mut left = mem::replace(&mut self.waiting, Vec::new(alloc));
        push_requests(&mut left, behind)?;
        Ok(left)
    }
}

/// Adds these requests.
fn push_requests(
    requests: &mut Vec<Arc<LockRequest>>,
    others: &[Arc<LockRequest>],
) -> Result<(), AllocError>
    ensures { OnOk result
        (map arc_value requests.new.items ≡ map arc_value requests.old.items ++ map arc_value others.now) }
{
    for other in others {
        requests.push(Arc::try_clone(other)?)?;
    }
    Ok(())
}
