//! Which pages of a directory are there.

ghost use Rattle.std.specs.Prelude.{◌≡◌, ◌<◌, ◌≤◌, ◌==◌, ◌||◌, ◌&&◌, [], ◌++◌, IfOk};
ghost use Rattle.std.specs.Prelude.{IsTrue, OnOk, ℕ, suc, drop};
ghost use Rattle.std.specs.Prelude.{length, not, take};
ghost use Rattle.std.specs.Arc.{arc_value};
ghost use Rattle.std.specs.Cmp.Lexicographic.{pointwise};
ghost use Rattle.std.specs.List.{AllByRecursion};
ghost use Rattle.nfs_objects.specs.PageRuns.{EndsRun, IsNextPage, IsWithRun, RunsRise, TellsEmpty, in_run, lists};
ghost use Rattle.nfs_objects.specs.PageRuns.{rest_of};

use std::alloc::{AllocError, Global};
use std::marker::Model;
use std::sync::Arc;

/// Pages that follow each other, from the first one to the last one.
#[derive(Clone, Copy, Debug, PartialEq, Eq)]
pub struct PageRun {
    pub first: u64,
    pub last: u64,
}

/// The pages of a directory that are there, as runs that rise, as few as there can be: where names only come it is one
/// run. They are never changed: clones share them, and a page that comes or goes makes others.
#[derive(Drop)]
pub struct PageList {
    runs: Arc<Vec<PageRun>>,
}

impl Model for PageList {
    ghost use Rattle.std.specs.Prelude.{List};
    ghost use Rattle.std.specs.Arc.{arc_value};
    ghost use Rattle.nfs_objects.specs.PageRuns.{RunsRise};
    ghost use Rattle.nfs_objects.specs.declared.page_list.PageRun.{PageRun as Run};

    ghost Value = { List Run };

    ghost view = { λ l. (arc_value l.runs).items };

    ghost invariant = { λ l. RunsRise (arc_value l.runs).items };
}

impl PageList {
    /// No page.
    ///
    /// # Errors
    ///
    /// There is no memory for their owner.
    pub fn new(alloc: Global) -> Result<PageList, AllocError>
        ensures { IfOk result (λ pages. pages ≡ []) }
    {
        Ok(PageList {
            runs: Arc::new(alloc, Vec::new(alloc))?,
        })
    }

    fn runs(&self) -> &[PageRun]
        ensures value { result.now ≡ self.now }
        ensures rise { RunsRise self.now }
    {
        &self.runs
    }

    /// Whether there are none.
    pub fn is_empty(&self) -> bool
        ensures { TellsEmpty self.now result }
    {
        self.runs().is_empty()
    }

    /// The place of the first run that does not end before a page; without such a run, how many there are. It is found
    /// by a binary search.
    fn place_of(&self, page: u64) -> usize
        ensures within { result ≤ length self.now }
        ensures before { AllByRecursion (λ run. run.last < page) (take result self.now) }
        ensures behind { AllByRecursion (λ run. page ≤ run.last) (drop result self.now) }
    {
        self.runs().partition_point(|run| run.last < page)
    }

    /// The first page from this one on; None where there is no such page.
    pub fn next_from(&self, page: u64) -> Option<u64>
        ensures { IsNextPage self.now page result }
    {
        let run = self.runs().get(self.place_of(page))?;
        Some(run.first.max(page))
    }

    /// The first page behind this one; None where there is no such page.
    pub fn next_behind(&self, page: u64) -> Option<u64>
        ensures { IsNextPage self.now (suc page) result }
    {
        // No run goes on behind the greatest number.
        let _ = &self.runs;
        self.next_from(page.checked_add(1)?)
    }

    /// Whether a page is there.
    pub fn has(&self, page: u64) -> bool
        ensures { result ≡ lists self.now page }
    {
        self.next_from(page) == Some(page)
    }

    /// The same with this page. Where it is there they are shared.
    ///
    /// # Errors
    ///
    /// There is no memory for them.
    pub fn with_page(&self, alloc: Global, page: u64) -> Result<PageList, AllocError>
        ensures { IfOk result (λ pages. (p : ℕ) → lists pages p ≡ (lists self.now p || (p == page))) }
    {
        if self.has(page) {
            return self.clone();
        }
        let old = self.runs();
        let place = self.place_of(page);
        let (last, behind) = run_from(old, place, page);
        let mut runs = Vec::with_capacity(alloc, old.len() + 1)?;
        runs.extend_from_slice(&old[..place])?;
        push_run(&mut runs, PageRun { first: page, last })?;
        runs.extend_from_slice(&old[behind..])?;
        Ok(PageList {
            runs: Arc::new(alloc, runs)?,
        })
    }

    /// The same without this page. Where it is not there they are shared.
    ///
    /// # Errors
    ///
    /// There is no memory for them.
    pub fn without_page(&self, alloc: Global, page: u64) -> Result<PageList, AllocError>
        ensures { IfOk result (λ pages. (p : ℕ) → lists pages p ≡ (lists self.now p && not (p == page))) }
    {
        let old = self.runs();
        let place = self.place_of(page);
        let Some(run) = old.get(place) else {
            return self.clone();
        };
        if page < run.first {
            return self.clone();
        }
        let mut runs = Vec::with_capacity(alloc, old.len() + 1)?;
        runs.extend_from_slice(&old[..place])?;
        push_rest(&mut runs, run, page)?;
        runs.extend_from_slice(&old[place + 1..])?;
        Ok(PageList {
            runs: Arc::new(alloc, runs)?,
        })
    }
}

/// Where the run of a page ends that comes at this place, and the place of the first run behind that: the run at the
/// place is part of it where it begins right behind the page.
fn run_from(runs: &[PageRun], place: usize, page: u64) -> (u64, usize)
    requires { place ≤ length runs.now }
    ensures ends { EndsRun page (drop place runs.now) result.0 (drop result.1 runs.now) }
    ensures within { result.1 ≤ length runs.now }
{
    match runs.get(place) {
        Some(run) => {
            if run.first.saturating_sub(page) == 1 {
                return (run.last, place + 1);
            }
            (page, place)
        }
        None => (page, place),
    }
}

/// Adds a run behind those that end before it: the last one goes on with it where it ends right before.
fn push_run(runs: &mut Vec<PageRun>, more: PageRun) -> Result<(), AllocError>
    requires { AllByRecursion (λ run. run.last < more.first) runs.old.items }
    ensures { OnOk result (IsWithRun more runs.old.items runs.new.items) }
{
    let first = match runs.last().copied() {
        Some(run) if run.last + 1 == more.first => {
            runs.pop();
            run.first
        }
        _ => more.first,
    };
    runs.push(PageRun {
        first,
        last: more.last,
    })?;
    Ok(())
}

/// Adds what is left of a run without a page of it: the pages before that, and those behind it.
fn push_rest(runs: &mut Vec<PageRun>, run: &PageRun, page: u64) -> Result<(), AllocError>
    requires { IsTrue (in_run page run.now) }
    ensures { OnOk result (runs.new.items ≡ runs.old.items ++ rest_of page run.now) }
{
    if run.first < page {
        runs.push(PageRun {
            first: run.first,
            last: page - 1,
        })?;
    }
    if page < run.last {
        runs.push(PageRun {
            first: page + 1,
            last: run.last,
        })?;
    }
    Ok(())
}

impl Clone for PageList {
    ghost is_clone = { λ pages copy. copy ≡ pages };

    fn clone(&self) -> Result<PageList, AllocError> {
        Ok(PageList {
            runs: Arc::try_clone(&self.runs)?,
        })
    }
}

impl PartialEq for PageList {
    ghost use Rattle.std.specs.Bool.{Decides};
    ghost use Rattle.std.specs.Cmp.{decided, partial_equiv_from_equiv};
    ghost use Rattle.nfs_objects.specs.Same.{same_run};
    ghost use Rattle.nfs_objects.specs.SameLaws.{runs_decide};

    ghost eq = { pointwise same_run };

    ghost laws = { partial_equiv_from_equiv (decided (pointwise same_run) runs_decide) };

    fn eq(&self, other: &PageList) -> bool
        ensures test { result ≡ pointwise same_run self.now other.now }
        ensures same { Decides result (self.now ≡ other.now) }
    {
        self.runs() == other.runs()
    }
}

impl Eq for PageList {
    ghost use Rattle.std.specs.Cmp.{decided};
    ghost use Rattle.nfs_objects.specs.Same.{same_run};
    ghost use Rattle.nfs_objects.specs.SameLaws.{runs_decide};

    ghost laws = { decided (pointwise same_run) runs_decide };
}
