//! What a call that left still holds, and what comes then.

ghost use Rattle.std.specs.Prelude.{◌≡◌, ◌<◌, false, length, MatchOption};
ghost use Rattle.nfs_engine.specs.Engine.{AreLeft, HoldsNothing, HoldsSome, IsEnd, IsNext, freed_more, is_free};
ghost use Rattle.nfs_engine.specs.Engine.{pending_after};
ghost use Rattle.nfs_engine.specs.Taking.{LetsGo};

use crate::calls::Pending;
use crate::release::{Next, Release, Then};
use crate::shard::{SHARDS, Shard, shard_index};
use crate::taking::let_go;

impl Release {
    /// A shard in which something is still held.
    pub fn next_shard(&self) -> Option<usize>
        ensures { MatchOption result (HoldsNothing self.now)
            (λ k. (k < SHARDS) × (k < length self.now.done) × (is_free self.now k ≡ false) × HoldsSome self.now k) }
    {
        for place in 0..self.view.len() {
            let Some((address, _)) = self.view.entry(place) else {
                break;
            };
            let index = shard_index(address);
            if !self.done[index] {
                return Some(index);
            }
        }
        None
    }

    /// Which shards are not yet free of the call.
    pub(crate) fn left(&self) -> [bool; SHARDS]
        ensures { AreLeft self.now result }
    {
        let mut left = [false; SHARDS];
        for index in 0..SHARDS {
            left[index] = !self.done[index];
        }
        left
    }

    /// The call, where it is still in progress.
    pub(crate) fn into_pending(self) -> Option<Pending>
        ensures { result ≡ pending_after self.after }
    {
        let Release {
            id: _,
            view,
            done: _,
            after,
        } = self;
        drop(view);
        match after {
            Then::Aborted(pending) => Some(pending),
            Then::Ended => None,
        }
    }

    /// Lets go, in this shard, all that the call still holds there: what comes next. It takes no memory.
    pub fn release_in(self, shard: &mut Shard) -> Next
        ensures shard { LetsGo shard.old shard.new shard.old.index self.id self.view.entries }
        ensures next { IsNext (freed_more self shard.old.index) result }
    {
        self.let_go_in(shard).next()
    }

    /// Lets go, in this shard, all that the call still holds there: the same, with one shard more that is free of the
    /// call. It takes no memory.
    pub fn let_go_in(self, shard: &mut Shard) -> Release
        ensures shard { LetsGo shard.old shard.new shard.old.index self.id self.view.entries }
        ensures freed { result ≡ freed_more self shard.old.index }
    {
        let index = shard.index();
        let_go(shard, index, self.id, &self.view);
        self.freed(index)
    }

    /// What comes next: more to release, where something is still held, or what it leads to.
    pub fn next(self) -> Next
        ensures { IsNext self result }
    {
        if self.next_shard().is_some() {
            return Next::More(self);
        }
        self.ended()
    }

    /// The same, with one shard more that is free of the call.
    pub(crate) fn freed(self, shard: usize) -> Release
        requires { shard < SHARDS }
        ensures { result ≡ freed_more self shard }
    {
        let Release {
            id,
            view,
            mut done,
            after,
        } = self;
        done[shard] = true;
        Release {
            id,
            view,
            done,
            after,
        }
    }

    /// What it leads to, where nothing is held any more.
    fn ended(self) -> Next
        ensures { IsEnd self result }
    {
        match self.into_pending() {
            Some(pending) => Next::Aborted(pending),
            None => Next::Ended,
        }
    }
}
