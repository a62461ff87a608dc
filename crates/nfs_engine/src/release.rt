//! What calls that are over, or that begin anew, let go.

ghost use Rattle.std.specs.Prelude.{◌≡◌, false, replicate};
ghost use Rattle.nfs_engine.specs.Calls.{pending_of};

use crate::calls::{Pending, Txn};
use crate::shard::SHARDS;
use nfs_objects::View;
use std::marker::Model;

/// What a call that is over held, some shards of which are let go already. It has to be spent.
pub struct Release {
    pub(crate) id: u64,
    pub(crate) view: View,
    /// Which shards are let go.
    pub(crate) done: [bool; SHARDS],
    pub(crate) after: Then,
}

impl Model for Release {
    ghost use Rattle.std.specs.Prelude.{◌≡◌, length};
    ghost use Rattle.nfs_engine.specs.Releases.{ReleaseValue};
    ghost use Rattle.nfs_engine.specs.declared.shard.TheConstants.{SHARDS};

    ghost Value = { ReleaseValue };

    ghost view = { λ r. record { id = r.id; view = r.view; done = r.done; after = r.after } };

    ghost invariant = { λ r. length r.done ≡ SHARDS };
}

/// What comes when all is released.
pub enum Then {
    /// The call is in progress, and may begin anew.
    Aborted(Pending),
    /// The call was executed.
    Ended,
}

/// What letting go one shard leads to.
pub enum Next {
    /// There is more to release.
    More(Release),
    /// All is released. The call is in progress, and may begin anew.
    Aborted(Pending),
    /// All is released. The call was executed.
    Ended,
}

impl Txn {
    /// The call given up for this time: all that it holds is to be released.
    pub fn abort(self) -> Release
        ensures { result ≡ record {
          id = self.id;
          view = self.view;
          done = replicate SHARDS false;
          after = Then.Aborted (pending_of self);
        } }
    {
        let Txn {
            id,
            key,
            request,
            view,
        } = self;
        let pending = Pending { id, key, request };
        Release {
            id,
            view,
            done: [false; SHARDS],
            after: Then::Aborted(pending),
        }
    }
}
