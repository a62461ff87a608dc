//! What a call was admitted with.

ghost use Rattle.std.specs.Prelude.{◌≡◌};

use crate::arrival::Incoming;
use crate::asking::Asked;
use nfs_machine::{Call, Ctx, Limits};

/// What a call was admitted with: what came in, what that asks, and what it is made under. It stays at one
/// place from its admission to its end.
#[derive(Drop)]
pub(crate) struct Request {
    pub received: Incoming,
    pub xid: u32,
    pub call: Call,
    pub ctx: Ctx,
}

impl Request {
    /// The call is made under this start number and these limits.
    pub(crate) fn begin_under(&mut self, start: u64, limits: Limits)
        ensures { self.new ≡ record self.old
            { ctx = record self.old.ctx { start = start; limits = limits } } }
    {
        self.ctx.start = start;
        self.ctx.limits = limits;
    }

    /// What came in, and what it asks.
    pub(crate) fn into_parts(self) -> (Incoming, Asked)
        ensures received { result.0 ≡ self.received }
        ensures asked { result.1 ≡ record { xid = self.xid; ids = self.ctx.ids; call = self.call } }
    {
        let Request {
            received,
            xid,
            call,
            ctx,
        } = self;
        let asked = Asked {
            xid,
            ids: ctx.ids,
            call,
        };
        (received, asked)
    }
}
