//! What a call is made under.

ghost use Rattle.std.specs.Prelude.{◌≡◌};

use crate::moment::Moment;
use bytes::Bytes;
use nfs_rpc::Ids;
use std::alloc::AllocError;

/// What a server keeps to itself, and places names by. No answer depends on it.
pub type NameKey = [u8; 16];

/// Figures that the server was started with.
#[derive(Clone, Copy, PartialEq, Eq)]
pub struct Limits {
    /// The total space that FSSTAT tells, in bytes.
    pub total_bytes: u64,
    /// The names of directories that are made are placed by it.
    pub name_key: NameKey,
}

/// Who calls and when, and what the server was started with.
#[derive(Drop, PartialEq, Eq)]
pub struct Ctx {
    /// The peer's address text, without a port.
    pub host: Bytes,
    pub ids: Ids,
    pub moment: Moment,
    /// The start number, which each handle has.
    pub start: u64,
    pub limits: Limits,
}

impl Clone for Ctx {
    ghost is_clone = { λ ctx copy. copy ≡ ctx };

    fn clone(&self) -> Result<Ctx, AllocError> {
        Ok(Ctx {
            host: self.host.clone()?,
            ids: self.ids,
            moment: self.moment,
            start: self.start,
            limits: self.limits,
        })
    }
}
