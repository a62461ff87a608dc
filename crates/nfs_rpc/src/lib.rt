//! ONC RPC (RFC 5531): records of a stream, call headers and replies.
//!
//! A stream of bytes is whole records and a rest (`Records`), however it is cut into pieces. A record is a call, or it
//! ends early: dropped or answered with a fault, by the first check that it fails (`read_call`). A reply's header is
//! one spelling (`write_reply`). It stands on `nfs_xdr` for words and opaque items, and on `bytes` for shared records.
#![tactic(auto)]

mod calls;
mod credentials;
mod faults;
mod marking;
mod numbers;
mod programs;
mod replies;
pub mod stream;
pub mod worked;

pub use calls::{RpcCall, read_call};
pub use credentials::{GIDS_LIMIT, Gids, Ids};
pub use faults::{Early, Fault, ReplyHead};
pub use marking::{
    RECORD_LIMIT, Record, RecordError, Records, streams_split_once, too_large_stays,
};
pub use programs::Program;
pub use replies::{finish_record, start_record, write_reply};
