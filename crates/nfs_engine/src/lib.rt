//! The engine: what a record asks and the bytes of its answer, a book of what was executed with the store that it led
//! to, sixteen shards of who holds what, and both as one.
//!
//! A record that came in is a call of a program that is built, or it has a first fault (`read_record`). Exports that
//! come in, from no host, ask that they replace those before (`Arrival::exports`). A reply, a refusal and a fault are
//! each one fragment (`answers`). The `Book` has the present store with the records that led to it, the replies that
//! are kept for calls that come again, and which calls are in progress. A `Shard` has the slots of a sixteenth of the
//! addresses, with who holds them. The `Engine` is the book and the shards as one value, for one thread. It stands on
//! `nfs_rpc` for headers, on `nfs_wire` and `side_wire` for arguments and results, on `nfs_machine` for what each
//! record is answered, on `nfs_replies` for what is kept, and on `nfs_objects` for what stands at addresses.
#![tactic(auto)]

mod admission;
pub mod answers;
mod arrival;
mod asking;
mod book;
mod calls;
mod candidate;
mod clearing;
mod dead;
mod engine;
mod forms;
mod holders;
mod host;
mod journal;
mod kept;
pub mod laws;
pub mod leaving;
mod lengths;
mod objects;
mod opening;
mod outbox;
mod ready;
mod records;
mod release;
mod request;
mod running;
mod settling;
mod shard;
mod sharers;
mod slot;
mod starting;
mod sweeping;
mod taking;

pub use admission::{Admission, Faulted, Refused};
pub use arrival::{Arrival, Executed, Incoming, Reading, Received};
pub use asking::{Asked, Unasked, read_record};
pub use book::Book;
pub use calls::{Finished, Pending, Txn};
pub use candidate::{Candidate, Prepared};
pub use clearing::{Looked, SWEEP_LOOKS};
pub use dead::Dead;
pub use engine::Engine;
pub use holders::Holders;
pub use host::Host;
pub use journal::{Committed, Receipt, Spent};
pub use kept::Kept;
pub use opening::{Config, StartError};
pub use outbox::Posted;
pub use records::Era;
pub use release::{Next, Release, Then};
pub use running::AdmitError;
pub use shard::{Had, ReserveError, SHARDS, Shard, shard_index};
pub use sharers::Sharers;
pub use sweeping::{SWEPT, Sweep};
pub use taking::Got;
