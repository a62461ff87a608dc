//! The sequential machine of the server: its state, the step that each call makes, and runs of steps (RFC 1813).
//!
//! It is what every other crate is proved against. The definitions stand in `specs/`, one file for each thing:
//! `State`, `Resolve`, `Permission`, `Attributes`, the steps of each program, `Run`. The code here is what a call is
//! made under (`Ctx`, `Moment`), the exports, handles, the answer to a call that memory is wanting for, and the laws of
//! the machine. Worked values of the definitions stand in `machine_examples`. It stands on the call headers of
//! `nfs_rpc` and on the calls and replies of `nfs_wire` and `side_wire`.
#![tactic(auto)]

mod calls;
mod context;
mod export_faults;
mod exports;
mod handle;
pub mod laws;
mod moment;
pub mod paths;
mod refusals;

pub use calls::{Call, Refusal, Reply};
pub use context::{Ctx, Limits, NameKey};
pub use exports::{Export, ExportError, ExportText, Exports};
pub use handle::Handle;
pub use moment::{Moment, Moments};
