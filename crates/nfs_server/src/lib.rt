//! The server: a command line, the engine that it starts, and what is served from it: standard streams, or sockets.
//!
//! Over standard streams what is written is, byte for byte, the answers of a run of the machine over the records of the
//! input, in order, from the opening state (`serve_options`). On the network threads serve connections and datagrams
//! over one pool (`serve_network`). It stands on `nfs_streams` for how a stream is served, and on `nfs_pool` for calls
//! from many threads.
#![tactic(auto)]

mod callbacks;
mod changes;
mod clock;
mod command_line;
mod commands;
mod controlling;
mod descriptors;
mod exit;
mod exporting;
mod keys;
mod limits;
mod marks;
mod network;
mod options;
mod patience;
mod runtime;
mod serving;
mod started;
mod stdio;
mod warnings;

pub use callbacks::{CallbackAddress, CallbackError, Callbacks};
pub use clock::{FixedClock, Latest, MachineClock, ServerClock, start_number};
pub use command_line::{arguments, configure};
pub use commands::{Commands, Taken};
pub use controlling::{Applied, ControlEnd, control};
pub use descriptors::open_standard;
pub use exit::Exit;
pub use keys::name_key;
pub use limits::{Limit, ServerLimits};
pub use network::{
    CountedEvent, Counters, Gauge, Nobody, Operator, Sockets, Tally, serve_network, serve_operated,
    serve_sockets,
};
pub use nfs_engine::Host;
pub use nfs_streams::{Served, StreamFault, Unseen, Witness, serve_stream};
pub use options::{Network, Options, Streams, Transport};
pub use patience::Patience;
pub use runtime::{NetworkRuntime, Runtime, SystemNet};
pub use serving::serve;
pub use started::serve_options;
pub use stdio::{serve_counted, serve_stdio};
pub use warnings::warn_of_hosts;
