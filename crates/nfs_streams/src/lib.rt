//! Streams and datagrams of records, answered by an engine.
//!
//! A `Connection` takes in what a peer sends, and keeps the answers that wait to be sent; it reads and writes nothing.
//! `answer_record` answers one record on an engine at rest, `serve_stream` each record of a stream, and so does
//! `serve_with`, which may drop the messages that calls put, and shows a `Witness` how each is answered. `datagram_of`
//! makes an answer a datagram.
#![tactic(auto)]

mod answer;
mod connection;
mod datagrams;
mod sending;
mod serving;
mod witness;

pub use answer::answer_record;
pub use connection::{Connection, connections_carry_on};
pub use datagrams::{datagram_of, replies_make_datagrams};
pub use serving::{
    Messages, Served, Serving, StreamFault, serve_stream, serve_with, served_is_a_run,
};
pub use witness::{Unseen, Witness};
