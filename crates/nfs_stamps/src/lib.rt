//! Stamps: numbers by which two objects are known to be one value, without looking at them.
//!
//! Each commit that writes something large gets a number that no other commit of its log has (`Log`, `Stamp`). What is
//! kept beside a table of objects (`Marks`), and beside what a call has read (`Notes`), is by which commit an object
//! was put. Where both are one commit, the objects at one address are one value. The log itself exists in the proofs
//! alone: its entries take no bytes, and a stamp is a number.
#![tactic(auto)]

mod log;
mod marks;
mod notes;
mod stamp;

pub use log::{KnownLog, Log, Naming, Opened};
pub use marks::{Marks, is_large};
pub use notes::Notes;
pub use stamp::Stamp;
