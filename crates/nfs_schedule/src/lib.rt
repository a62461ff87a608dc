//! From a call to its steps on the engine.
//!
//! `attempt` is what a call comes to on what it has read, by its program. `next_step` tells which step of a call comes
//! next, and `execute` makes these steps on an engine at rest. Beside them stands a model (`model`): a `Worker` thinks
//! with no engine, and makes one step of the engine at each turn. A `World` has an engine with its workers. `drive`
//! makes the steps of a list of events.
#![tactic(auto)]

mod answer;
mod attempts;
mod course;
mod executing;
mod foreseen;
mod laws;
mod model;
pub mod planning;

pub use answer::{Answer, RefusalReply, decline};
pub use attempts::attempt;
pub use course::{Considered, Course, NextStep, consider, next_step};
pub use executing::execute;
pub use laws::{calls_ask_once, courses_are_few};
pub use model::{Afterwards, Event, Worker, World, drive, is_at_rest};
