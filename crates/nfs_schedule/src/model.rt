//! A model of calls that go on side by side: workers on one engine make its steps in the order of a list of events.
//!
//! What is said of it holds of every order. No program uses it, but scenes and tests play it: one call after the other
//! is executed by `execute`, and calls of many threads by `nfs_pool`. A worker goes by attempts alone, with no plan.

mod driving;
mod resting;
mod stop;
mod worker;
mod world;

pub use driving::{Event, drive};
pub use resting::is_at_rest;
pub use worker::{Afterwards, Worker};
pub use world::World;
