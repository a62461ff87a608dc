//! What is expected is worked out by hand from the rules and from RFC 5531 and RFC 1813. Where an engine is started, it
//! is with number 7, every moment is (1000, 0), and `/data` is exported to every host.
//!
//! What calls answer on an engine, alone and beside each other, stands as data in `crates/scenes/stdin`.

mod admissions;
mod alone;
mod arrivals;
mod attempts;
mod openings;
mod records;
mod refusals;
mod replies;
mod shards;
mod worlds;
