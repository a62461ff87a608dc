//! What is expected is worked out by hand from RFC 5531, sections 9 and 11, and RFC 1813, 3.3. Each pool is of an
//! engine that was started with number 7, and exports `/data` to every host; every moment is (1000, 0).
//!
//! But for calls that are held up, a test tries a second time whatever was refused for want of memory, so that by hand
//! it may be run with each growth refused in turn.

mod beside;
mod buried;
mod callers;
mod calls;
mod deep;
mod ends;
mod gates;
mod holds;
mod listings;
mod pages;
mod pools;
mod refusals;
mod rows;
mod stamps;
mod wakes;
