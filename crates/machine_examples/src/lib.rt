//! Worked values of the machine's definitions: what a call comes to in states that were worked out by hand, runs,
//! pages, ranges and times, each proved by computing the definition. Nothing stands on them: they show that the
//! definitions of `nfs_machine/specs` say what they are meant to say, and that what its laws speak of is there.
//!
//! The definitions stand in `specs/`, one file for each family of calls; no code is run.
#![tactic(auto)]

pub mod worked;
