//! Tests alone, of what `nfs_server` offers: streams of calls to a new server and the answers that it must write, what
//! a command line asks for, what is said at an exit, and what the clocks give. They stand above the library that they
//! test and call only what is public there, so that its own proof and its edits do not wait for them.
#![tactic(auto)]

#[cfg(test)]
mod tests;
