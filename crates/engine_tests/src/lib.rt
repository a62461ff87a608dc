//! Tests alone: what public calls of the engine and of the schedule over it answer. They stand above the libraries that
//! they test, so that a library's own proof and its edits do not wait for them.
#![tactic(auto)]

#[cfg(test)]
mod tests;
