//! Tests alone: what public calls of the machine's libraries answer where no stream of calls shows it. They stand above
//! the libraries that they test, so that a library's own proof and its edits do not wait for them.
#![tactic(auto)]

#[cfg(test)]
mod tests;
