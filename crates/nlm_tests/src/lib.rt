//! Tests alone: what public calls of `nlm_ranges` answer where no clause says it.
#![tactic(auto)]

#[cfg(test)]
mod tests;
