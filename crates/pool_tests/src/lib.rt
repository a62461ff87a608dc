//! Tests alone: what public calls of the pool answer, on one thread and on several.
#![tactic(auto)]

#[cfg(test)]
mod tests;
