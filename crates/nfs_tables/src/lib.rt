//! Tables: maps by key that grow without moving all that they hold at once.
#![tactic(auto)]

mod placing;
mod table;

pub use placing::Placing;
pub use table::Table;
