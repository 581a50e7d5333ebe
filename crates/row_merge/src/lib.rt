//! Rows of several parts, each in the order of its keys, merged into one row after the other.
#![tactic(auto)]

mod brackets;
mod cursors;
mod laws;

pub use brackets::{Bracket, bracket_of};
pub use cursors::Cursor;
pub use laws::merging;
