//! What the file of a segment is: definitions that its writer and its readers share, laws about
//! them, and tests of its rows and their keys.
#![tactic(auto)]

mod keys;
mod laws;
mod rows;

pub use keys::{is_below, keys_rise};
pub use laws::{rows_in_blocks, segment_footers};
pub use rows::are_segment_rows;
