//! Segments that are written and read back.
#![tactic(auto)]

mod round_trips;

pub use round_trips::write_and_read;
