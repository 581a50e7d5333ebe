//! Which rows of a file are dead.
#![tactic(auto)]

mod places;
mod unions;
mod vectors;

pub use vectors::DelVector;
