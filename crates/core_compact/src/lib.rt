//! Versions that expire.
#![tactic(auto)]

mod expiring;

pub use expiring::expire;
