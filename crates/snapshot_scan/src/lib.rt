//! Snapshots of a version: the live rows of its segments, part by part, block by block, or in the
//! order of their keys.
#![tactic(auto)]

mod feeds;
mod live;
mod parts;
mod scans;
mod snapshots;

pub use scans::Scan;
pub use snapshots::{Snapshot, give_back_snapshot};
