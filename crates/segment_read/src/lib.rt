//! Reading segments: their footers, their blocks and their rows.
#![tactic(auto)]

mod blocks;
mod columns;
mod digests;
mod faults;
mod footers;
mod laws;
mod pages;
mod pieces;
mod rows;
mod scans;
mod segments;

pub use laws::intact_files;
pub use scans::rows_of;
pub use segments::{Segment, attach, block, row_at};
