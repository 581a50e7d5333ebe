//! Writing segments: rows with rising keys go into a file of blocks with digests and a footer.
#![tactic(auto)]

mod blocks;
mod pages;
mod segments;

pub use segments::{Made, write_segment};
