//! The old rows of a load's keys, read from a snapshot: those that the keys' changes ask for, each block at most once.
#![tactic(auto)]

mod filling;
mod old_rows;
mod parts_by_file;
mod rows_of_blocks;
mod wanted;

pub use filling::fill_olds;
pub use old_rows::read_olds;
pub use parts_by_file::PartsByFile;
pub use rows_of_blocks::{astray, has_key};
pub use wanted::{Wanted, wanted_rows};

#[test]
fn compiles() {}
