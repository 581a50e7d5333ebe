//! Loads whose rows are made outside the turn: what the lines of a key come to, which keys moved meanwhile, and that
//! the rows made before and those made again are a load's.
#![tactic(auto)]

mod changes;
mod folds;
mod laws;
mod lines;
mod rows;
mod standings;

pub use changes::KeyChange;
pub use folds::{Folded, fold_lines};
pub use laws::{example, folding, judging, making, moving, publishing, settling};
pub use standings::{Placing, Standing, count_moved, stand, stand_all};
