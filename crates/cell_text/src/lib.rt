//! Cells as texts: what the bytes of a load file's cell read as, and how a report shows a cell.
#![tactic(auto)]

mod dates;
mod faults;
mod numbers;
mod read;
mod write;

pub use faults::CellFault;
pub use read::read_cell;
pub use write::write_cell;
