//! The index of a table's keys: a level that changes over files that don't.
#![tactic(auto)]

mod entries;
mod faults;
mod files;
mod index;
mod index_files;
mod laws;

pub use entries::{Pair, merge};
pub use faults::IndexFault;
pub use files::FileLevel;
pub use index::{Flushed, PkIndex};
pub use laws::flushing;
