//! Loads as a tablet takes them: prepared outside of any turn, published in one.
#![tactic(auto)]

mod entries;
mod files;
mod laws;
mod lines;
mod opening;
mod places;
mod prepared;
mod publishing;
mod ready;
mod results;

pub use files::write_files;
pub use laws::prepared_loads;
pub use opening::{open_version, stat};
pub use prepared::{Prepared, prepare};
pub use publishing::publish;
