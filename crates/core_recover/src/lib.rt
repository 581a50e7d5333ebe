//! Opening a tablet on what its store holds, and making a store a tablet's.
#![tactic(auto)]

mod areas;
mod creating;
mod faults;
mod indexing;
mod naming;
mod reading;
mod recovering;
mod replaying;

pub use areas::settle_areas;
pub use creating::create;
pub use faults::OpenFault;
pub use indexing::index_of_live;
pub use naming::{has_many_files, name_files};
pub use reading::{Indexed, Tablet, read_tablet};
pub use recovering::recover;
pub use replaying::{Replayed, replay};
