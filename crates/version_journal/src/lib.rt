//! The journal of versions: records in the areas of a store, what an image of the store says by them, how a record joins
//! them, and how they are read.
#![tactic(auto)]

mod commits;
mod fault;
mod journals;
mod laws;
mod reading;
mod replaying;

pub use commits::{commit, draft};
pub use fault::JournalFault;
pub use journals::{Draft, Journal};
pub use laws::{areas, damages, images, moments};
pub use reading::{ReadJournal, read_records};
