//! What a tablet keeps while it runs: its index from keys to places, and the files of its versions
//! with their dead rows. A change makes the next version, which shares what it doesn't change.
#![tactic(auto)]

mod groups;
mod kept_file;
mod kept_version;
mod key_index;
mod laws;
mod lookups;
mod marking;
mod publications;

pub use kept_file::KeptFile;
pub use kept_version::KeptVersion;
pub use key_index::KeyIndex;
pub use laws::publication_steps;
pub use publications::{ChangeFault, Published, publish_change};
