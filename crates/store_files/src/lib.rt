//! The files of a store's tablet as it is opened: the segments that a journal tells of, and the keys of their live
//! rows with their places.
#![tactic(auto)]

mod attaching;
mod keys;
mod laws;

pub use attaching::{NamedFile, attach_all, attach_file, give_back_all};
pub use keys::live_keys;
pub use laws::live_rows_make_index;
