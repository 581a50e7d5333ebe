//! Index files: the entries of a level in buckets by the hash of their keys, each bucket with its digest, and a footer. A look-up
//! reads one bucket. Here too a body of the index log as bytes.
#![tactic(auto)]

mod bucket_reads;
mod chains;
mod digests;
mod faults;
mod footer_reads;
mod footers;
mod hashing;
mod index_files;
mod laws;
mod listing;
mod log_bodies;
mod look_ups;
mod making;
mod notes;
mod pieces;
mod reading;
mod seeking;
mod writing;

pub use footers::{BucketMark, IndexFooter};
pub use hashing::hash;
pub use index_files::{IndexFile, attach_index, probe};
pub use laws::{bodies, files, hashes};
pub use listing::entries;
pub use log_bodies::{keys_rise, read_body};
pub use making::{MadeIndex, write_index};
pub use reading::{read_bucket, read_entry, read_place};
pub use writing::{push_entry, write_bucket};
