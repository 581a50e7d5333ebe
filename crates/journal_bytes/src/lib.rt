//! The records of a journal as bytes: a body begins with a tag and the record's edit, and is of one record alone.
#![tactic(auto)]

mod laws;
mod part_fields;
mod record_readers;
mod record_writers;
mod schema_readers;
mod schema_writers;

pub use laws::{bodies, records};
pub use record_readers::{ReadRecord, read_record};
pub use record_writers::write_record;
