//! What the records of a journal mean, followed one by one: each record is held against those before it, at a cost that
//! goes by what it tells, whatever the size of the table.
#![tactic(auto)]

mod current_files;
mod file_maps;
mod following;
mod new_files;
mod replay;
mod span;
mod spans;

pub use current_files::CurrentFile;
pub use replay::Replay;
pub use span::Span;
