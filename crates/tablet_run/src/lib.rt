//! A run: the words, a table, a script and load files come in, and the report of the script's jobs goes out.
#![tactic(auto)]

mod causes;
mod done;
mod inputs;
mod lanes;
mod laws;
mod opening;
mod partials;
mod runs;
mod scanning;
mod streams;

pub use causes::{Cause, Ended, StoredTable};
pub use laws::stops;
pub use runs::run;
