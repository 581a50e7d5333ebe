//! What a run of a script tells: which orders of turns fit it, what became of each job, and how the run ends by that.
#![tactic(auto)]

mod endings;
mod jobs;
mod laws;
mod plain;
mod turns;

pub use endings::{Ending, ending_of, status_of};
pub use jobs::FiledJob;
pub use laws::{bearing, closings, determinism, ends, follows, gathering, lanes, notes, parts};
pub use plain::{Course, run_jobs};
pub use turns::Turn;
