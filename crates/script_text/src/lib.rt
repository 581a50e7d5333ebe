//! Scripts of jobs, and the reports of what became of them.
#![tactic(auto)]

mod acts;
mod damages;
mod lines;
mod numbers;
mod outcomes;
mod pieces;
mod reading;
mod reports;
mod rows;
mod scripts;
mod words;

pub use outcomes::{Item, ItemPart, Outcome};
pub use reading::read_script;
pub use reports::write_report;
pub use rows::put_rows;
pub use scripts::{Job, JobAct, Script, ScriptCause, ScriptFault};
