//! A log in an area of a store: each body stands behind a gate that is opened once the body is on the disk.
#![tactic(auto)]

mod contents;
mod fault;
mod framed;
mod log;
mod reading;

pub use contents::{Contents, bodies, first_body, log_in, read_log};
pub use fault::LogFault;
pub use framed::{Framed, frame};
pub use log::{Log, append, reset};
pub use reading::find;
