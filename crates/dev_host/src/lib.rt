//! The real outside: files, folders and standard output, of whose bytes nothing is told.
#![tactic(auto)]

mod disk;
mod gate;
mod inputs;
mod maker;
mod reader;
mod sink;
mod store;

pub use gate::OpenGate;
pub use inputs::{HostInputs, HostSource};
pub use maker::{HostMaker, HostSealed};
pub use reader::HostReader;
pub use sink::HostSink;
pub use store::HostStore;
