//! The outside in memory: inputs, a sink and a store that tell their bytes, and fail where they are told to.
#![tactic(auto)]

mod area;
mod begun;
mod call;
mod crash;
mod faults;
mod image;
mod inputs;
mod kept;
mod left_files;
mod maker;
mod reader;
mod shared;
mod sink;
mod store;

pub use faults::Faults;
pub use image::Image;
pub use inputs::{MemInputs, MemSource};
pub use maker::{MemMaker, MemSealed};
pub use reader::MemReader;
pub use shared::SharedBytes;
pub use sink::MemSink;
pub use store::MemStore;
