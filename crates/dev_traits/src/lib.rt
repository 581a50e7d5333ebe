//! The outside as the tablet sees it: inputs by name, sinks, a gate that lanes pass, a store of
//! three areas and of files, makers of files and readers of them.
#![tactic(auto)]

mod counts;
mod faults;
mod gate;
mod maker;
mod outside;
mod reader;
mod store;
mod streams;

pub use counts::sums_of_counts;
pub use faults::{Damaged, Digest, MakeFault, OutsideFault, Part, ReadFault, Shown};
pub use gate::Gate;
pub use maker::FileMaker;
pub use outside::{DevError, Failed, LONGEST, Memory};
pub use reader::SealedReader;
pub use store::Store;
pub use streams::{Asked, Inputs, Put, Sink, Source, Taken};
