//! Keys as bytes that compare as the keys do.
#![tactic(auto)]

mod decoding;
mod drafts;
mod encoding;
mod escape;
mod faults;
mod prefixes;

pub use decoding::decode;
pub use encoding::encode;
pub use faults::{DecodeFault, KeyFault};
pub use prefixes::{prefix, prefix_order};
