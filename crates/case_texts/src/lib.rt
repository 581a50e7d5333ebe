//! What the lines of cases say: bytes and values as texts, and the other way round.
#![tactic(auto)]

mod texts;
mod values;

pub use texts::{bytes_of, bytes_of_hex, hex_of, text_of};
pub use values::{kind_of, kind_text, value_of, value_text, values_text};
