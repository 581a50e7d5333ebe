//! What a tablet keeps over a store, and what each call makes of it.
#![tactic(auto)]

mod adopting;
mod changes;
mod copies;
mod floor;
mod hands;
mod keeping;
mod laws;
mod making;
mod parts;
mod ready;
mod snapshots;
mod state;
mod turns;

pub use changes::{Change, Ready};
pub use copies::told_keys;
pub use floor::ReadyFloor;
pub use laws::{holding, replying, standing};
pub use parts::StateParts;
pub use ready::ReadyFault;
pub use state::State;
