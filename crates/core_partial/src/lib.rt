//! Partial loads: located in one turn, prepared outside of any, and published in another, where only the keys that
//! moved since are read again.
#![tactic(auto)]

mod again;
mod found;
mod keys;
mod locating;
mod making;
mod prepared;
mod preparing;
mod publishing;
mod reading;
mod ready;
mod remaking;
mod results;
mod settling;

pub use found::{Found, give_back_found};
pub use keys::PreparedKey;
pub use locating::locate;
pub use prepared::PreparedPartial;
pub use preparing::prepare_partial;
pub use publishing::publish_partial;
pub use settling::settle;
