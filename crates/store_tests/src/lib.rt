//! Tests of the outside on the host: files, standard output, and a store in a folder. What is sent from thread to thread
//! may be sent.
#![tactic(auto)]

#[cfg(test)]
mod host;
pub mod sent;
#[cfg(test)]
mod stores;
#[cfg(test)]
mod streams;
