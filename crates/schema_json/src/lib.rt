//! The JSON text that describes a table: its columns, and how many of them are its key.
#![tactic(auto)]

mod columns;
mod tables;
mod type_names;

pub use columns::ColumnShape;
pub use tables::{TableFault, TableShape, read_table};
