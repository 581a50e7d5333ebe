use thiserror::Error;

/// Why a cell could not be read.
#[derive(Debug, Drop, Error)]
pub enum CellFault {
    /// The bytes are no value of the kind.
    #[error("the bytes are no value of the column's type")]
    BadCell,
    /// Memory ran out for a text.
    #[error("memory ran out")]
    Memory,
}
