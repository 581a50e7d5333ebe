use thiserror::Error;

/// Why a key has no code.
#[derive(Debug, Drop, Error)]
pub enum KeyFault {
    /// The code would have so many bytes, above 128.
    #[error("the key takes {0} bytes, above 128")]
    TooLong(u64),
    /// Memory ran out.
    #[error("memory ran out")]
    Memory,
}

/// Why bytes could not be read as a key.
#[derive(Debug, Drop, Error)]
pub enum DecodeFault {
    /// The bytes are the code of no key of the table.
    #[error("the bytes are no key of the table")]
    NotAKey,
    /// Memory ran out.
    #[error("memory ran out")]
    Memory,
}
