use crate::SharedBytes;

/// The number of calls that is never reached.
pub const NEVER: u64 = u64::MAX;

/// A call that wrote. The bytes of the writes stand one after another in a buffer of their own. Where a call failed,
/// its flag is false.
#[derive(Clone, Copy)]
pub enum Call {
    /// The area, the offset, the number of bytes.
    Write(u32, u64, usize, bool),
    Sync(u32),
    Blank(u32, bool),
    /// An adoption, or files that were forgotten.
    OnFiles,
}

/// A file that was adopted by one call, by its number from 1, and forgotten by another, or never.
#[derive(Drop)]
pub struct File {
    pub number: u64,
    pub bytes: SharedBytes,
    pub from: u64,
    pub until: u64,
}
