use thiserror::Error;

/// Why bytes give no cells.
#[derive(Debug, Drop, Error)]
pub enum PageFault {
    /// No cells of the column have this page.
    #[error("the bytes are no page of the column")]
    NotAPage,
    /// There isn't the memory to read them.
    #[error("memory ran out")]
    Memory,
}

/// Why bytes give no footer.
#[derive(Debug, Drop, Error)]
pub enum FooterFault {
    /// The bytes are the footer of no segment.
    #[error("the bytes are no footer of a segment")]
    NotAFooter,
    /// There isn't the memory to read them.
    #[error("memory ran out")]
    Memory,
}
