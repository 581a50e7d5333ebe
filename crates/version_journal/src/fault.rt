ghost use Rattle.std.specs.Prelude.{◌≡◌};
ghost use Rattle.version_journal.specs.declared.fault.JournalFault.TheVariants as fault;

use dev_traits::{Damaged, Memory};
use thiserror::Error;

/// Why no journal was read.
#[derive(Clone, Copy, Debug, Drop, Error)]
pub enum JournalFault {
    /// Neither area of the journal has a body.
    #[error("there is no journal")]
    Empty,
    /// An area of the journal isn't of its grammar, or a record doesn't fit those before it.
    #[error("the journal is damaged")]
    Damaged(Damaged),
    /// The store failed, and counted it.
    #[error("the store failed")]
    StoreFault,
    #[error("out of memory")]
    Memory,
}
