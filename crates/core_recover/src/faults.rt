ghost use Rattle.std.specs.Prelude.{◌≡◌};
ghost use Rattle.core_recover.specs.Faults.{of_journal, of_read};
ghost use Rattle.core_recover.specs.declared.faults.OpenFault.TheVariants as fault;

use dev_traits::{Damaged, Failed, Memory, ReadFault};
use thiserror::Error;
use version_journal::JournalFault;

/// Why a tablet isn't opened.
#[derive(Clone, Copy, Debug, Drop, Error)]
pub enum OpenFault {
    /// The store has no record.
    #[error("the store is empty")]
    Empty,
    /// An area of the journal, a file that it names, or a block of one is damaged.
    #[error("file {} is damaged", .0.file)]
    Damaged(Damaged),
    /// The store failed, and counted it.
    #[error("the store failed")]
    StoreFault,
    #[error("out of memory")]
    Memory,
}

impl From<Failed> for OpenFault {
    ghost from_gives = { λ _ e. e ≡ fault.StoreFault };

    fn from(_: Failed) -> Self {
        OpenFault::StoreFault
    }
}

impl From<Memory> for OpenFault {
    ghost from_gives = { λ _ e. e ≡ fault.Memory };

    fn from(_: Memory) -> Self {
        OpenFault::Memory
    }
}

impl From<ReadFault> for OpenFault {
    ghost from_gives = { λ read e. e ≡ of_read read };

    fn from(fault: ReadFault) -> Self {
        match fault {
            ReadFault::StoreFault => OpenFault::StoreFault,
            ReadFault::Damaged(damaged) => OpenFault::Damaged(damaged),
            ReadFault::Memory => OpenFault::Memory,
        }
    }
}

impl From<JournalFault> for OpenFault {
    ghost from_gives = { λ journal e. e ≡ of_journal journal };

    fn from(fault: JournalFault) -> Self {
        match fault {
            JournalFault::Empty => OpenFault::Empty,
            JournalFault::Damaged(damaged) => OpenFault::Damaged(damaged),
            JournalFault::StoreFault => OpenFault::StoreFault,
            JournalFault::Memory => OpenFault::Memory,
        }
    }
}
