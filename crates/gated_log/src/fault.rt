ghost use Rattle.std.specs.Prelude.{◌≡◌};
ghost use Rattle.gated_log.specs.declared.fault.LogFault.TheVariants as fault;

use dev_traits::{Failed, Memory};
use std::alloc::AllocFailed;
use thiserror::Error;

/// Why a call on a log failed.
#[derive(Clone, Copy, Debug, PartialEq, Eq, Drop, Error)]
pub enum LogFault {
    /// The store failed, and counted it.
    #[error("the store failed")]
    StoreFault,
    /// The area's bytes aren't of the log's grammar.
    #[error("the area is no log")]
    NotALog,
    #[error("out of memory")]
    Memory,
}

impl From<Failed> for LogFault {
    ghost from_gives = { λ _ e. e ≡ fault.StoreFault };

    fn from(_: Failed) -> Self {
        LogFault::StoreFault
    }
}

impl From<Memory> for LogFault {
    ghost from_gives = { λ _ e. e ≡ fault.Memory };

    fn from(_: Memory) -> Self {
        LogFault::Memory
    }
}

impl<T: Drop> From<AllocFailed<T>> for LogFault {
    ghost from_gives = { λ _ e. e ≡ fault.Memory };

    fn from(_: AllocFailed<T>) -> Self {
        LogFault::Memory
    }
}
