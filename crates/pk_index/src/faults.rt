ghost use Rattle.std.specs.Prelude.{◌≡◌};
ghost use Rattle.pk_index.specs.Shown.{index_of_make, index_of_read};

use dev_traits::{Damaged, MakeFault, ReadFault};
use thiserror::Error;

/// Why a flush was not made.
#[derive(Clone, Copy, Debug, Drop, Error)]
pub enum IndexFault {
    /// The maker or a file's reader failed, and counted it.
    #[error("a device failed")]
    StoreFault,
    #[error("file {} is damaged", .0.file)]
    Damaged(Damaged),
    #[error("out of memory")]
    Memory,
}

pub(crate) fn of_read(fault: ReadFault) -> IndexFault
    ensures { result ≡ index_of_read fault }
{
    match fault {
        ReadFault::StoreFault => IndexFault::StoreFault,
        ReadFault::Damaged(damaged) => IndexFault::Damaged(damaged),
        ReadFault::Memory => IndexFault::Memory,
    }
}

pub(crate) fn of_make(fault: MakeFault) -> IndexFault
    ensures { result ≡ index_of_make fault }
{
    match fault {
        MakeFault::StoreFault => IndexFault::StoreFault,
        MakeFault::Memory => IndexFault::Memory,
    }
}
