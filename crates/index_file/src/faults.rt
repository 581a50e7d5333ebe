ghost use Rattle.std.specs.Prelude.{◌≡◌};
ghost use Rattle.index_file.specs.Reads.{fault_of};

use dev_traits::{Damaged, Part, ReadFault, Shown};

/// Why the bytes of a part of a file aren't read as such.
#[derive(Drop)]
pub enum PartFault {
    Damaged(Shown),
    Memory,
}

/// The fault of a part of a file.
pub fn fault_of(file: u64, part: Part, fault: PartFault) -> ReadFault
    ensures { result ≡ fault_of file part fault }
{
    match fault {
        PartFault::Damaged(shown) => ReadFault::Damaged(Damaged { file, part, shown }),
        PartFault::Memory => ReadFault::Memory,
    }
}
