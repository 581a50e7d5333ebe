ghost use Rattle.std.specs.Prelude.{◌≡◌, ◌+◌, ◌≤◌, IfErr, IfOk, length, take, drop};
ghost use Rattle.index_file.specs.Reads.{OnDamage, Reading, OnFile};

use dev_traits::{ReadFault, SealedReader};
use std::alloc::Global;

/// Reads so many bytes from a place on.
pub fn read_piece<R: SealedReader>(
    alloc: Global,
    reader: &mut R,
    at: u64,
    len: usize,
) -> Result<Vec<u8>, ReadFault>
    requires { at + len ≤ (R.view reader.old).size }
    ensures bytes { IfOk result (λ bytes. OnFile (R.view reader.old) (λ file. bytes.items ≡ take len (drop at file))) }
    ensures long { IfOk result (λ bytes. length bytes.items ≡ len) }
    ensures undamaged { IfErr result (λ e. OnDamage e (λ damaged. ⊥)) }
    ensures reading { Reading 1 (R.view reader.old) (R.view reader.new) result }
{
    let mut bytes = vec![in alloc; 0; len]?;
    reader.read_at(at, &mut bytes)?;
    Ok(bytes)
}
