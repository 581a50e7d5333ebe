ghost use Rattle.std.specs.Prelude.{◌≡◌, IfErr, IfOk};
ghost use Rattle.value_bytes.specs.Reads.{IsWhole, NotWhole};
ghost use Rattle.value_bytes.specs.declared.reads.Unread.TheVariants.{NotOne};

use crate::reads::{FieldReader, Unread};
use std::alloc::Global;

/// The value whose bytes these are.
///
/// # Errors
/// `NotOne` where they are no value's, and `Memory`.
pub fn read_whole<F: FieldReader>(alloc: Global, bytes: &[u8]) -> Result<F::Value, Unread>
    ensures one { IfOk result (λ x. IsWhole F.field bytes.now x) }
    ensures none { IfErr result (λ fault. fault ≡ NotOne → NotWhole F.field bytes.now) }
{
    match F::read(alloc, bytes) {
        Ok((value, rest)) => {
            if rest.is_empty() {
                Ok(value)
            } else {
                Err(Unread::NotOne)
            }
        }
        Err(fault) => Err(fault),
    }
}
