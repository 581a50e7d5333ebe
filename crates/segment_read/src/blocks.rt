ghost use Rattle.std.specs.Prelude.{◌≡◌, ◌+◌, IfErr, IfOk, length};
ghost use Rattle.segment_read.specs.Blocks.{AreTheRows, BlockShown, OnShown};

use crate::digests::digests_shown;
use crate::faults::PartFault;
use crate::rows::read_rows;
use column_page::{BlockMark, PageFault};
use dev_traits::Shown;
use pk_values::{Row, Schema};
use segment_form::keys_rise;
use std::alloc::Global;

/// The rows whose block these bytes are, by what the footer tells of it.
///
/// # Errors
/// `Damaged` with the digests exactly where these differ, and with `Form` exactly where they agree
/// and no rows have this block; `Memory`.
pub fn read_block(
    alloc: Global,
    schema: &Schema,
    mark: &BlockMark,
    bytes: &[u8],
) -> Result<Vec<Row>, PartFault>
    requires { length bytes.now ≡ mark.now.length + 32 }
    ensures rows { IfOk result (λ rows. AreTheRows schema.now mark.now bytes.now rows.items) }
    ensures shown { IfErr result (λ e. OnShown e (BlockShown schema.now mark.now bytes.now)) }
{
    let len = mark.length as usize;
    if let Some(shown) = digests_shown(bytes, len) {
        return Err(PartFault::Damaged(shown));
    }
    let marks = mark.marks.as_slice();
    match read_rows(alloc, schema.columns(), mark.rows, marks, &bytes[..len]) {
        Ok(rows) => {
            if keys_rise(schema, &rows) {
                Ok(rows)
            } else {
                Err(PartFault::Damaged(Shown::Form))
            }
        }
        Err(PageFault::NotAPage) => Err(PartFault::Damaged(Shown::Form)),
        Err(PageFault::Memory) => Err(PartFault::Memory),
    }
}
