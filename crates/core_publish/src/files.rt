ghost use Rattle.std.specs.Prelude.{◌≡◌, All, IsTrue, IfOk, is_some, map};
ghost use Rattle.pk_values.specs.Schemas.{fits_row};
ghost use Rattle.segment_form.specs.Segments.{KeysRise};
ghost use Rattle.dev_traits.specs.Causes.{HasMakeCause};
ghost use Rattle.core_publish.specs.Prepared.{AreSealedOf, EachTells, files_of};

use crate::results::FILE_ROWS;
use dev_traits::{FileMaker, MakeFault};
use pk_values::{Row, Schema};
use segment_write::{Made, write_segment};
use std::alloc::Global;

/// Writes rows with rising keys into files of 65,536 rows, of which the last may have fewer.
pub fn write_files<M: FileMaker>(
    alloc: Global,
    maker: &mut M,
    schema: &Schema,
    rows: &[Row],
) -> Result<Vec<Made<M>>, MakeFault>
    requires fit { All (λ row. IsTrue (fits_row schema.now row)) rows.now }
    requires rise { KeysRise schema.now rows.now }
    ensures sealed { IfOk result (λ files. AreSealedOf schema.now (files_of rows.now)
        (map (λ f. (M.sealed_bytes f.sealed, f.footer)) files.items)) }
    ensures told { IfOk result (λ files. EachTells (is_some (M.view maker.old).made)
        (map (λ f. (M.sealed_bytes f.sealed, f.footer)) files.items)) }
    ensures tells { is_some (M.view maker.new).made ≡ is_some (M.view maker.old).made }
    ensures cause { HasMakeCause (M.view maker.old).faults (M.view maker.new).faults result }
{
    let mut files = Vec::with_capacity(alloc, rows.len().div_ceil(FILE_ROWS))?;
    for chunk in rows.chunks(FILE_ROWS) {
        let made = write_segment(alloc, maker, schema, chunk)?;
        files.push(made)?;
    }
    Ok(files)
}
