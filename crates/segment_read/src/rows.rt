ghost use Rattle.std.specs.Prelude.{◌≡◌, ◌<◌, ◌≤◌, ◌^◌, List, All, IfErr, IfOk, IsTrue, length};
ghost use Rattle.pk_values.specs.Schemas.{is_kind};
ghost use Rattle.pk_values.specs.declared.cells.Value.{Value};
ghost use Rattle.segment_read.specs.Columns.{AreRowsOf};

use crate::columns::{add_column, empty_rows};
use crate::pages::read_page;
use column_page::{ColumnMark, PageFault};
use pk_values::{Column, Row};
use std::alloc::Global;

// The rows whose pages begin the bytes, and that these bytes end with them.
fn read_columns(
    alloc: Global,
    columns: &[Column],
    count: u32,
    marks: &[ColumnMark],
    body: &[u8],
) -> Result<Vec<Row>, PageFault>
    requires kinds { All (λ c. IsTrue (is_kind c.kind)) columns.now }
    requires short { length body.now < 2 ^ 32 }
    requires marks { length marks.now ≡ length columns.now }
    requires some { 1 ≤ count }
    requires few { count ≤ 1024 }
    ensures rows { IfOk result (λ rows. AreRowsOf columns.now count marks.now body.now rows.items) }
    ensures only { IfOk result (λ rows. (others : List (List Value)) → AreRowsOf columns.now count marks.now body.now others → rows.items ≡ others) }
    ensures none { IfErr result (λ e. e ≡ PageFault.NotAPage → (rows : List (List Value)) → AreRowsOf columns.now count marks.now body.now rows → ⊥) }
{
    let mut rows = empty_rows(alloc, count, columns.len())?;
    let mut at = 0;
    for i in 0..columns.len() {
        let read = read_page(alloc, &columns[i], count, marks[i], &body[at..])?;
        let len = read.len;
        add_column(&mut rows, read.cells)?;
        at += len;
    }
    if at < body.len() {
        return Err(PageFault::NotAPage);
    }
    Ok(rows)
}

/// The rows of so many that have these marks and whose pages are these bytes, column by column.
///
/// # Errors
/// `NotAPage` exactly where no 1 to 1,024 fitting rows have them; `Memory`.
pub fn read_rows(
    alloc: Global,
    columns: &[Column],
    count: u32,
    marks: &[ColumnMark],
    body: &[u8],
) -> Result<Vec<Row>, PageFault>
    requires kinds { All (λ c. IsTrue (is_kind c.kind)) columns.now }
    requires short { length body.now < 2 ^ 32 }
    ensures rows { IfOk result (λ rows. AreRowsOf columns.now count marks.now body.now rows.items) }
    ensures only { IfOk result (λ rows. (others : List (List Value)) → AreRowsOf columns.now count marks.now body.now others → rows.items ≡ others) }
    ensures none { IfErr result (λ e. e ≡ PageFault.NotAPage → (rows : List (List Value)) → AreRowsOf columns.now count marks.now body.now rows → ⊥) }
{
    if count == 0 || count > 1024 || marks.len() != columns.len() {
        return Err(PageFault::NotAPage);
    }
    let rows = read_columns(alloc, columns, count, marks, body)?;
    Ok(rows)
}
