ghost use Rattle.std.specs.Prelude.{◌≡◌, ◌++◌, ◌∷◌, [], OnOk, IfOk, IfErr, replicate, vec_len};
ghost use Rattle.segment_read.specs.Columns.{with_column};

use column_page::PageFault;
use pk_values::{Row, Value};
use std::alloc::Global;

// A row without a cell, with the memory for so many.
fn empty_row(alloc: Global, width: usize) -> Result<Row, PageFault>
    ensures empty { IfOk result (λ row. row ≡ []) }
    ensures memory { IfErr result (λ e. e ≡ PageFault.Memory) }
{
    match Vec::with_capacity(alloc, width) {
        Ok(cells) => Ok(Row { cells }),
        Err(_) => Err(PageFault::Memory),
    }
}

fn push_row(rows: &mut Vec<Row>, row: Row) -> Result<(), PageFault>
    ensures pushed { OnOk result (rows.new.items ≡ rows.old.items ++ row ∷ []) }
    ensures memory { IfErr result (λ e. e ≡ PageFault.Memory) }
{
    match rows.push(row) {
        Ok(()) => Ok(()),
        Err(_) => Err(PageFault::Memory),
    }
}

/// So many rows without a cell, with the memory for `width` cells each.
pub fn empty_rows(alloc: Global, count: u32, width: usize) -> Result<Vec<Row>, PageFault>
    ensures empty { IfOk result (λ rows. rows.items ≡ replicate count []) }
    ensures memory { IfErr result (λ e. e ≡ PageFault.Memory) }
{
    let mut rows = Vec::new(alloc);
    for i in 0..count {
        let row = empty_row(alloc, width)?;
        push_row(&mut rows, row)?;
    }
    Ok(rows)
}

fn push_cell(row: &mut Row, cell: Value) -> Result<(), PageFault>
    ensures pushed { OnOk result (row.new ≡ row.old ++ cell ∷ []) }
    ensures memory { IfErr result (λ e. e ≡ PageFault.Memory) }
{
    match row.cells.push(cell) {
        Ok(()) => Ok(()),
        Err(_) => Err(PageFault::Memory),
    }
}

/// Moves one cell behind each row.
pub fn add_column(rows: &mut Vec<Row>, cells: Vec<Value>) -> Result<(), PageFault>
    requires { vec_len rows.old ≡ vec_len cells }
    ensures added { OnOk result (rows.new.items ≡ with_column rows.old.items cells.items) }
    ensures memory { IfErr result (λ e. e ≡ PageFault.Memory) }
{
    let mut cells = cells.into_iter();
    for row in rows.iter_mut() {
        if let Some(cell) = cells.next() {
            push_cell(row, cell)?;
        }
    }
    Ok(())
}
