ghost use Rattle.std.specs.Prelude.{◌≡◌, ◌++◌, All, OnOk, length, take};
ghost use Rattle.cell_text.specs.Texts.{IsWritable};
ghost use Rattle.script_text.specs.Texts.{AreWritable, IsWritableRow, later_cells, row_text, rows_text};

use cell_text::write_cell;
use pk_values::{Row, Value};
use std::alloc::AllocError;

// Appends the cells after the first of a row.
fn put_later(text: &mut Vec<u8>, cells: &[Value]) -> Result<(), AllocError>
    requires { All IsWritable cells.now }
    ensures ok { OnOk result (text.new.items ≡ text.old.items ++ later_cells cells.now) }
    ensures before { take (length text.old.items) text.new.items ≡ text.old.items }
{
    for cell in cells {
        text.extend_from_slice(b",")?;
        write_cell(cell, text)?;
    }
    Ok(())
}

// Appends a row: its cells with commas between, and a line feed.
fn put_row(text: &mut Vec<u8>, row: &Row) -> Result<(), AllocError>
    requires { IsWritableRow row.now }
    ensures ok { OnOk result (text.new.items ≡ text.old.items ++ row_text row.now) }
    ensures before { take (length text.old.items) text.new.items ≡ text.old.items }
{
    match row.cells.as_slice() {
        [] => {}
        [first, rest @ ..] => {
            write_cell(first, text)?;
            put_later(text, rest)?;
        }
    }
    text.extend_from_slice(b"\n")
}

/// Appends rows as a report has them: each with commas between its cells, as `write_cell` writes them, and a line feed. A day in them is from 0 to 3,652,424.
///
/// # Errors
/// `AllocError` where memory ran out; what stood in `text` still does, and a part of the rows may stand behind it.
pub fn put_rows(text: &mut Vec<u8>, rows: &[Row]) -> Result<(), AllocError>
    requires { AreWritable rows.now }
    ensures ok { OnOk result (text.new.items ≡ text.old.items ++ rows_text rows.now) }
    ensures before { take (length text.old.items) text.new.items ≡ text.old.items }
{
    for row in rows {
        put_row(text, row)?;
    }
    Ok(())
}
