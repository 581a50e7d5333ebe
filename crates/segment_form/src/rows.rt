ghost use Rattle.std.specs.Prelude.{◌≡◌, ◌↔◌, All, IsTrue};
ghost use Rattle.pk_values.specs.Schemas.{fits_row};
ghost use Rattle.segment_form.specs.Segments.{AreSegmentRows};

use crate::keys::keys_rise;
use pk_values::{Row, Schema};

// Whether the row has one fitting cell for each column.
fn row_fits(schema: &Schema, row: &Row) -> bool
    ensures { result ≡ fits_row schema.now row.now }
{
    let columns = schema.columns();
    if row.cells.len() != columns.len() {
        return false;
    }
    for (i, column) in columns.iter().enumerate() {
        if !column.fits(&row.cells[i]) {
            return false;
        }
    }
    true
}

// Whether each row fits.
fn rows_fit(schema: &Schema, rows: &[Row]) -> bool
    ensures { IsTrue result ↔ All (λ row. IsTrue (fits_row schema.now row)) rows.now }
{
    rows.iter().all(|row| row_fits(schema, row))
}

/// Whether these are the rows of a segment: 1 to 65,536 rows that fit the table, with rising keys.
pub fn are_segment_rows(schema: &Schema, rows: &[Row]) -> bool
    ensures { IsTrue result ↔ AreSegmentRows schema.now rows.now }
{
    !rows.is_empty() && rows.len() <= 65_536 && rows_fit(schema, rows) && keys_rise(schema, rows)
}
