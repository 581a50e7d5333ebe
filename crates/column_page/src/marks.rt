ghost use Rattle.std.specs.Prelude.{◌≡◌, ◌<◌, All, length};
ghost use Rattle.column_page.specs.Footers.{cell_number, mark_of, with_cell, with_number};
ghost use Rattle.column_page.specs.Page.{column_cells};

use crate::footers::{ColumnMark, Span};
use pk_values::{Row, Value};

// The number of a cell, if it has one.
fn number_of(value: &Value) -> Option<i128>
    ensures { result ≡ cell_number value.now }
{
    match value {
        Value::Bool(false) => Some(0),
        Value::Bool(true) => Some(1),
        Value::Num(number) => Some(*number),
        Value::Day(day) => Some(i128::from(*day)),
        Value::Null | Value::Text(_) => None,
    }
}

// The least and the greatest with one number more.
fn widened(number: Option<i128>, span: Option<Span>) -> Option<Span>
    ensures { result ≡ with_number number span }
{
    match (number, span) {
        (None, span) => span,
        (Some(number), None) => Some(Span {
            least: number,
            greatest: number,
        }),
        (Some(number), Some(span)) => Some(Span {
            least: number.min(span.least),
            greatest: number.max(span.greatest),
        }),
    }
}

// The mark with one cell more.
fn with_one(value: &Value, mark: ColumnMark) -> ColumnMark
    ensures { result ≡ with_cell value.now mark }
{
    let span = widened(number_of(value), mark.span);
    match value {
        Value::Null => ColumnMark { nulls: true, span },
        Value::Bool(_) | Value::Num(_) | Value::Day(_) | Value::Text(_) => ColumnMark {
            nulls: mark.nulls,
            span,
        },
    }
}

/// The mark of a column of a block: whether some cell is NULL, and the least and the greatest
/// number among the cells. A VARCHAR column has no numbers.
pub fn mark_of(cells: &[Value]) -> ColumnMark
    ensures { result ≡ mark_of cells.now }
{
    let mut mark = ColumnMark {
        nulls: false,
        span: None,
    };
    let mut left = cells.len();
    while left > 0 {
        left -= 1;
        mark = with_one(&cells[left], mark);
    }
    mark
}

/// The mark of the column in a place, counted from 0, of the rows of a block.
pub fn column_mark(place: usize, rows: &[Row]) -> ColumnMark
    requires { All (λ row. place < length row) rows.now }
    ensures { result ≡ mark_of (column_cells place rows.now) }
{
    let mut mark = ColumnMark {
        nulls: false,
        span: None,
    };
    let mut left = rows.len();
    while left > 0 {
        left -= 1;
        let row = &rows[left];
        mark = with_one(&row.cells[place], mark);
    }
    mark
}
