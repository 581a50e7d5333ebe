ghost use Rattle.std.specs.Prelude.{◌≡◌, ◌<◌, ◌∷◌, [], ◌++◌, All, IfOk, IsTrue, List, OnOk, length, map};
ghost use Rattle.pk_values.specs.Fits.{fits};
ghost use Rattle.pk_values.specs.Schemas.{is_kind};
ghost use Rattle.column_page.specs.CellBytes.{cell_bytes};
ghost use Rattle.column_page.specs.Page.{column_cells, AllFit, Cell};
ghost use Rattle.column_page.specs.Texts.{lent, AreTexts, HaveTexts};

use crate::values::put_cell;
use pk_values::{Column, Row, Value};
use std::alloc::{AllocError, Global};

/// The bytes of cells, one after the other, and how long each is.
#[derive(Drop)]
pub struct Texts {
    pub bytes: Vec<u8>,
    pub lens: Vec<usize>,
}

// Adds the bytes of one more cell.
fn push_text(texts: &mut Texts, column: &Column, value: &Value) -> Result<(), AllocError>
    requires kind { IsTrue (is_kind column.now.kind) }
    requires fits { IsTrue (fits column.now value.now) }
    ensures bytes { OnOk result (texts.new.bytes.items ≡ texts.old.bytes.items ++ cell_bytes column.now value.now) }
    ensures lens { OnOk result (texts.new.lens.items ≡ texts.old.lens.items ++ length (cell_bytes column.now value.now) ∷ []) }
{
    let before = texts.bytes.len();
    put_cell(&mut texts.bytes, column, value)?;
    let len = texts.bytes.len() - before;
    texts.lens.push(len)?;
    Ok(())
}

/// The bytes of each cell.
pub fn texts_of(alloc: Global, column: &Column, cells: &[Value]) -> Result<Texts, AllocError>
    requires kind { IsTrue (is_kind column.now.kind) }
    requires fits { AllFit column.now cells.now }
    ensures { IfOk result (λ texts. AreTexts texts.bytes.items texts.lens.items (map (cell_bytes column.now) cells.now)) }
{
    let mut texts = Texts {
        bytes: Vec::new(alloc),
        lens: Vec::with_capacity(alloc, cells.len())?,
    };
    for value in cells {
        push_text(&mut texts, column, value)?;
    }
    Ok(texts)
}

/// The bytes of each cell of the column in a place of the rows.
pub fn column_texts(
    alloc: Global,
    column: &Column,
    place: usize,
    rows: &[Row],
) -> Result<Texts, AllocError>
    requires kind { IsTrue (is_kind column.now.kind) }
    requires there { All (λ row. place < length row) rows.now }
    requires fits { AllFit column.now (column_cells place rows.now) }
    ensures { IfOk result (λ texts. AreTexts texts.bytes.items texts.lens.items (map (cell_bytes column.now) (column_cells place rows.now))) }
{
    let mut texts = Texts {
        bytes: Vec::new(alloc),
        lens: Vec::with_capacity(alloc, rows.len())?,
    };
    for row in rows {
        push_text(&mut texts, column, &row.cells[place])?;
    }
    Ok(texts)
}

/// Each cell's bytes in their place.
pub fn pieces<'a>(
    alloc: Global,
    bytes: &'a [u8],
    lens: &[usize],
) -> Result<Vec<&'a [u8]>, AllocError>
    requires { HaveTexts bytes.now lens.now }
    ensures { IfOk result (λ pieces. (cells : List Cell) → AreTexts bytes.now lens.now cells → lent pieces.items ≡ cells) }
{
    let mut pieces = Vec::with_capacity(alloc, lens.len())?;
    let mut rest = bytes;
    for len in lens {
        let (piece, next) = rest.split_at(*len);
        pieces.push(piece)?;
        rest = next;
    }
    Ok(pieces)
}
