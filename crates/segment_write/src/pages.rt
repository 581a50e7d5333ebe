ghost use Rattle.std.specs.Prelude.{◌≡◌, ◌<◌, ◌≤◌, ◌^◌, ◌∷◌, [], ◌++◌, All, IsTrue, IfOk, OnOk, length};
ghost use Rattle.pk_values.specs.Schemas.{fits_row, is_kind};
ghost use Rattle.column_page.specs.Footers.{mark_of};
ghost use Rattle.column_page.specs.Page.{column_cells, page_of, AllFit};
ghost use Rattle.segment_form.specs.Segments.{block_body, marks_of, sized};

use column_page::{ColumnMark, column_mark, encode_column, put_u32};
use pk_values::{Column, Items, Row, Schema};
use std::alloc::{AllocError, Global};

/// The pages of a block, each behind its length, and the marks of its columns.
#[derive(Drop)]
pub struct Pages {
    pub bytes: Vec<u8>,
    pub marks: Items<ColumnMark>,
}

// Appends the length of a page and the page.
fn put_sized(out: &mut Vec<u8>, page: &[u8]) -> Result<(), AllocError>
    requires { length page.now < 2 ^ 32 }
    ensures { OnOk result (out.new.items ≡ out.old.items ++ sized page.now) }
{
    put_u32(out, page.len() as u32)?;
    out.extend_from_slice(page)
}

// Adds the page and the mark of one more column.
fn put_column(
    alloc: Global,
    pages: &mut Pages,
    column: &Column,
    place: usize,
    rows: &[Row],
) -> Result<(), AllocError>
    requires kind { IsTrue (is_kind column.now.kind) }
    requires some { 1 ≤ length rows.now }
    requires few { length rows.now ≤ 1024 }
    requires there { All (λ row. place < length row) rows.now }
    requires fits { AllFit column.now (column_cells place rows.now) }
    ensures bytes { OnOk result (pages.new.bytes.items ≡ pages.old.bytes.items ++ sized (page_of column.now (column_cells place rows.now))) }
    ensures marks { OnOk result (pages.new.marks ≡ pages.old.marks ++ mark_of (column_cells place rows.now) ∷ []) }
{
    let page = encode_column(alloc, column, place, rows)?;
    put_sized(&mut pages.bytes, page.as_slice())?;
    pages.marks.push(column_mark(place, rows))
}

/// The pages of a block of 1 to 1,024 rows.
pub fn block_pages(alloc: Global, schema: &Schema, rows: &[Row]) -> Result<Pages, AllocError>
    requires fit { All (λ row. IsTrue (fits_row schema.now row)) rows.now }
    requires some { 1 ≤ length rows.now }
    requires few { length rows.now ≤ 1024 }
    ensures bytes { IfOk result (λ pages. pages.bytes.items ≡ block_body schema.now rows.now) }
    ensures marks { IfOk result (λ pages. pages.marks ≡ marks_of 0 schema.now.columns rows.now) }
    ensures short { OnOk result (length (block_body schema.now rows.now) < 2 ^ 32) }
{
    let mut pages = Pages {
        bytes: Vec::new(alloc),
        marks: Items::new(alloc),
    };
    let columns = schema.columns();
    for (i, column) in columns.iter().enumerate() {
        put_column(alloc, &mut pages, column, i, rows)?;
    }
    Ok(pages)
}
