ghost use Rattle.std.specs.Prelude.{◌≡◌, ◌≤◌, ◌<◌, ◌^◌, All, List, IfErr, IfNone, IfOk, IfSome, IsTrue, ◌↔◌, Some, length, map, slice_get};
ghost use Rattle.pk_values.specs.Schemas.{is_kind};
ghost use Rattle.pk_values.specs.declared.cells.Value.{Value};
ghost use Rattle.column_page.specs.CellBytes.{cell_bytes};
ghost use Rattle.column_page.specs.Page.{column_cells, page, page_of, plain, shorter, AllFit, Cell};
ghost use Rattle.column_page.specs.Texts.{lent, AreTexts, HaveTexts};
ghost use Rattle.column_page.specs.Reading.{AreCells, IsCellAt, NoCells, OnlyCells};

use crate::decode::{read_dictionary, read_plain, read_runs};
use crate::faults::PageFault;
use crate::runs::runs_within;
use crate::texts::{Texts, column_texts, pieces, texts_of};
use crate::words::dictionary_within;
use pk_values::{Column, Octets, Row, Value};
use std::alloc::{AllocError, Global};

/// Whether each cell fits the column.
pub fn all_fit(column: &Column, cells: &[Value]) -> bool
    ensures { IsTrue result ↔ AllFit column.now cells.now }
{
    cells.iter().all(|cell| column.fits(cell))
}

// The shorter of two texts, the first where they are equally long.
fn shorter_of(first: Vec<u8>, second: Option<Vec<u8>>) -> Vec<u8>
    ensures some { IfSome second (λ second. result.items ≡ shorter first.items second.items) }
    ensures none { IfNone second (result ≡ first) }
{
    match second {
        Some(second) if second.len() < first.len() => second,
        _ => first,
    }
}

// The plain form of the cells.
fn plain_page(alloc: Global, cells: &[&[u8]]) -> Result<Vec<u8>, AllocError>
    ensures { IfOk result (λ page. page.items ≡ plain (lent cells.now)) }
{
    let mut page = Vec::new(alloc);
    page.push(0)?;
    for cell in cells {
        page.extend_from_slice(cell)?;
    }
    Ok(page)
}

// The page of the cells with these bytes.
fn page_of_pieces(alloc: Global, cells: &[&[u8]]) -> Result<Vec<u8>, AllocError>
    requires { length cells.now < 2 ^ 16 }
    ensures { IfOk result (λ found. found.items ≡ page (lent cells.now)) }
{
    let plain = plain_page(alloc, cells)?;
    let runs = runs_within(alloc, cells, plain.len())?;
    let least = shorter_of(plain, runs);
    let dictionary = dictionary_within(alloc, cells, least.len())?;
    Ok(shorter_of(least, dictionary))
}

// The page of 1 to 1,024 cells with these bytes.
fn page_of_texts(alloc: Global, texts: &Texts) -> Result<Octets, AllocError>
    requires have { HaveTexts texts.now.bytes.items texts.now.lens.items }
    requires few { length texts.now.lens.items ≤ 1024 }
    ensures { IfOk result (λ found. (cells : List Cell) → AreTexts texts.now.bytes.items texts.now.lens.items cells → found ≡ page cells) }
{
    let pieces = pieces(alloc, &texts.bytes, &texts.lens)?;
    let page = page_of_pieces(alloc, &pieces)?;
    Octets::from_vec(alloc, page)
}

/// The page of 1 to 1,024 cells that fit the column: the shortest of the plain form (`00`, then each
/// cell), the run-length form (`01`, the number of runs, then each run's length and its cell) and
/// the dictionary form (`02`, the number of different cells, these cells in the order of their first
/// appearance, then each cell's place among them); between equal lengths the earlier one. Numbers
/// and places have two bytes, the high one first.
pub fn encode_page(alloc: Global, column: &Column, cells: &[Value]) -> Result<Octets, AllocError>
    requires kind { IsTrue (is_kind column.now.kind) }
    requires some { 1 ≤ length cells.now }
    requires few { length cells.now ≤ 1024 }
    requires fits { AllFit column.now cells.now }
    ensures { IfOk result (λ page. page ≡ page_of column.now cells.now) }
{
    let texts = texts_of(alloc, column, cells)?;
    page_of_texts(alloc, &texts)
}

/// The page of the cells of the column in a place, counted from 0, of 1 to 1,024 rows.
pub fn encode_column(
    alloc: Global,
    column: &Column,
    place: usize,
    rows: &[Row],
) -> Result<Octets, AllocError>
    requires kind { IsTrue (is_kind column.now.kind) }
    requires some { 1 ≤ length rows.now }
    requires few { length rows.now ≤ 1024 }
    requires there { All (λ row. place < length row) rows.now }
    requires fits { AllFit column.now (column_cells place rows.now) }
    ensures { IfOk result (λ page. page ≡ page_of column.now (column_cells place rows.now)) }
{
    let texts = column_texts(alloc, column, place, rows)?;
    page_of_texts(alloc, &texts)
}

// The cells that the bytes are the page of, if any cells have this page.
fn candidate(
    alloc: Global,
    column: &Column,
    count: u32,
    bytes: &[u8],
) -> Result<Vec<Value>, PageFault>
    requires { IsTrue (is_kind column.now.kind) }
    ensures fits { IfOk result (λ found. AllFit column.now found.items) }
    ensures only { IfOk result (λ found. OnlyCells column.now count page bytes.now found.items) }
    ensures none { IfErr result (λ e. e ≡ PageFault.NotAPage → NoCells column.now count page bytes.now) }
{
    match bytes {
        [0, body @ ..] => {
            let cells = read_plain(alloc, column, count, body)?;
            Ok(cells)
        }
        [1, body @ ..] => {
            let cells = read_runs(alloc, column, count, body)?;
            Ok(cells)
        }
        [2, body @ ..] => {
            let cells = read_dictionary(alloc, column, count, body)?;
            Ok(cells)
        }
        _ => Err(PageFault::NotAPage),
    }
}

// Whether cells have this page.
fn has_page(
    alloc: Global,
    column: &Column,
    cells: &[Value],
    bytes: &[u8],
) -> Result<bool, PageFault>
    requires kind { IsTrue (is_kind column.now.kind) }
    requires some { 1 ≤ length cells.now }
    requires few { length cells.now ≤ 1024 }
    requires fits { AllFit column.now cells.now }
    ensures same { IfOk result (λ same. IsTrue same ↔ (page_of column.now cells.now ≡ bytes.now)) }
    ensures memory { IfErr result (λ e. e ≡ PageFault.Memory) }
{
    match encode_page(alloc, column, cells) {
        Ok(page) => Ok(page.as_slice() == bytes),
        Err(_) => Err(PageFault::Memory),
    }
}

/// The cells of the column that have this page, of which there are `count`.
///
/// # Errors
/// `NotAPage` exactly where no `count` fitting cells, 1 to 1,024 of them, have this page; `Memory`.
pub fn decode_page(
    alloc: Global,
    column: &Column,
    count: u32,
    bytes: &[u8],
) -> Result<Vec<Value>, PageFault>
    requires { IsTrue (is_kind column.now.kind) }
    ensures cells { IfOk result (λ found. AreCells column.now count found.items) }
    ensures page { IfOk result (λ found. page_of column.now found.items ≡ bytes.now) }

    // No other cells have it.
    ensures only { IfOk result (λ found. OnlyCells column.now count page bytes.now found.items) }
    ensures none { IfErr result (λ e. e ≡ PageFault.NotAPage → NoCells column.now count page bytes.now) }
{
    if count == 0 || count > 1024 {
        return Err(PageFault::NotAPage);
    }
    let found = candidate(alloc, column, count, bytes)?;
    if found.len() != count as usize {
        return Err(PageFault::NotAPage);
    }
    if has_page(alloc, column, &found, bytes)? {
        Ok(found)
    } else {
        Err(PageFault::NotAPage)
    }
}

// The value in a place.
fn take_value(mut values: Vec<Value>, place: usize) -> Value
    requires { place < length values.items }
    ensures { slice_get values.items place ≡ Some result }
{
    values.swap_remove(place)
}

/// The cell in a place, counted from 0, of the cells of the column that have this page, of which
/// there are `count`.
///
/// # Errors
/// Those of `decode_page`: all of the page is looked at.
pub fn decode_cell(
    alloc: Global,
    column: &Column,
    count: u32,
    bytes: &[u8],
    place: u32,
) -> Result<Value, PageFault>
    requires kind { IsTrue (is_kind column.now.kind) }
    requires there { place < count }
    ensures cell { IfOk result (λ cell. IsCellAt column.now count bytes.now place cell) }

    // All cells that have this page have it there.
    ensures only { IfOk result (λ cell. (cells : List Value) → AreCells column.now count cells → page_of column.now cells ≡ bytes.now → slice_get cells place ≡ Some cell) }
    ensures none { IfErr result (λ e. e ≡ PageFault.NotAPage → NoCells column.now count page bytes.now) }
{
    let cells = decode_page(alloc, column, count, bytes)?;
    Ok(take_value(cells, place as usize))
}
