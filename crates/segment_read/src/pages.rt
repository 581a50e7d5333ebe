ghost use Rattle.std.specs.Prelude.{◌≡◌, ◌↔◌, ◌+◌, ◌≤◌, ◌<◌, ◌^◌, ◌++◌, List, ℕ, IfErr, IfOk, IfSome, IfNone, IsTrue, length, take, drop};
ghost use Rattle.pk_values.specs.Schemas.{is_kind};
ghost use Rattle.pk_values.specs.declared.cells.Value.{Value};
ghost use Rattle.column_page.specs.Footers.{mark_of, u32_bytes};
ghost use Rattle.column_page.specs.Page.{page_of};
ghost use Rattle.column_page.specs.Reading.{AreCells};
ghost use Rattle.segment_form.specs.Segments.{sized};

use byteorder::{BigEndian, ByteOrder};
use column_page::{ColumnMark, PageFault, decode_page, mark_of};
use pk_values::{Column, Value};
use std::alloc::Global;

/// The cells of a page, and how many bytes it took with its length.
#[derive(Drop)]
pub struct ReadPage {
    pub cells: Vec<Value>,
    pub len: usize,
}

/// The number in the first four bytes, the high one first.
#[tactic(auto, unfolding(column_page::specs::Footers::u32_bytes))]
pub fn read_u32(bytes: &[u8]) -> Option<u32>
    ensures some { IfSome result (λ n. (n < 2 ^ 32) × (4 ≤ length bytes.now) × (take 4 bytes.now ≡ u32_bytes n)) }
    ensures none { IfNone result (length bytes.now < 4) }
{
    if bytes.len() < 4 {
        return None;
    }
    Some(BigEndian::read_u32(bytes))
}

// The page behind its length at the front of the bytes.
fn sized_page(bytes: &[u8]) -> Option<&[u8]>
    ensures short { IfSome result (λ page. length page.now < 2 ^ 32) }
    ensures front { IfSome result (λ page. sized page.now ++ drop (4 + length page.now) bytes.now ≡ bytes.now) }
    ensures none { IfNone result ((page rest : List ℕ) → length page < 2 ^ 32 → sized page ++ rest ≡ bytes.now → ⊥) }
{
    let size = read_u32(bytes)? as usize;
    let rest = &bytes[4..];
    if rest.len() < size {
        return None;
    }
    Some(&rest[..size])
}

fn is_same(first: ColumnMark, second: ColumnMark) -> bool
    ensures { IsTrue result ↔ (first ≡ second) }
{
    first == second
}

/// The cells of the page at the front of the bytes, behind its length, where they have this mark.
pub fn read_page(
    alloc: Global,
    column: &Column,
    count: u32,
    mark: ColumnMark,
    bytes: &[u8],
) -> Result<ReadPage, PageFault>
    requires { IsTrue (is_kind column.now.kind) }
    ensures cells { IfOk result (λ read. AreCells column.now count read.cells.items) }
    ensures marked { IfOk result (λ read. mark_of read.cells.items ≡ mark) }
    ensures within { IfOk result (λ read. read.len ≤ length bytes.now) }
    ensures front { IfOk result (λ read. sized (page_of column.now read.cells.items) ++ drop read.len bytes.now ≡ bytes.now) }
    ensures only { IfOk result (λ read. (cells : List Value) (rest : List ℕ) → AreCells column.now count cells → length (page_of column.now cells) < 2 ^ 32
        → sized (page_of column.now cells) ++ rest ≡ bytes.now → (read.cells.items ≡ cells) × (drop read.len bytes.now ≡ rest)) }
    ensures none { IfErr result (λ e. e ≡ PageFault.NotAPage → (cells : List Value) (rest : List ℕ) → AreCells column.now count cells → length (page_of column.now cells) < 2 ^ 32
        → mark_of cells ≡ mark → sized (page_of column.now cells) ++ rest ≡ bytes.now → ⊥) }
{
    let Some(page) = sized_page(bytes) else {
        return Err(PageFault::NotAPage);
    };
    let len = 4 + page.len();
    let cells = decode_page(alloc, column, count, page)?;
    if !is_same(mark_of(&cells), mark) {
        return Err(PageFault::NotAPage);
    }
    Ok(ReadPage { cells, len })
}
