ghost use Rattle.std.specs.Prelude.{◌≡◌, ◌≤◌, length};
ghost use Rattle.std.specs.List.{list_all};
ghost use Rattle.column_page.specs.Footers.{block_fits, blocks_fit, is_footer, span_rises};

use crate::footers::{BlockMark, ColumnMark, FooterFields, Span};

fn span_rises(span: Option<Span>) -> bool
    ensures { result ≡ span_rises span }
{
    match span {
        Some(Span { least, greatest }) => least <= greatest,
        None => true,
    }
}

fn spans_rise(marks: &[ColumnMark]) -> bool
    ensures { result ≡ list_all (λ m. span_rises m.span) marks.now }
{
    marks.iter().all(|mark| span_rises(mark.span))
}

fn block_fits(columns: u32, at: u64, left: u32, block: &BlockMark) -> bool
    ensures { result ≡ block_fits columns at left block.now }
{
    block.place == at
        && block.rows >= 1
        && block.rows == left.min(1024)
        && block.marks.as_slice().len() == columns as usize
        && spans_rise(block.marks.as_slice())
}

fn blocks_fit(columns: u32, rows: u32, blocks: &[BlockMark]) -> bool
    requires { length blocks.now ≤ 64 }
    ensures { result ≡ blocks_fit columns 0 rows blocks.now }
{
    let mut at = 0;
    let mut left = rows;
    for block in blocks {
        if !block_fits(columns, at, left, block) {
            return false;
        }
        at += block.length as u64 + 32;
        left -= block.rows;
    }
    left == 0
}

/// Whether a footer of a segment has these fields: 1 to 64 columns and 1 to 65,536 rows in blocks that
/// stand without gaps, each with 1,024 rows but the last.
pub fn is_footer(footer: &FooterFields) -> bool
    ensures { result ≡ is_footer footer.now }
{
    let blocks = footer.blocks.as_slice();
    footer.columns >= 1
        && footer.columns <= 64
        && footer.rows >= 1
        && footer.rows <= 65536
        && blocks.len() <= 64
        && blocks_fit(footer.columns, footer.rows, blocks)
}
