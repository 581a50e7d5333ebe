//! What follows from the definitions of segments and their files. Each function states laws and
//! does nothing when it is called.

ghost use Rattle.std.specs.Prelude.{◌≡◌, ℕ, List, Some, slice_get};
ghost use Rattle.pk_values.specs.Schemas.{Layout};
ghost use Rattle.pk_values.specs.declared.cells.Value.{Value};
ghost use Rattle.column_page.specs.FooterReading.{IsSegmentFooter};
ghost use Rattle.column_page.specs.declared.footers.BlockMark.{BlockMark};
ghost use Rattle.segment_form.specs.Segments.{block_marks, blocks_of, footer_of, segment_file, AreSegmentRows};
ghost use Rattle.segment_read.specs.Blocks.{AreBlockRows};
ghost use Rattle.segment_read.specs.Footers.{HasFooter};
ghost use Rattle.segment_read.specs.Reads.{block_in, OfBlock};

/// The file of a segment's rows has the footer of these rows, and each of its blocks is that of its rows.
pub fn intact_files()
    ensures footer { (s : Layout) (rows : List (List Value)) → IsSegmentFooter (footer_of s rows) → HasFooter s (footer_of s rows) (segment_file s rows) }
    ensures blocks { (s : Layout) (rows block : List (List Value)) (b : ℕ) → AreSegmentRows s rows → slice_get (blocks_of rows) b ≡ Some block
        → OfBlock (footer_of s rows) b (λ mark. AreBlockRows s mark (block_in (segment_file s rows) mark) block) }
{}
