//! What follows from the definitions of segments. Each function states laws and does nothing when
//! it is called.

ghost use Rattle.std.specs.Prelude.{◌≡◌, ◌+◌, ◌*◌, ◌/◌, ℕ, List, length, slice_get, None, Some};
ghost use Rattle.std.specs.List.{flat_map};
ghost use Rattle.pk_values.specs.Schemas.{Layout, schema_fault};
ghost use Rattle.pk_values.specs.declared.cells.Value.{Value};
ghost use Rattle.column_page.specs.FooterReading.{IsSegmentFooter};
ghost use Rattle.segment_form.specs.Segments.{blocks_of, AreSegmentRows, footer_of};

/// The footer of the rows of a segment is a footer that can be written and read back.
pub fn segment_footers()
    ensures { (s : Layout) (rows : List (List Value)) → schema_fault s.columns s.keys ≡ None → AreSegmentRows s rows → IsSegmentFooter (footer_of s rows) }
{}

/// Rows are in blocks of 1,024, of which the last may have fewer, in their order.
pub fn rows_in_blocks()
    ensures joined { (rows : List (List Value)) → flat_map (λ block. block) (blocks_of rows) ≡ rows }
    ensures number { (rows : List (List Value)) → length (blocks_of rows) ≡ (length rows + 1023) / 1024 }
    ensures placed { (rows block : List (List Value)) (row : List Value) (b place : ℕ) → slice_get (blocks_of rows) b ≡ Some block → slice_get block place ≡ Some row
        → slice_get rows (b * 1024 + place) ≡ Some row }
{}
