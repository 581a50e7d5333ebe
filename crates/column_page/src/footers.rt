use pk_values::Items;
use std::alloc::{AllocError, Global};
use std::marker::Model;
use std::sync::Arc;

/// The least and the greatest of the cells of a block's column that are not NULL, as numbers: a
/// BOOLEAN is 0 or 1, and a DATE is its day.
#[derive(Clone, Copy, PartialEq)]
pub struct Span {
    pub least: i128,
    pub greatest: i128,
}

/// What a footer tells of a column in a block.
#[derive(Clone, Copy, PartialEq)]
pub struct ColumnMark {
    /// Whether some cell is NULL.
    pub nulls: bool,
    /// None in a VARCHAR column, and where each cell is NULL.
    pub span: Option<Span>,
}

/// What a footer tells of a block.
#[derive(Drop)]
pub struct BlockMark {
    /// The place of its first byte in the file, counted from 0.
    pub place: u64,
    /// How many bytes it has, but for the 32 of its digest.
    pub length: u32,
    /// How many rows it has.
    pub rows: u32,
    /// What is told of each column, in the order of the table.
    pub marks: Items<ColumnMark>,
}

/// What a footer tells of a segment.
#[derive(Drop)]
pub struct FooterFields {
    /// How many columns it has.
    pub columns: u32,
    /// How many rows it has.
    pub rows: u32,
    /// What is told of each block, in the order of the file.
    pub blocks: Items<BlockMark>,
}

/// The footer of a segment: 1 to 64 columns and 1 to 65,536 rows in blocks that stand without gaps,
/// each with 1,024 rows but the last.
///
/// Contracts see a footer as its fields. Copies share them.
#[derive(Drop)]
pub struct Footer {
    fields: Arc<FooterFields, Global>,
}

impl Model for Footer {
    ghost use Rattle.std.specs.Arc.{arc_value};
    ghost use Rattle.column_page.specs.declared.footers.FooterFields.{FooterFields};
    ghost use Rattle.column_page.specs.FooterReading.{IsSegmentFooter};

    ghost Value = { FooterFields };

    ghost view = { λ f. arc_value f.fields };

    ghost invariant = { λ f. IsSegmentFooter (arc_value f.fields) };
}

impl Footer {
    ghost use Rattle.std.specs.Prelude.{◌≡◌, ◌<◌, length, slice_get, IfOk};
    ghost use Rattle.column_page.specs.Footers.{mark_at, nulls_in, span_in};
    ghost use Rattle.column_page.specs.FooterReading.{IsSegmentFooter};

    /// The footer of these fields.
    pub fn new(alloc: Global, fields: FooterFields) -> Result<Footer, AllocError>
        requires { IsSegmentFooter fields }
        ensures { IfOk result (λ footer. footer ≡ fields) }
    {
        let fields = Arc::new(alloc, fields)?;
        Ok(Footer { fields })
    }

    /// What it tells. Each footer's fields are those of a segment.
    pub fn fields(&self) -> &FooterFields
        ensures fields { result.now ≡ self.now }
        ensures valid { IsSegmentFooter self.now }
    {
        &self.fields
    }

    /// How many columns there are.
    pub fn columns(&self) -> u32
        ensures { result ≡ self.now.columns }
    {
        self.fields().columns
    }

    /// How many rows there are.
    pub fn rows(&self) -> u32
        ensures { result ≡ self.now.rows }
    {
        self.fields().rows
    }

    /// How many blocks there are.
    pub fn blocks(&self) -> u32
        ensures count { result ≡ length self.now.blocks }
        ensures valid { IsSegmentFooter self.now }
    {
        self.fields().blocks.as_slice().len() as u32
    }

    /// What is told of block `b`, counted from 0.
    pub fn block(&self, b: u32) -> &BlockMark
        requires { b < length self.now.blocks }
        ensures block { slice_get self.now.blocks b ≡ Some result.now }
        ensures valid { IsSegmentFooter self.now }
    {
        &self.fields().blocks.as_slice()[b as usize]
    }

    /// The least and the greatest of the cells of a column in block `b` that aren't NULL, both
    /// counted from 0. None in a VARCHAR column, where each cell is NULL, and for a column that the
    /// file does not have.
    pub fn span(&self, b: u32, column: u32) -> Option<Span>
        requires { b < length self.now.blocks }
        ensures { result ≡ span_in (mark_at self.now b column) }
    {
        match self.block(b).marks.as_slice().get(column as usize) {
            Some(mark) => mark.span,
            None => None,
        }
    }

    /// Whether block `b` has a NULL in a column, both counted from 0; true for a column that the file
    /// does not have.
    pub fn nulls(&self, b: u32, column: u32) -> bool
        requires { b < length self.now.blocks }
        ensures { result ≡ nulls_in (mark_at self.now b column) }
    {
        match self.block(b).marks.as_slice().get(column as usize) {
            Some(mark) => mark.nulls,
            None => true,
        }
    }

    /// A footer equal to this one, which shares its fields. It takes no memory, and fails only where
    /// there are 2^63 - 1 copies.
    pub fn copy(&self) -> Result<Footer, AllocError>
        ensures { IfOk result (λ copy. copy ≡ self.now) }
    {
        let fields = Arc::try_clone(&self.fields)?;
        Ok(Footer { fields })
    }
}
