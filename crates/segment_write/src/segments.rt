ghost use Rattle.std.specs.Prelude.{◌≡◌, ℕ, List, Some, IfOk, OnOk, IsFalse, is_some};
ghost use Rattle.segment_form.specs.Segments.{AreSegmentRows, block_marks, blocks_of, footer_of, segment_file, tail_of, EndsWith};
ghost use Rattle.dev_traits.specs.Causes.{HasMakeCause};

use crate::blocks::put_blocks;
use column_page::{BlockMark, Footer, FooterFields, put_u32, write_footer};
use dev_traits::{FileMaker, MakeFault};
use pk_values::{Items, Row, Schema};
use std::alloc::{AllocError, Global};

/// A segment that a maker made.
#[derive(Drop)]
pub struct Made<M: FileMaker> {
    /// The whole file, which a store adopts.
    pub sealed: M::Sealed,
    /// The footer that stands in the file.
    pub footer: Footer,
    ghost ends: { (file : List ℕ) → M.sealed_bytes sealed ≡ Some file → EndsWith footer file },
}

// The footer of the rows of a segment, whose blocks have these marks.
fn footer_of(
    alloc: Global,
    schema: &Schema,
    rows: &[Row],
    blocks: Items<BlockMark>,
) -> Result<Footer, AllocError>
    requires rows { AreSegmentRows schema.now rows.now }
    requires marks { blocks ≡ block_marks schema.now 0 (blocks_of rows.now) }
    ensures { IfOk result (λ footer. footer ≡ footer_of schema.now rows.now) }
{
    let columns = schema.columns();
    Footer::new(
        alloc,
        FooterFields {
            columns: columns.len() as u32,
            rows: rows.len() as u32,
            blocks,
        },
    )
}

// The bytes of a footer and their number.
fn tail(alloc: Global, footer: &Footer) -> Result<Vec<u8>, AllocError>
    ensures { IfOk result (λ tail. tail.items ≡ tail_of footer.now) }
{
    let mut tail = write_footer(alloc, footer)?.into_vec(alloc)?;
    let length = tail.len() as u32;
    put_u32(&mut tail, length)?;
    Ok(tail)
}

/// Makes a file of the segment of these rows: blocks of 1,024 rows, the last one of 1 to 1,024, and
/// the footer with its length. A block has a page for each column in the order of the schema, each
/// behind its length in four bytes, and then the SHA-256 digest of all that. A file that the maker
/// had begun is dropped.
///
/// # Errors
/// `StoreFault` exactly where the maker failed, which it counted once. `Memory` where this call or
/// the maker wants memory; nothing is counted then. After an error the maker may hold a part of the
/// file: its next `start`, with which each call of this begins, drops that.
pub fn write_segment<M: FileMaker>(
    alloc: Global,
    maker: &mut M,
    schema: &Schema,
    rows: &[Row],
) -> Result<Made<M>, MakeFault>
    requires { AreSegmentRows schema.now rows.now }
    ensures footer { IfOk result (λ made. made.footer ≡ footer_of schema.now rows.now) }
    ensures sealed { IfOk result (λ made. (bytes : List ℕ) → M.sealed_bytes made.sealed ≡ Some bytes
        → bytes ≡ segment_file schema.now rows.now) }

    // Where the maker tells its bytes, so does the file.
    ensures told { IfOk result (λ made. is_some (M.sealed_bytes made.sealed) ≡ is_some (M.view maker.old).made) }

    // The maker has no file under way.
    ensures closed { OnOk result (IsFalse (M.view maker.new).is_started) }

    ensures tells { is_some (M.view maker.new).made ≡ is_some (M.view maker.old).made }
    ensures cause { HasMakeCause (M.view maker.old).faults (M.view maker.new).faults result }
{
    maker.start()?;
    let marks = put_blocks(alloc, maker, schema, rows)?;
    let footer = footer_of(alloc, schema, rows, marks)?;
    let tail = tail(alloc, &footer)?;
    maker.add(&tail)?;
    let sealed = maker.seal()?;
    Ok(Made { sealed, footer })
}
