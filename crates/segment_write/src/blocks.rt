ghost use Rattle.std.specs.Prelude.{◌≡◌, ◌<◌, ◌≤◌, ◌+◌, ◌*◌, ◌^◌, All, IsTrue, IfOk, OnOk, length};
ghost use Rattle.std.specs.List.{flat_map};
ghost use Rattle.pk_values.specs.Schemas.{fits_row};
ghost use Rattle.segment_form.specs.Segments.{block_body, block_file, block_mark, block_marks, blocks_of};
ghost use Rattle.segment_write.specs.Making.{Adds, MakeStep};

use crate::pages::{Pages, block_pages};
use column_page::BlockMark;
use dev_traits::{FileMaker, MakeFault};
use pk_values::{Items, Row, Schema};
use sha2::{Digest, Sha256};
use std::alloc::{AllocError, Global};

/// How many rows a block has, but for the last one.
const BLOCK_ROWS: usize = 1024;

/// The bytes of a block, with its digest, and what the footer tells of it.
#[derive(Drop)]
struct Block {
    bytes: Vec<u8>,
    mark: BlockMark,
}

// The block of 1 to 1,024 rows at a place of the file.
fn block_of(alloc: Global, schema: &Schema, place: u64, rows: &[Row]) -> Result<Block, AllocError>
    requires fit { All (λ row. IsTrue (fits_row schema.now row)) rows.now }
    requires some { 1 ≤ length rows.now }
    requires few { length rows.now ≤ 1024 }
    ensures bytes { IfOk result (λ block. block.bytes.items ≡ block_file schema.now rows.now) }
    ensures mark { IfOk result (λ block. block.mark ≡ block_mark schema.now place rows.now) }
    ensures short { OnOk result (length (block_body schema.now rows.now) < 2 ^ 32) }
{
    let Pages { mut bytes, marks } = block_pages(alloc, schema, rows)?;
    let length = bytes.len() as u32;
    let digest: [u8; 32] = Sha256::digest(bytes.as_slice());
    bytes.extend_from_slice(&digest)?;
    let mark = BlockMark {
        place,
        length,
        rows: rows.len() as u32,
        marks,
    };
    Ok(Block { bytes, mark })
}

// Adds the block of 1 to 1,024 rows to the file, and answers its mark.
fn put_block<M: FileMaker>(
    alloc: Global,
    maker: &mut M,
    schema: &Schema,
    place: u64,
    rows: &[Row],
) -> Result<BlockMark, MakeFault>
    requires started { IsTrue (M.view maker.old).is_started }
    requires fit { All (λ row. IsTrue (fits_row schema.now row)) rows.now }
    requires some { 1 ≤ length rows.now }
    requires few { length rows.now ≤ 1024 }
    ensures added { OnOk result (Adds (block_file schema.now rows.now) (M.view maker.old) (M.view maker.new)) }
    ensures mark { IfOk result (λ mark. mark ≡ block_mark schema.now place rows.now) }
    ensures short { OnOk result (length (block_body schema.now rows.now) < 2 ^ 32) }
    ensures step { MakeStep (M.view maker.old) (M.view maker.new) result }
{
    let Block { bytes, mark } = block_of(alloc, schema, place, rows)?;
    maker.add(&bytes)?;
    Ok(mark)
}

/// Adds the blocks of 1 to 65,536 rows to the file, and answers their marks.
pub fn put_blocks<M: FileMaker>(
    alloc: Global,
    maker: &mut M,
    schema: &Schema,
    rows: &[Row],
) -> Result<Items<BlockMark>, MakeFault>
    requires started { IsTrue (M.view maker.old).is_started }
    requires fit { All (λ row. IsTrue (fits_row schema.now row)) rows.now }
    requires few { length rows.now ≤ 65536 }
    ensures added { OnOk result (Adds (flat_map (block_file schema.now) (blocks_of rows.now)) (M.view maker.old) (M.view maker.new)) }
    ensures marks { IfOk result (λ marks. marks ≡ block_marks schema.now 0 (blocks_of rows.now)) }
    ensures step { MakeStep (M.view maker.old) (M.view maker.new) result }
{
    let mut marks = Items::with_capacity(alloc, rows.len().div_ceil(BLOCK_ROWS))?;
    let mut place = 0;
    for block in rows.chunks(BLOCK_ROWS) {
        let mark = put_block(alloc, maker, schema, place, block)?;
        place += u64::from(mark.length) + 32;
        marks.push(mark)?;
    }
    Ok(marks)
}
