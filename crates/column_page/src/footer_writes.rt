ghost use Rattle.std.specs.Prelude.{◌≡◌, ◌<◌, ◌^◌, ◌++◌, OnOk, IfOk, IsTrue, length};
ghost use Rattle.std.specs.List.{flat_map};
ghost use Rattle.column_page.specs.FooterReading.{IsSegmentFooter};
ghost use Rattle.column_page.specs.Footers.{block_bytes, footer_body, footer_bytes, mark_bytes, span_bytes, u32_bytes, u64_bytes, wide_bytes};

use crate::footers::{BlockMark, ColumnMark, Footer, FooterFields, Span};
use byteorder::{BigEndian, ByteOrder};
use fixed_code::put;
use pk_values::Octets;
use sha2::{Digest, Sha256};
use std::alloc::{AllocError, Global};

/// Appends a number in four bytes, the high one first.
#[tactic(auto, unfolding(crate::specs::Footers::u32_bytes))]
pub fn put_u32(out: &mut Vec<u8>, number: u32) -> Result<(), AllocError>
    ensures { OnOk result (out.new.items ≡ out.old.items ++ u32_bytes number) }
{
    let mut bytes = [0; 4];
    BigEndian::write_u32(&mut bytes, number);
    out.extend_from_slice(&bytes)
}

#[tactic(auto, unfolding(crate::specs::Footers::u64_bytes))]
fn put_u64(out: &mut Vec<u8>, number: u64) -> Result<(), AllocError>
    ensures { OnOk result (out.new.items ≡ out.old.items ++ u64_bytes number) }
{
    let mut bytes = [0; 8];
    BigEndian::write_u64(&mut bytes, number);
    out.extend_from_slice(&bytes)
}

#[tactic(auto, unfolding(crate::specs::Footers::wide_bytes))]
fn put_wide(out: &mut Vec<u8>, number: i128) -> Result<(), AllocError>
    ensures { OnOk result (out.new.items ≡ out.old.items ++ wide_bytes number) }
{
    out.extend_from_slice(&put::<16>(number))
}

fn put_span(out: &mut Vec<u8>, span: Option<Span>) -> Result<(), AllocError>
    ensures { OnOk result (out.new.items ≡ out.old.items ++ span_bytes span) }
{
    match span {
        Some(Span { least, greatest }) => {
            out.push(1)?;
            put_wide(out, least)?;
            put_wide(out, greatest)
        }
        None => Ok(out.push(0)?),
    }
}

fn put_mark(out: &mut Vec<u8>, mark: ColumnMark) -> Result<(), AllocError>
    ensures { OnOk result (out.new.items ≡ out.old.items ++ mark_bytes mark) }
{
    out.push(u8::from(mark.nulls))?;
    put_span(out, mark.span)
}

fn put_marks(out: &mut Vec<u8>, marks: &[ColumnMark]) -> Result<(), AllocError>
    ensures { OnOk result (out.new.items ≡ out.old.items ++ flat_map mark_bytes marks.now) }
{
    for mark in marks {
        put_mark(out, *mark)?;
    }
    Ok(())
}

fn put_block(out: &mut Vec<u8>, block: &BlockMark) -> Result<(), AllocError>
    ensures { OnOk result (out.new.items ≡ out.old.items ++ block_bytes block.now) }
{
    put_u64(out, block.place)?;
    put_u32(out, block.length)?;
    put_u32(out, block.rows)?;
    put_marks(out, block.marks.as_slice())
}

fn put_blocks(out: &mut Vec<u8>, blocks: &[BlockMark]) -> Result<(), AllocError>
    ensures { OnOk result (out.new.items ≡ out.old.items ++ flat_map block_bytes blocks.now) }
{
    for block in blocks {
        put_block(out, block)?;
    }
    Ok(())
}

/// Appends the bytes of a footer without its digest.
pub fn put_body(out: &mut Vec<u8>, footer: &FooterFields) -> Result<(), AllocError>
    requires { length footer.now.blocks < 2 ^ 32 }
    ensures { OnOk result (out.new.items ≡ out.old.items ++ footer_body footer.now) }
{
    out.extend_from_slice(b"PKSG\x01")?;
    put_u32(out, footer.columns)?;
    put_u32(out, footer.rows)?;
    put_u32(out, footer.blocks.as_slice().len() as u32)?;
    put_blocks(out, footer.blocks.as_slice())
}

/// The bytes of a footer: `PKSG`, `01`, the numbers of columns, rows and blocks in four bytes each,
/// for each block its place in eight bytes, its length without its digest and its rows in four bytes
/// each and its column marks, and the SHA-256 digest of all that. A column mark is `01` where some
/// cell is NULL and else `00`, and then `01`, the least and the greatest, or `00` where there are
/// none. Each of these two has the 16 bytes of a LARGEINT in a page.
pub fn write_footer(alloc: Global, footer: &Footer) -> Result<Octets, AllocError>
    ensures bytes { IfOk result (λ bytes. bytes ≡ footer_bytes footer.now) }
    ensures valid { IsSegmentFooter footer.now }
{
    let mut out = Vec::new(alloc);
    put_body(&mut out, footer.fields())?;
    let digest: [u8; 32] = Sha256::digest(out.as_slice());
    out.extend_from_slice(&digest)?;
    Octets::from_vec(alloc, out)
}
