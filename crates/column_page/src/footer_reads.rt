ghost use Rattle.std.specs.Prelude.{◌≡◌, ◌≢◌, ◌+◌, ◌≤◌, ◌<◌, ◌^◌, ◌∷◌, [], ◌++◌, All, OnOk, List, ℕ, IfErr, IfNone, IfOk, IfSome, OnErr, length, take, drop};
ghost use Rattle.std.specs.List.{flat_map};
ghost use Rattle.fixed_code.specs.NumberCode.{FitsBytes};
ghost use Rattle.column_page.specs.declared.footers.Span.{Span};
ghost use Rattle.column_page.specs.declared.footers.ColumnMark.{ColumnMark};
ghost use Rattle.column_page.specs.declared.footers.BlockMark.{BlockMark};
ghost use Rattle.column_page.specs.declared.footers.FooterFields.{FooterFields};
ghost use Rattle.column_page.specs.Footers.{block_bytes, footer_body, footer_fields, mark_bytes, u32_bytes, u64_bytes, wide_bytes};
ghost use Rattle.column_page.specs.FooterReading.{BlockFits, FooterFits, MarkFits, SequenceThen, SpanFits};

use crate::faults::FooterFault;
use crate::footers::{BlockMark, ColumnMark, FooterFields, Span};
use byteorder::{BigEndian, ByteOrder};
use fixed_code::get;
use pk_values::Items;
use std::alloc::Global;

#[derive(Drop)]
struct ReadMark {
    mark: ColumnMark,
    len: usize,
}

#[derive(Drop)]
struct ReadMarks {
    marks: Vec<ColumnMark>,
    len: usize,
}

#[derive(Drop)]
struct ReadBlock {
    block: BlockMark,
    len: usize,
}

#[tactic(auto, unfolding(crate::specs::Footers::u32_bytes))]
fn read_u32(bytes: &[u8]) -> Result<u32, FooterFault>
    ensures some { IfOk result (λ n. (n < 2 ^ 32) × (4 ≤ length bytes.now) × (take 4 bytes.now ≡ u32_bytes n)) }
    ensures none { OnErr result (length bytes.now < 4) }
{
    if bytes.len() < 4 {
        return Err(FooterFault::NotAFooter);
    }
    Ok(BigEndian::read_u32(bytes))
}

#[tactic(auto, unfolding(crate::specs::Footers::u64_bytes))]
fn read_u64(bytes: &[u8]) -> Result<u64, FooterFault>
    ensures some { IfOk result (λ n. (n < 2 ^ 64) × (8 ≤ length bytes.now) × (take 8 bytes.now ≡ u64_bytes n)) }
    ensures none { OnErr result (length bytes.now < 8) }
{
    if bytes.len() < 8 {
        return Err(FooterFault::NotAFooter);
    }
    Ok(BigEndian::read_u64(bytes))
}

#[tactic(auto, unfolding(crate::specs::Footers::wide_bytes))]
fn read_wide(bytes: &[u8]) -> Result<i128, FooterFault>
    ensures some { IfOk result (λ z. FitsBytes 16 z × (16 ≤ length bytes.now) × (take 16 bytes.now ≡ wide_bytes z)) }
    ensures none { OnErr result (length bytes.now < 16) }
{
    match bytes.first_chunk::<16>() {
        Some(code) => Ok(get::<16>(*code)),
        None => Err(FooterFault::NotAFooter),
    }
}

fn read_span(bytes: &[u8]) -> Result<Span, FooterFault>
    ensures fit { IfOk result (λ s. SpanFits s) }
    ensures within { OnOk result (32 ≤ length bytes.now) }
    ensures only { IfOk result (λ s. (t : Span) (rest : List ℕ) → SpanFits t → wide_bytes t.least ++ (wide_bytes t.greatest ++ rest) ≡ bytes.now → (s ≡ t) × (drop 32 bytes.now ≡ rest)) }
    ensures none { OnErr result ((t : Span) (rest : List ℕ) → SpanFits t → wide_bytes t.least ++ (wide_bytes t.greatest ++ rest) ≡ bytes.now → ⊥) }
{
    let least = read_wide(bytes)?;
    let greatest = read_wide(&bytes[16..])?;
    Ok(Span { least, greatest })
}

fn read_mark(bytes: &[u8]) -> Result<ReadMark, FooterFault>
    ensures fit { IfOk result (λ read. MarkFits read.mark) }
    ensures within { IfOk result (λ read. read.len ≤ length bytes.now) }
    ensures only { IfOk result (λ read. (m : ColumnMark) (rest : List ℕ) → MarkFits m → mark_bytes m ++ rest ≡ bytes.now → (read.mark ≡ m) × (drop read.len bytes.now ≡ rest)) }
    ensures none { IfErr result (λ e. e ≡ FooterFault.NotAFooter → (m : ColumnMark) (rest : List ℕ) → MarkFits m → mark_bytes m ++ rest ≡ bytes.now → ⊥) }
{
    let nulls = match bytes {
        [0, ..] => false,
        [1, ..] => true,
        _ => return Err(FooterFault::NotAFooter),
    };
    match bytes {
        [_, 0, ..] => Ok(ReadMark {
            mark: ColumnMark { nulls, span: None },
            len: 2,
        }),
        [_, 1, numbers @ ..] => {
            let span = read_span(numbers)?;
            Ok(ReadMark {
                mark: ColumnMark {
                    nulls,
                    span: Some(span),
                },
                len: 34,
            })
        }
        _ => Err(FooterFault::NotAFooter),
    }
}

fn push_mark(marks: &mut Vec<ColumnMark>, mark: ColumnMark) -> Result<(), FooterFault>
    ensures pushed { OnOk result (marks.new.items ≡ marks.old.items ++ mark ∷ []) }
    ensures memory { IfErr result (λ e. e ≡ FooterFault.Memory) }
{
    match marks.push(mark) {
        Ok(()) => Ok(()),
        Err(_) => Err(FooterFault::Memory),
    }
}

fn read_marks(alloc: Global, count: u32, bytes: &[u8]) -> Result<ReadMarks, FooterFault>
    ensures fit { IfOk result (λ read. All MarkFits read.marks.items) }
    ensures number { IfOk result (λ read. length read.marks.items ≡ count) }
    ensures within { IfOk result (λ read. read.len ≤ length bytes.now) }
    ensures only { IfOk result (λ read. (marks : List ColumnMark) (rest : List ℕ) → SequenceThen MarkFits mark_bytes count bytes.now marks rest → (read.marks.items ≡ marks) × (drop read.len bytes.now ≡ rest)) }
    ensures none { IfErr result (λ e. e ≡ FooterFault.NotAFooter → (marks : List ColumnMark) (rest : List ℕ) → SequenceThen MarkFits mark_bytes count bytes.now marks rest → ⊥) }
{
    let mut marks = Vec::new(alloc);
    let mut at = 0;
    for i in 0..count {
        let read = read_mark(&bytes[at..])?;
        push_mark(&mut marks, read.mark)?;
        at += read.len;
    }
    Ok(ReadMarks { marks, len: at })
}

fn read_block(alloc: Global, columns: u32, bytes: &[u8]) -> Result<ReadBlock, FooterFault>
    ensures fit { IfOk result (λ read. BlockFits columns read.block) }
    ensures within { IfOk result (λ read. read.len ≤ length bytes.now) }
    ensures only { IfOk result (λ read. (b : BlockMark) (rest : List ℕ) → BlockFits columns b → block_bytes b ++ rest ≡ bytes.now → (read.block ≡ b) × (drop read.len bytes.now ≡ rest)) }
    ensures none { IfErr result (λ e. e ≡ FooterFault.NotAFooter → (b : BlockMark) (rest : List ℕ) → BlockFits columns b → block_bytes b ++ rest ≡ bytes.now → ⊥) }
{
    let place = read_u64(bytes)?;
    let length = read_u32(&bytes[8..])?;
    let rows = read_u32(&bytes[12..])?;
    let read = read_marks(alloc, columns, &bytes[16..])?;
    let len = read.len + 16;
    let marks = Items::from_vec(read.marks);
    Ok(ReadBlock {
        block: BlockMark {
            place,
            length,
            rows,
            marks,
        },
        len,
    })
}

fn push_block(blocks: &mut Vec<BlockMark>, block: BlockMark) -> Result<(), FooterFault>
    ensures pushed { OnOk result (blocks.new.items ≡ blocks.old.items ++ block ∷ []) }
    ensures memory { IfErr result (λ e. e ≡ FooterFault.Memory) }
{
    match blocks.push(block) {
        Ok(()) => Ok(()),
        Err(_) => Err(FooterFault::Memory),
    }
}

fn read_blocks(
    alloc: Global,
    columns: u32,
    count: u32,
    bytes: &[u8],
) -> Result<Vec<BlockMark>, FooterFault>
    ensures fit { IfOk result (λ blocks. All (BlockFits columns) blocks.items) }
    ensures number { IfOk result (λ blocks. length blocks.items ≡ count) }
    ensures only { IfOk result (λ found. (blocks : List BlockMark) (rest : List ℕ) → SequenceThen (BlockFits columns) block_bytes count bytes.now blocks rest → found.items ≡ blocks) }
    ensures none { IfErr result (λ e. e ≡ FooterFault.NotAFooter → (blocks : List BlockMark) (rest : List ℕ) → SequenceThen (BlockFits columns) block_bytes count bytes.now blocks rest → ⊥) }
{
    let mut blocks = Vec::new(alloc);
    let mut at = 0;
    for i in 0..count {
        let read = read_block(alloc, columns, &bytes[at..])?;
        let len = read.len;
        push_block(&mut blocks, read.block)?;
        at += len;
    }
    Ok(blocks)
}

// The footer whose numbers and blocks stand at the front of the bytes.
fn read_fields(alloc: Global, bytes: &[u8]) -> Result<FooterFields, FooterFault>
    ensures fit { IfOk result (λ found. FooterFits found) }
    ensures only { IfOk result (λ found. (f : FooterFields) (rest : List ℕ) → FooterFits f → footer_fields f ++ rest ≡ bytes.now → found ≡ f) }
    ensures none { IfErr result (λ e. e ≡ FooterFault.NotAFooter → (f : FooterFields) (rest : List ℕ) → FooterFits f → footer_fields f ++ rest ≡ bytes.now → ⊥) }
{
    let columns = read_u32(bytes)?;
    let rows = read_u32(&bytes[4..])?;
    let count = read_u32(&bytes[8..])?;
    let found = read_blocks(alloc, columns, count, &bytes[12..])?;
    let blocks = Items::from_vec(found);
    Ok(FooterFields {
        columns,
        rows,
        blocks,
    })
}

// What stands behind `PKSG` and the form 1.
fn behind_form(bytes: &[u8]) -> Option<&[u8]>
    ensures some { IfSome result (λ fields. bytes.now ≡ 80 ∷ 75 ∷ 83 ∷ 71 ∷ 1 ∷ fields.now) }
    ensures none { IfNone result ((fields : List ℕ) → bytes.now ≢ 80 ∷ 75 ∷ 83 ∷ 71 ∷ 1 ∷ fields) }
{
    bytes.strip_prefix(b"PKSG\x01")
}

/// The one footer whose bytes without the digest these can be, whether or not they are.
pub fn only_footer(alloc: Global, body: &[u8]) -> Result<FooterFields, FooterFault>
    ensures fit { IfOk result (λ found. FooterFits found) }
    ensures only { IfOk result (λ found. (f : FooterFields) → FooterFits f → footer_body f ≡ body.now → found ≡ f) }
    ensures none { IfErr result (λ e. e ≡ FooterFault.NotAFooter → (f : FooterFields) → FooterFits f → footer_body f ≡ body.now → ⊥) }
{
    let Some(fields) = behind_form(body) else {
        return Err(FooterFault::NotAFooter);
    };
    let footer = read_fields(alloc, fields)?;
    Ok(footer)
}
