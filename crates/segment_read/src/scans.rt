ghost use Rattle.std.specs.Prelude.{◌≡◌, ◌↔◌, ◌+◌, ◌++◌, ◌<◌, ◌≤◌, ◌⊎◌, List, All, IfErr, IfOk, OnOk, IsTrue, length};
ghost use Rattle.pk_values.specs.Schemas.{fits_row};
ghost use Rattle.pk_values.specs.declared.cells.Value.{Value};
ghost use Rattle.dev_traits.specs.declared.faults.Part.TheVariants as part;
ghost use Rattle.dev_traits.specs.declared.faults.ReadFault.TheVariants as read;
ghost use Rattle.segment_form.specs.Segments.{KeysRise};
ghost use Rattle.segment_read.specs.Blocks.{AreTheRows, BlockShown};
ghost use Rattle.segment_read.specs.Reads.{block_in, IsDamage, KnowsFooter, OfBlock, OnDamage, Reading, OfFile};
ghost use Rattle.segment_read.specs.Rows.{AreRowsBefore, FallsBack, IsNoSegment, IsRowsDamage, IsSegmentOf};

use crate::faults::{PartFault, fault_of};
use crate::segments::{Segment, block};
use dev_traits::{Part, ReadFault, SealedReader, Shown};
use pk_values::{Row, Schema};
use segment_form::is_below;
use std::alloc::Global;

// Whether the keys of rows that rise still do with other rows behind them.
fn rise_on(schema: &Schema, rows: &[Row], next: &[Row]) -> bool
    requires rows_fit { All (λ row. IsTrue (fits_row schema.now row)) rows.now }
    requires next_fit { All (λ row. IsTrue (fits_row schema.now row)) next.now }
    requires rows_rise { KeysRise schema.now rows.now }
    requires next_rise { KeysRise schema.now next.now }
    ensures { IsTrue result ↔ KeysRise schema.now (rows.now ++ next.now) }
{
    if rows.is_empty() || next.is_empty() {
        return true;
    }
    is_below(schema, &rows[rows.len() - 1], &next[0])
}

// Moves rows behind others.
fn add_rows(rows: &mut Vec<Row>, mut next: Vec<Row>) -> Result<(), ReadFault>
    ensures added { OnOk result (rows.new.items ≡ rows.old.items ++ next.items) }
    ensures memory { IfErr result (λ e. e ≡ read.Memory) }
{
    match rows.append(&mut next) {
        Ok(()) => Ok(()),
        Err(_) => Err(ReadFault::Memory),
    }
}

// Puts the rows of a block behind those of the blocks before it.
fn add_block<R: SealedReader>(
    alloc: Global,
    schema: &Schema,
    segment: &mut Segment<R>,
    b: u32,
    rows: &mut Vec<Row>,
) -> Result<(), ReadFault>
    requires footer { KnowsFooter schema.now (R.view segment.old.reader) segment.old.footer }
    requires there { b < length segment.old.footer.blocks }
    requires fit { All (λ row. IsTrue (fits_row schema.now row)) rows.old.items }
    requires rise { KeysRise schema.now rows.old.items }
    ensures fit { OnOk result (All (λ row. IsTrue (fits_row schema.now row)) rows.new.items) }
    ensures rise { OnOk result (KeysRise schema.now rows.new.items) }
    ensures added { OnOk result (OfFile (R.view segment.old.reader) (λ file. OfBlock segment.old.footer b (λ mark.
        (next : List (List Value)) × AreTheRows schema.now mark (block_in file mark) next × (rows.new.items ≡ rows.old.items ++ next)))) }
    ensures count { OnOk result (OfBlock segment.old.footer b (λ mark. length rows.new.items ≡ length rows.old.items + mark.rows)) }
    ensures damaged { IfErr result (λ e. OnDamage e (IsDamage segment.old.number (part.Block b) (λ shown.
        OfFile (R.view segment.old.reader) (λ file. OfBlock segment.old.footer b (λ mark.
        BlockShown schema.now mark (block_in file mark) shown ⊎ FallsBack schema.now (block_in file mark) mark rows.old.items shown))))) }
    ensures reading { Reading 1 (R.view segment.old.reader) (R.view segment.new.reader) result }
    ensures number { segment.new.number ≡ segment.old.number }
    ensures kept { segment.new.footer ≡ segment.old.footer }
    ensures known { KnowsFooter schema.now (R.view segment.new.reader) segment.new.footer }
{
    let next = block(alloc, schema, segment, b)?;
    if !rise_on(schema, rows, &next) {
        let fault = PartFault::Damaged(Shown::Form);
        return Err(fault_of(segment.number, Part::Block(b), fault));
    }
    add_rows(rows, next)
}

/// All rows, in the order of their keys, by one read for each block.
///
/// # Errors
/// `Damaged` tells the first block that is damaged, as `block` does, or that has a key that isn't
/// above all keys of the blocks before it: that is `Form`. `StoreFault` where the reader counted a
/// fault; `Memory`.
pub fn rows_of<R: SealedReader>(
    alloc: Global,
    schema: &Schema,
    segment: &mut Segment<R>,
) -> Result<Vec<Row>, ReadFault>
    requires { KnowsFooter schema.now (R.view segment.old.reader) segment.old.footer }
    ensures rows { IfOk result (λ rows. OfFile (R.view segment.old.reader) (λ file. AreRowsBefore schema.now segment.old.footer file (length segment.old.footer.blocks) rows.items)) }
    ensures segment { IfOk result (λ rows. OfFile (R.view segment.old.reader) (λ file. IsSegmentOf schema.now segment.old.footer file rows.items)) }

    // Of the file of a segment, the segment's rows.
    ensures of_segment { IfOk result (λ found. OfFile (R.view segment.old.reader) (λ file. (rows : List (List Value)) → IsSegmentOf schema.now segment.old.footer file rows
        → found.items ≡ rows)) }

    // As many as the footer tells, whatever the reader tells.
    ensures count { IfOk result (λ rows. length rows.items ≡ segment.old.footer.rows) }
    ensures fit { IfOk result (λ rows. All (λ row. IsTrue (fits_row schema.now row)) rows.items) }
    ensures rise { IfOk result (λ rows. KeysRise schema.now rows.items) }
    ensures damaged { IfErr result (λ e. OnDamage e (IsRowsDamage schema.now segment.old.footer segment.old.number (R.view segment.old.reader))) }

    // No damage is told of the file of a segment.
    ensures intact { IfErr result (λ e. OnDamage e (λ damaged. OfFile (R.view segment.old.reader) (IsNoSegment schema.now segment.old.footer))) }
    ensures reading { Reading (length segment.old.footer.blocks) (R.view segment.old.reader) (R.view segment.new.reader) result }
    ensures number { segment.new.number ≡ segment.old.number }
    ensures kept { segment.new.footer ≡ segment.old.footer }
    ensures known { KnowsFooter schema.now (R.view segment.new.reader) segment.new.footer }
{
    let mut rows = Vec::new(alloc);
    for b in 0..segment.footer.blocks() {
        add_block(alloc, schema, segment, b, &mut rows)?;
    }
    Ok(rows)
}
