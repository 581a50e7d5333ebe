ghost use Rattle.std.specs.Prelude.{◌≡◌, ◌+◌, ◌<◌, ◌≤◌, ◌*◌, All, IfOk, IfErr, IsTrue, [], length};
ghost use Rattle.dev_traits.specs.declared.faults.ReadFault.TheVariants as read;
ghost use Rattle.segment_read.specs.Reads.{OnDamage, Reading};
ghost use Rattle.segment_read.specs.Rows.{IsRowsDamage};
ghost use Rattle.rowsets.specs.Scans.{alive};
ghost use Rattle.rowsets.specs.Scans as scans;
ghost use Rattle.pk_values.specs.Schemas.{fits_row, Layout};
ghost use Rattle.snapshot_scan.specs.Parts.{AreLive, AreLiveIn, AreWrittenIn, IsAllWhole, IsBlockOf, IsPart, IsWhole};
ghost use Rattle.snapshot_scan.specs.Parts.{read_by, seen, ToldOfNoPiece};
ghost use Rattle.snapshot_scan.specs.Scans.{HasLeft, HasLive, IsBlockDamage, IsCursor, ReadOn};

use crate::live::{live_rows, next_live};
use del_vector::DelVector;
use dev_traits::{ReadFault, SealedReader};
use pk_values::{Row, Schema};
use row_merge::Cursor;
use segment_read::{Segment, block, rows_of};
use std::alloc::Global;

// The live ones of rows that were read.
fn only_live(
    alloc: Global,
    rows: Vec<Row>,
    first: u32,
    dead: &DelVector,
) -> Result<Vec<Row>, ReadFault>
    requires { first + length rows.items ≤ 65536 }
    ensures live { IfOk result (λ live. live.items ≡ alive dead.now first rows.items) }
    ensures memory { IfErr result (λ e. e ≡ read.Memory) }
{
    match live_rows(alloc, rows, first, dead) {
        Ok(live) => Ok(live),
        Err(_) => Err(ReadFault::Memory),
    }
}

/// The live rows of a block, by one read.
pub fn live_block<R: SealedReader>(
    alloc: Global,
    schema: &Schema,
    part: &mut (Segment<R>, DelVector),
    b: u32,
) -> Result<Vec<Row>, ReadFault>
    requires part { IsPart schema.now (seen R.view part.old) }
    requires there { b < length part.old.0.footer.blocks }
    ensures live { IfOk result (λ live. AreLiveIn schema.now (seen R.view part.old) b live.items) }

    // Rows are given of a block alone whose bytes are those of rows.
    ensures whole { IfOk result (λ _. IsWhole schema.now (seen R.view part.old) b) }
    ensures damaged { IfErr result (λ e. OnDamage e (IsBlockDamage schema.now (seen R.view part.old) b)) }
    ensures intact { IfErr result (ToldOfNoPiece schema.now (seen R.view part.old)) }
    ensures fit { IfOk result (λ live. All (λ row. IsTrue (fits_row schema.now row)) live.items) }

    // A block with a live row gives one.
    ensures some { HasLive part.old.0.footer.rows part.old.1 b → IfOk result (λ live. live.items ≡ [] → ⊥) }
    ensures reading { Reading 1 (R.view part.old.0.reader) (R.view part.new.0.reader) result }
    ensures kept { seen R.view part.new ≡ read_by (R.view part.new.0.reader) (seen R.view part.old) }
    ensures part { IsPart schema.now (seen R.view part.new) }
{
    match block(alloc, schema, &mut part.0, b) {
        Ok(rows) => only_live(alloc, rows, b * 1024, &part.1),
        Err(fault) => Err(fault),
    }
}

/// All rows of a block, the dead ones among them, by one read.
pub fn written_block<R: SealedReader>(
    alloc: Global,
    schema: &Schema,
    part: &mut (Segment<R>, DelVector),
    b: u32,
) -> Result<Vec<Row>, ReadFault>
    requires part { IsPart schema.now (seen R.view part.old) }
    requires there { b < length part.old.0.footer.blocks }
    ensures rows { IfOk result (λ rows. AreWrittenIn schema.now (seen R.view part.old) b rows.items) }
    ensures bytes { IfOk result (λ rows. IsBlockOf schema.now (seen R.view part.old) b rows.items) }
    ensures damaged { IfErr result (λ e. OnDamage e (IsBlockDamage schema.now (seen R.view part.old) b)) }
    ensures intact { IfErr result (ToldOfNoPiece schema.now (seen R.view part.old)) }
    ensures fit { IfOk result (λ rows. All (λ row. IsTrue (fits_row schema.now row)) rows.items) }
    ensures reading { Reading 1 (R.view part.old.0.reader) (R.view part.new.0.reader) result }
    ensures kept { seen R.view part.new ≡ read_by (R.view part.new.0.reader) (seen R.view part.old) }
    ensures part { IsPart schema.now (seen R.view part.new) }
{
    block(alloc, schema, &mut part.0, b)
}

/// The live rows, by one read for each block.
pub fn live_part<R: SealedReader>(
    alloc: Global,
    schema: &Schema,
    part: &mut (Segment<R>, DelVector),
) -> Result<Vec<Row>, ReadFault>
    requires part { IsPart schema.now (seen R.view part.old) }
    ensures live { IfOk result (λ live. AreLive schema.now (seen R.view part.old) live.items) }

    // Rows are given of a file alone whose bytes are those of a segment.
    ensures whole { IfOk result (λ _. IsAllWhole schema.now (seen R.view part.old)) }
    ensures damaged { IfErr result (λ e.
        OnDamage e (IsRowsDamage schema.now part.old.0.footer part.old.0.number (R.view part.old.0.reader))) }
    ensures intact { IfErr result (ToldOfNoPiece schema.now (seen R.view part.old)) }
    ensures reading { Reading (length part.old.0.footer.blocks) (R.view part.old.0.reader)
        (R.view part.new.0.reader) result }
    ensures kept { seen R.view part.new ≡ read_by (R.view part.new.0.reader) (seen R.view part.old) }
    ensures part { IsPart schema.now (seen R.view part.new) }
{
    match rows_of(alloc, schema, &mut part.0) {
        Ok(rows) => only_live(alloc, rows, 0, &part.1),
        Err(fault) => Err(fault),
    }
}

/// The cursor before all live rows. It reads nothing.
pub fn first_cursor<R: SealedReader>(alloc: Global, part: &(Segment<R>, DelVector)) -> Cursor
    ensures cursor { (s : Layout) → IsCursor s (seen R.view part.now) result }
    ensures rows { (s : Layout) → HasLeft s (seen R.view part.now) scans.live_rows result }
{
    let rows = part.0.footer.fields().rows;
    Cursor::before(alloc, next_live(&part.1, rows, 0))
}

/// The cursor at the live rows of a block that has one, by one read.
pub fn read_on<R: SealedReader>(
    alloc: Global,
    schema: &Schema,
    part: &mut (Segment<R>, DelVector),
    b: u32,
) -> Result<Cursor, ReadFault>
    requires part { IsPart schema.now (seen R.view part.old) }
    requires live { HasLive part.old.0.footer.rows part.old.1 b }
    ensures read { ReadOn schema.now (seen R.view part.old) b (R.view part.new.0.reader) result }
    ensures kept { seen R.view part.new ≡ read_by (R.view part.new.0.reader) (seen R.view part.old) }
    ensures part { IsPart schema.now (seen R.view part.new) }
{
    let rows = part.0.footer.fields().rows;
    match live_block(alloc, schema, part, b) {
        Ok(live) => Ok(Cursor::at(live, next_live(&part.1, rows, b + 1))),
        Err(fault) => Err(fault),
    }
}
