ghost use Rattle.std.specs.Prelude.{◌≡◌, ◌+◌, ◌<◌, ◌≤◌, ℕ, List, IfErr, IfOk, IfSome, IsOk, IsTrue, OnErr, OnOk, None};
ghost use Rattle.std.specs.Prelude.{length, map, slice_get};
ghost use Rattle.rowsets.specs.Scans.{Piece};
ghost use Rattle.rowsets.specs.Scans as scans;
ghost use Rattle.row_merge.specs.Cursors.{AllFit};
ghost use Rattle.pk_values.specs.Schemas.{fits_row};
ghost use Rattle.snapshot_scan.specs.Scans.{AreCursors, GivesLeft, IsCounted, IsDue, IsPlayed, IsScanning, IsSettled};
ghost use Rattle.snapshot_scan.specs.Scans.{KeepsLeft};
ghost use Rattle.snapshot_scan.specs.Scans.{LeavesAll, NoneDue, reads_in_all, ReadsAllOnce, ReadsDue, ReadsOnce};
ghost use Rattle.snapshot_scan.specs.Scans.{rows_left, ScanFailed, Taken, ToldOfNoPieces};
ghost use Rattle.snapshot_scan.specs.Snapshots.{ArePieces, read_count};

use crate::snapshots::Snapshot;
use dev_traits::{Memory, ReadFault, SealedReader};
use pk_values::{Row, Schema};
use row_merge::{Bracket, Cursor, bracket_of};
use std::alloc::Global;

/// Reads the block of a part that is due, if one is.
pub fn refill<R: SealedReader>(
    alloc: Global,
    snapshot: &mut Snapshot<R>,
    cursors: &mut Vec<Cursor>,
    i: usize,
) -> Result<(), ReadFault>
    requires are { AreCursors snapshot.old cursors.old.items }
    requires there { i < length cursors.old.items }
    ensures are { AreCursors snapshot.new cursors.new.items }

    // It has the rows left that it had.
    ensures left { KeepsLeft snapshot.old cursors.old.items snapshot.new cursors.new.items }
    ensures others { (j : ℕ) → (j ≡ i → ⊥)
        → slice_get cursors.new.items j ≡ slice_get cursors.old.items j }
    ensures long { length cursors.new.items ≡ length cursors.old.items }
    ensures refused { OnErr result (cursors.new.items ≡ cursors.old.items) }
    ensures settled { OnOk result (IsSettled cursors.new.items i) }
    ensures at_hand { IsSettled cursors.old.items i → IsOk result × (snapshot.new ≡ snapshot.old) }
    ensures read { (b : ℕ) → IsDue cursors.old.items i b
        → ReadsDue snapshot.old.schema i b snapshot.old.parts snapshot.new.parts result }
    ensures most { read_count snapshot.new.parts ≤ read_count snapshot.old.parts + 1 }
    ensures once { OnOk result (reads_in_all snapshot.new.parts cursors.new.items
        ≤ reads_in_all snapshot.old.parts cursors.old.items) }
    ensures counted { IfErr result (IsCounted snapshot.new.parts) }
    ensures intact { IfErr result (ToldOfNoPieces snapshot.old) }
    ensures version { snapshot.new.version ≡ snapshot.old.version }
    ensures schema { snapshot.new.schema ≡ snapshot.old.schema }
{
    match cursors[i].due() {
        None => Ok(()),
        Some(b) => match snapshot.read_on(alloc, i as u64, b) {
            Ok(cursor) => {
                cursors[i] = cursor;
                Ok(())
            }
            Err(fault) => Err(fault),
        },
    }
}

/// Takes the first row of all, and tells the part that had it.
pub fn take_first(
    schema: &Schema,
    cursors: &mut Vec<Cursor>,
    bracket: &mut Bracket,
    last: usize,
) -> (Option<Row>, usize)
    requires fit { AllFit schema.now cursors.old.items }
    requires none_due { NoneDue cursors.old.items }
    requires played { IsPlayed schema.now cursors.old.items last bracket.old }
    ensures gives { GivesLeft schema.now cursors.old.items result.0 cursors.new.items }
    ensures fits { IfSome result.0 (λ row. IsTrue (fits_row schema.now row)) }
    ensures taken { Taken cursors.old.items result.1 cursors.new.items }
    ensures played { IsPlayed schema.now cursors.new.items result.1 bracket.new }
{
    bracket.replay(schema, cursors, last);
    let first = bracket.first();
    let row = cursors[first].pop();
    (row, first)
}

// The cursors before all live rows.
fn first_cursors<R: SealedReader>(
    alloc: Global,
    snapshot: &Snapshot<R>,
) -> Result<Vec<Cursor>, Memory>
    ensures are { IfOk result (λ cursors. AreCursors snapshot.now cursors.items) }
    ensures left { IfOk result (λ cursors.
        (pieces : List Piece) → ArePieces snapshot.now.schema snapshot.now.parts pieces
        → rows_left cursors.items pieces ≡ map scans.live_rows pieces) }
{
    let parts = snapshot.segments();
    let mut cursors = Vec::with_capacity(alloc, parts as usize)?;
    for i in 0..parts {
        cursors.push(snapshot.first_cursor(alloc, i))?;
    }
    Ok(cursors)
}

// Reads the first blocks of all parts.
fn fill<R: SealedReader>(
    alloc: Global,
    snapshot: &mut Snapshot<R>,
    cursors: &mut Vec<Cursor>,
) -> Result<(), ReadFault>
    requires are { AreCursors snapshot.old cursors.old.items }
    ensures are { OnOk result (AreCursors snapshot.new cursors.new.items) }
    ensures none_due { OnOk result (NoneDue cursors.new.items) }
    ensures left { OnOk result (KeepsLeft snapshot.old cursors.old.items snapshot.new cursors.new.items) }
    ensures reads { OnOk result (ReadsOnce snapshot.old.parts snapshot.new.parts) }
    ensures once { OnOk result (reads_in_all snapshot.new.parts cursors.new.items
        ≤ reads_in_all snapshot.old.parts cursors.old.items) }
    ensures failed { IfErr result (λ e.
        ScanFailed snapshot.old.schema e snapshot.old.parts snapshot.new.parts) }
    ensures counted { IfErr result (IsCounted snapshot.new.parts) }
    ensures intact { IfErr result (ToldOfNoPieces snapshot.old) }
    ensures version { snapshot.new.version ≡ snapshot.old.version }
    ensures schema { snapshot.new.schema ≡ snapshot.old.schema }
{
    for i in 0..cursors.len() {
        refill(alloc, snapshot, cursors, i)?;
    }
    Ok(())
}

/// The cursors at the first live rows of all parts, and the bracket of them, unless there is no part.
pub fn start<R: SealedReader>(
    alloc: Global,
    snapshot: &mut Snapshot<R>,
) -> Result<(Vec<Cursor>, Option<Bracket>), ReadFault>
    ensures are { IfOk result (λ begun. IsScanning snapshot.new begun.0.items begun.1 0 None) }
    ensures left { IfOk result (λ begun. LeavesAll snapshot.old snapshot.new begun.0.items) }
    ensures reads { OnOk result (ReadsOnce snapshot.old.parts snapshot.new.parts) }
    ensures once { IfOk result (λ begun. ReadsAllOnce snapshot.old.parts snapshot.new.parts begun.0.items) }
    ensures failed { IfErr result (λ e.
        ScanFailed snapshot.old.schema e snapshot.old.parts snapshot.new.parts) }
    ensures counted { IfErr result (IsCounted snapshot.new.parts) }
    ensures intact { IfErr result (ToldOfNoPieces snapshot.old) }
    ensures version { snapshot.new.version ≡ snapshot.old.version }
    ensures schema { snapshot.new.schema ≡ snapshot.old.schema }
{
    let mut cursors = first_cursors(alloc, snapshot)?;
    fill(alloc, snapshot, &mut cursors)?;
    if cursors.is_empty() {
        return Ok((cursors, None));
    }
    let count = cursors.len();
    let bracket = bracket_of(alloc, snapshot.schema(), &cursors, 0, count)?;
    Ok((cursors, Some(bracket)))
}
