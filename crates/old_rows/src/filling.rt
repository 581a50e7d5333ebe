ghost use Rattle.std.specs.Prelude.{◌≡◌, ◌<◌, ◌++◌, ◌∷◌, [], All, IfErr, List, OnOk, length, map};
ghost use Rattle.segment_read.specs.Reads.{OnDamage};
ghost use Rattle.snapshot_scan.specs.Snapshots.{fault_count};
ghost use Rattle.old_rows.specs.PartsByFile.{FindsParts};
ghost use Rattle.old_rows.specs.Reading.{AreFilled, HaveKeys, IsReadingDamage, ReadBlocks, ReadsCause, SameButCounts};
ghost use Rattle.old_rows.specs.Wanted.{InOneBlock, block_of, place_wanted, runs};
ghost use Rattle.old_rows.specs.declared.wanted.Wanted.{Wanted as Asked};

use crate::parts_by_file::PartsByFile;
use crate::rows_of_blocks::{astray, take_rows};
use crate::wanted::{Wanted, run_length};
use dev_traits::{ReadFault, SealedReader};
use partial_loads::Folded;
use pk_values::Row;
use snapshot_scan::Snapshot;
use std::alloc::Global;

// Reads the one block in which rows are wanted, and takes them from it.
fn take_block<R: SealedReader>(
    alloc: Global,
    snapshot: &mut Snapshot<R>,
    parts: &PartsByFile,
    keys: &[Folded],
    wanted: &[Wanted],
    olds: &mut Vec<Option<Row>>,
) -> Result<(), ReadFault>
    requires some { 0 < length wanted.now }
    requires one { InOneBlock wanted.now }
    requires found { FindsParts parts.now snapshot.old.parts }
    requires keys { HaveKeys keys.now wanted.now }
    requires long { length olds.old.items ≡ length keys.now }
    ensures filled { OnOk result ((done : List Asked) → AreFilled snapshot.old keys.now done olds.old.items
        → AreFilled snapshot.old keys.now (done ++ wanted.now) olds.new.items) }
    ensures long { length olds.new.items ≡ length keys.now }
    ensures damaged { IfErr result (λ e. OnDamage e (IsReadingDamage snapshot.old keys.now wanted.now)) }
    ensures cause { ReadsCause (fault_count snapshot.old.parts) (fault_count snapshot.new.parts) result }
    ensures reads { (w : Asked) (ws : List Asked) → wanted.now ≡ w ∷ ws
        → ReadBlocks (block_of w.place ∷ []) snapshot.old.parts snapshot.new.parts }
    ensures same { SameButCounts snapshot.old snapshot.new }
{
    let place = wanted[0].place;
    let b = place.row / 1024;
    let Some(i) = parts.part_of(place.segment) else {
        return Err(astray());
    };
    if place.row >= snapshot.footer(i).fields().rows {
        return Err(astray());
    }
    let rows = snapshot.written_rows(alloc, i, b)?;
    take_rows(
        alloc,
        snapshot.schema(),
        &rows,
        snapshot.dead(i),
        keys,
        wanted,
        olds,
    )
}

/// Reads the rows that are wanted, of which those of one block stand one after the other, and fills them in as old rows
/// of their keys. Each run of one block is read once.
///
/// # Errors
/// Those of reading a block; `Damaged` where a wanted row isn't a live one, or is another key's.
pub fn fill_olds<R: SealedReader>(
    alloc: Global,
    snapshot: &mut Snapshot<R>,
    parts: &PartsByFile,
    keys: &[Folded],
    wanted: &[Wanted],
    olds: &mut Vec<Option<Row>>,
) -> Result<(), ReadFault>
    requires found { FindsParts parts.now snapshot.old.parts }
    requires keys { HaveKeys keys.now wanted.now }
    requires none { AreFilled snapshot.old keys.now [] olds.old.items }
    ensures filled { OnOk result (AreFilled snapshot.old keys.now wanted.now olds.new.items) }
    ensures damaged { IfErr result (λ e. OnDamage e (IsReadingDamage snapshot.old keys.now wanted.now)) }
    ensures cause { ReadsCause (fault_count snapshot.old.parts) (fault_count snapshot.new.parts) result }
    ensures reads { ReadBlocks (runs (map place_wanted wanted.now)) snapshot.old.parts snapshot.new.parts }
    ensures same { SameButCounts snapshot.old snapshot.new }
{
    let mut at = 0;
    while at < wanted.len() {
        let count = run_length(&wanted[at..]);
        let run = &wanted[at..at + count];
        take_block(alloc, snapshot, parts, keys, run, olds)?;
        at += count;
    }
    Ok(())
}
