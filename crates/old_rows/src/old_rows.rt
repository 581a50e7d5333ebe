ghost use Rattle.std.specs.Prelude.{◌≡◌, IfErr, IfOk, length};
ghost use Rattle.segment_read.specs.Reads.{OnDamage};
ghost use Rattle.snapshot_scan.specs.Snapshots.{fault_count};
ghost use Rattle.old_rows.specs.Reading.{AreOldsRead, HasNoOlds, ReadsAsked, ReadsCause, SameButCounts, TellsReadDamage};

use crate::filling::fill_olds;
use crate::parts_by_file::PartsByFile;
use crate::wanted::wanted_rows;
use dev_traits::{ReadFault, SealedReader};
use index_level0::{KeyBytes, Place};
use partial_loads::Folded;
use pk_values::Row;
use snapshot_scan::Snapshot;
use std::alloc::{AllocError, Global};

// No old row for any key.
fn no_rows(alloc: Global, keys: &[Folded]) -> Result<Vec<Option<Row>>, AllocError>
    ensures { IfOk result (λ olds. HasNoOlds (length keys.now) olds.items) }
{
    let mut olds = Vec::with_capacity(alloc, keys.len())?;
    for _ in keys {
        olds.push(None)?;
    }
    Ok(olds)
}

/// The old rows that keys' changes ask for, one for each key or none, of the places at which the keys are located in a
/// snapshot. The places are gone through in their order, so each block is read at most once, and only where a row is
/// asked for that stands in it.
///
/// # Errors
/// `StoreFault` exactly where a reader failed, which it counted once. `Damaged` where a block that was read is damaged,
/// or where a key is located at a place that isn't a live row of the snapshot, or is another key's. `Memory`.
pub fn read_olds<R: SealedReader>(
    alloc: Global,
    snapshot: &mut Snapshot<R>,
    keys: &[Folded],
    located: &[(KeyBytes, Option<Place>)],
) -> Result<Vec<Option<Row>>, ReadFault>
    requires { length located.now ≡ length keys.now }
    ensures olds { IfOk result (λ olds. AreOldsRead snapshot.old keys.now located.now olds.items) }
    ensures damaged { IfErr result (λ e. OnDamage e (TellsReadDamage snapshot.old keys.now located.now)) }
    ensures cause { ReadsCause (fault_count snapshot.old.parts) (fault_count snapshot.new.parts) result }
    ensures reads { ReadsAsked keys.now located.now snapshot.old.parts snapshot.new.parts }
    ensures same { SameButCounts snapshot.old snapshot.new }
{
    let wanted = wanted_rows(alloc, keys, located)?;
    let parts = PartsByFile::of(alloc, snapshot)?;
    let mut olds = no_rows(alloc, keys)?;
    fill_olds(alloc, snapshot, &parts, keys, &wanted, &mut olds)?;
    Ok(olds)
}
