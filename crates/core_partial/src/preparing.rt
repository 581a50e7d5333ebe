ghost use Rattle.std.specs.Prelude.{◌≡◌, ◌+◌, ◌-◌, ◌^◌, IfErr, IfOk, false, is_some, map, min};
ghost use Rattle.dev_traits.specs.Causes.{HasOutsideCause};
ghost use Rattle.pk_model.specs.Tables.{Rows};
ghost use Rattle.snapshot_scan.specs.Snapshots.{fault_count};
ghost use Rattle.core_publish.specs.Prepared.{EachTells};
ghost use Rattle.core_partial.specs.Found.{IsFoundOf};
ghost use Rattle.segment_read.specs.Reads.{OnDamage};
ghost use Rattle.old_rows.specs.Reading.{ReadsCause, SameButCounts};
ghost use Rattle.core_partial.specs.Preparing.{AreFoundKeys, IsFoundDamage, IsMadeOfRead, OnOutsideDamage, ReadsFound};
ghost use Rattle.core_partial.specs.Prepared.{IsMadeOver, WasMadeOver, folded_of, located_move, nothing_again};

use crate::making::MadeKeys;
use crate::prepared::Again;
use crate::reading::keys_over;
use crate::{Found, PreparedPartial};
use core_publish::write_files;
use dev_traits::{FileMaker, OutsideFault, ReadFault, SealedReader};
use pk_model::{Load, Op};
use std::alloc::Global;
use std::snapshot::Snapshot;

// The keys of a load that was located, with the rows that they get over the rows that were found.
fn found_keys<R: SealedReader>(
    alloc: Global,
    found: &mut Found<R>,
    given: &[u32],
    ops: Vec<Op>,
) -> Result<MadeKeys, ReadFault>
    requires load { found.old.load ≡ record { given = given.now; ops = ops.items } }
    ensures keys { IfOk result (AreFoundKeys found.old) }
    ensures read { IfOk result (λ made.
        IsMadeOfRead found.old (map folded_of made.keys.items) made.results.rows.items) }
    ensures over { IfOk result (λ made. (m : Rows) → IsFoundOf found.old m
        → IsMadeOver found.old.snapshot.schema found.old.load made.keys.items made.results.rows.items m) }
    ensures damaged { IfErr result (λ e. OnDamage e (IsFoundDamage found.old)) }
    ensures intact { IfErr result (λ e. OnDamage e (λ _. (m : Rows) → IsFoundOf found.old m → ⊥)) }
    ensures cause { ReadsCause (fault_count found.old.snapshot.parts) (fault_count found.new.snapshot.parts) result }
    ensures reads { ReadsFound found.old found.new }
    ensures same { SameButCounts found.old.snapshot found.new.snapshot }
    ensures load { found.new.load ≡ found.old.load }
    ensures places { found.new.located ≡ found.old.located }
{
    keys_over(alloc, &mut found.snapshot, &found.entries, given, ops)
}

/// Prepares a partial load that was located: folds the lines of each key into one change, reads the old rows that the
/// changes ask for, block by block, and writes whole new rows into files of 65,536 rows.
///
/// # Errors
/// `Fault` exactly where the maker or a reader failed, which it counted once. `Damaged` where a block that was read is
/// damaged, or where the index named a row that isn't a live one or is another key's. `Memory` where memory is wanted;
/// nothing is counted then.
pub fn prepare_partial<M: FileMaker, R: SealedReader>(
    alloc: Global,
    maker: &mut M,
    found: &mut Found<R>,
    load: Load,
) -> Result<PreparedPartial<M>, OutsideFault>
    requires located { found.old.load ≡ load }
    ensures schema { IfOk result (λ p. p.schema ≡ found.old.snapshot.schema) }
    ensures load { IfOk result (λ p. p.load ≡ load) }
    ensures version { IfOk result (λ p. p.version ≡ found.old.snapshot.version) }
    ensures unspent { IfOk result (λ p. p.spent ≡ false) }
    ensures again { IfOk result (λ p. p.again ≡ nothing_again) }

    // It has the places at which the load was located, and its rows were made over the map that was found.
    ensures places { IfOk result (λ p. map located_move p.keys ≡ found.old.located) }
    ensures over { IfOk result (λ p. (m : Rows) → IsFoundOf found.old m → WasMadeOver p m) }

    // Over every reader, the rows are made of old rows that were read at the keys' places.
    ensures read { IfOk result (λ p. IsMadeOfRead found.old (map folded_of p.keys) p.rows) }

    // What was found stays as it was, but for what its readers count.
    ensures found_load { found.new.load ≡ found.old.load }
    ensures found_places { found.new.located ≡ found.old.located }
    ensures found_same { SameButCounts found.old.snapshot found.new.snapshot }
    ensures stays { (m : Rows) → IsFoundOf found.old m → IsFoundOf found.new m }

    // Where the maker tells its bytes, so does each file.
    ensures told { IfOk result (λ p. EachTells (is_some (M.view maker.old).made) p.files) }
    ensures tells { is_some (M.view maker.new).made ≡ is_some (M.view maker.old).made }

    // Damage is that of a block in which an old row stands that is asked for, or of an index that places a key where no
    // live row of its stands; and none is told where what was found stands for a map.
    ensures damaged { IfErr result (λ e. OnOutsideDamage e (IsFoundDamage found.old)) }
    ensures intact { IfErr result (λ e. OnOutsideDamage e (λ _. (m : Rows) → IsFoundOf found.old m → ⊥)) }

    // Each block is read at most once, and only where the old row of a key stands in it whose change asks for it.
    ensures reads { ReadsFound found.old found.new }
    ensures cause { HasOutsideCause (min ((M.view maker.old).faults + fault_count found.old.snapshot.parts) (2 ^ 64 - 1))
        (min ((M.view maker.new).faults + fault_count found.new.snapshot.parts) (2 ^ 64 - 1)) result }
{
    let kept = Snapshot::of(&load);
    let Load { given, ops } = load;
    let given = given.into_vec();
    let MadeKeys { keys, results } = found_keys(alloc, found, &given, ops.into_vec())?;
    let schema = found.snapshot.schema();
    let files = write_files(alloc, maker, schema, &results.rows)?;
    Ok(PreparedPartial {
        schema: Snapshot::of(schema),
        load: kept,
        version: found.version(),
        given,
        keys,
        rows: Snapshot::of(&results.rows),
        files,
        again: Again::nothing(alloc),
        spent: false,
    })
}
