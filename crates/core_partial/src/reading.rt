ghost use Rattle.std.specs.Prelude.{◌≡◌, IfErr, IfOk, map};
ghost use Rattle.pk_model.specs.Tables.{Rows};
ghost use Rattle.segment_read.specs.Reads.{OnDamage};
ghost use Rattle.snapshot_scan.specs.Snapshots.{fault_count};
ghost use Rattle.old_rows.specs.Reading.{ReadsCause, SameButCounts};
ghost use Rattle.core_partial.specs.Found.{IsFoundOf, IsLocated};
ghost use Rattle.core_partial.specs.Preparing.{AreFoundKeys, IsFoundDamage, IsMadeOfRead, ReadsFound, found_in};
ghost use Rattle.core_partial.specs.Prepared.{IsMadeOver, folded_of};

use crate::making::{MadeKeys, make_keys};
use dev_traits::{ReadFault, SealedReader};
use index_level0::{KeyBytes, Place};
use old_rows::read_olds;
use partial_loads::fold_lines;
use pk_model::Op;
use snapshot_scan::Snapshot;
use std::alloc::Global;

/// The keys of a load that was located in a snapshot, with the rows that they get over the rows that stand there.
pub fn keys_over<R: SealedReader>(
    alloc: Global,
    snapshot: &mut Snapshot<R>,
    located: &[(KeyBytes, Option<Place>)],
    given: &[u32],
    ops: Vec<Op>,
) -> Result<MadeKeys, ReadFault>
    requires { IsLocated snapshot.old.schema (record { given = given.now; ops = ops.items }) located.now }
    ensures keys { IfOk result (AreFoundKeys (found_in given.now ops.items snapshot.old located.now)) }
    ensures read { IfOk result (λ made. IsMadeOfRead (found_in given.now ops.items snapshot.old located.now)
        (map folded_of made.keys.items) made.results.rows.items) }
    ensures over { IfOk result (λ made. (m : Rows)
        → IsFoundOf (found_in given.now ops.items snapshot.old located.now) m
        → IsMadeOver snapshot.old.schema (record { given = given.now; ops = ops.items })
        made.keys.items made.results.rows.items m) }
    ensures damaged { IfErr result (λ e. OnDamage e
        (IsFoundDamage (found_in given.now ops.items snapshot.old located.now))) }
    ensures intact { IfErr result (λ e. OnDamage e (λ _. (m : Rows)
        → IsFoundOf (found_in given.now ops.items snapshot.old located.now) m → ⊥)) }
    ensures cause { ReadsCause (fault_count snapshot.old.parts) (fault_count snapshot.new.parts) result }
    ensures reads { ReadsFound (found_in given.now ops.items snapshot.old located.now)
        (found_in given.now ops.items snapshot.new located.now) }
    ensures same { SameButCounts snapshot.old snapshot.new }
{
    // No schema has a fault.
    let _columns = snapshot.schema().columns();
    let keys = fold_lines(alloc, snapshot.schema(), given, None, ops)?;
    let olds = read_olds(alloc, snapshot, &keys, located)?;
    Ok(make_keys(alloc, snapshot.schema(), given, keys, located, olds)?)
}
