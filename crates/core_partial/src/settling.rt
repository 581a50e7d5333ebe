ghost use Rattle.std.specs.Prelude.{◌≡◌, ◌+◌, ◌≤◌, IfErr, IfOk, None, OnErr, OnOk, false, length};
ghost use Rattle.dev_traits.specs.Causes.{HasReadCause};
ghost use Rattle.pk_model.specs.declared.books.Book.{Book};
ghost use Rattle.segment_read.specs.Reads.{OnDamage};
ghost use Rattle.tablet_state.specs.Moving.{total_reads};
ghost use Rattle.tablet_state.specs.Snapshots.{Lends};
ghost use Rattle.tablet_state.specs.State.{Has, faults_of};
ghost use Rattle.core_partial.specs.Moving.{IsReadDamage, IsSettled, IsSettledOver, moved_keys};

use crate::PreparedPartial;
use crate::again::again_of;
use dev_traits::{FileMaker, ReadFault, SealedReader, Store};
use std::alloc::Global;
use tablet_state::State;

/// Makes the rows of exactly those keys of a prepared load again that moved since it was located, over the rows that
/// they have now, and tells how many keys moved. What it made takes the place of what an earlier call made. Each key is
/// looked up once in the index, at most one row is read for each key that moved, and the state's own maker writes.
///
/// # Errors
/// `StoreFault` exactly where the store's maker or a reader failed, which was counted once. `Damaged` where a block that
/// was read is damaged, or the index named a row that isn't a live one or is another key's: neither where the state has a
/// book. `Memory` where memory is wanted. After an error the prepared load is as before.
pub fn settle<S: Store>(
    alloc: Global,
    state: &mut State<S>,
    prepared: &mut PreparedPartial<S::Maker>,
) -> Result<u64, ReadFault>
    requires open { state.old.closed ≡ None }
    requires unspent { prepared.old.spent ≡ false }
    requires schema { prepared.old.schema ≡ state.old.contents.schema }
    ensures count { IfOk result (λ moved.
        moved ≡ length (moved_keys state.old.contents prepared.old.version prepared.old.keys)) }

    // Rows were made again of exactly the keys that moved, over every reader of the rows that stand at their places now, and
    // these are the rows of the book that the state has.
    ensures settled { OnOk result (IsSettled state.old.contents state.old.segments prepared.new) }
    ensures over { OnOk result ((b : Book) → Has S.view state.old b
        → IsSettledOver state.old.contents prepared.new b.current) }

    // Nothing else of the prepared load changes, and after an error nothing at all.
    ensures replaced { OnOk result (prepared.new ≡ record prepared.old { again = prepared.new.again }) }
    ensures refused { OnErr result (prepared.new ≡ prepared.old) }

    // The state's segment readers are read at most once for each key that moved, all together.
    ensures reads { total_reads state.new.segments ≤ total_reads state.old.segments
        + length (moved_keys state.old.contents prepared.old.version prepared.old.keys) }
    ensures damaged { IfErr result (λ e. OnDamage e
        (IsReadDamage state.old.contents state.old.segments
        (moved_keys state.old.contents prepared.old.version prepared.old.keys))) }
    ensures intact { (b : Book) → Has S.view state.old b → IfErr result (λ e. OnDamage e (λ _. ⊥)) }
    ensures cause { HasReadCause (faults_of S.view state.old) (faults_of S.view state.new) result }

    // Nothing is written to the journal, and what the state holds stays.
    ensures lends { Lends S.view state.old state.new }
    ensures has { (b : Book) → Has S.view state.old b → Has S.view state.new b }
{
    let again = again_of(alloc, state, prepared)?;
    let moved = again.moved();
    prepared.renew(again);
    Ok(moved)
}
