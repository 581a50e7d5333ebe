ghost use Rattle.std.specs.Prelude.{◌≡◌, None, false, map, OnOk, IfOk, IfErr, IsErrOf};
ghost use Rattle.pk_model.specs.declared.books.Book.{Book};
ghost use Rattle.tablet_state.specs.Contents.{index_of};
ghost use Rattle.tablet_state.specs.State.{Has, Rests, faults_of, refusal_of};
ghost use Rattle.tablet_state.specs.Readies.{IsChangeOf, IsMade};
ghost use Rattle.core_publish.specs.Publishing.{IsTaken, IsWrongIndex, emptied};
ghost use Rattle.core_publish.specs.declared.ready.UnreadyFault.TheVariants as fault;

use crate::Prepared;
use crate::places::{PlacesFault, old_places};
use dev_traits::{FileMaker, Store};
use std::alloc::Global;
use tablet_state::{Ready, ReadyFault, State};

/// Why a prepared load isn't made ready.
#[derive(Clone, Copy, Debug, PartialEq, Eq, Drop)]
pub enum UnreadyFault {
    /// Memory is wanted.
    Memory,
    /// The index names one row for two keys, or a row that isn't a live one.
    Index,
}

/// Makes a prepared load ready to be applied to a state that takes it, and takes all memory for that. The load is then
/// spent.
///
/// # Errors
/// `Memory` leaves the load as it was. `Index` uses it up; it never comes where the state has a book.
pub fn ready_of<S: Store>(
    alloc: Global,
    state: &mut State<S>,
    prepared: &mut Prepared<S::Maker>,
) -> Result<Ready<S::Maker>, UnreadyFault>
    requires goes { refusal_of state.old ≡ None }
    requires unspent { prepared.old.spent ≡ false }
    requires schema { prepared.old.schema ≡ state.old.contents.schema }
    ensures made { IfOk result (λ ready. IsMade (S.view state.new.store) state.new.contents state.new.room
        (map (λ m. (S.Maker.sealed_bytes m.sealed, m.footer)) ready.change.files.items) ready.change.dead.items
        ready.change.index.items ready.body ready.current) }

    // Over a book that the state has, what is ready is the load's change.
    ensures change { IfOk result (λ ready. (b : Book) → Has S.view state.old b
        → IsChangeOf state.old.contents.schema (index_of state.old.contents) b prepared.old.load
        state.old.contents.next_file (map (λ m. (S.Maker.sealed_bytes m.sealed, m.footer)) ready.change.files.items)
        ready.change.dead.items ready.change.index.items) }

    ensures taken { IfOk result (λ ready. IsTaken state.old.contents prepared.old.files prepared.old.entries
        (map (λ m. (S.Maker.sealed_bytes m.sealed, m.footer)) ready.change.files.items) ready.change.dead.items
        ready.change.index.items) }
    ensures wrong { IsErrOf result fault.Index → IsWrongIndex state.old.contents prepared.old.entries }
    ensures intact { (b : Book) → Has S.view state.old b → IfErr result (λ e. e ≡ fault.Memory) }
    ensures rests { Rests S.view state.old state.new }
    ensures faults { faults_of S.view state.new ≡ faults_of S.view state.old }
    ensures has { (b : Book) → Has S.view state.old b → Has S.view state.new b }
    ensures spent { OnOk result (prepared.new ≡ emptied prepared.old) }
    ensures kept { IsErrOf result fault.Memory → prepared.new ≡ prepared.old }
    ensures lost { IsErrOf result fault.Index → prepared.new ≡ emptied prepared.old }
{
    // No schema has a fault.
    let _columns = state.schema().columns();
    let first = state.next_file();
    let dead = match old_places(alloc, state, prepared.entries()) {
        Ok(dead) => dead,
        Err(PlacesFault::Memory) => return Err(UnreadyFault::Memory),
        Err(PlacesFault::Twice) => {
            prepared.use_up(alloc);
            return Err(UnreadyFault::Index);
        }
    };
    let change = prepared.take_change(alloc, first, dead);
    match state.ready(alloc, change) {
        Ok(ready) => Ok(ready),
        Err((change, ReadyFault::Memory)) => {
            prepared.put_back(first, change);
            Err(UnreadyFault::Memory)
        }
        Err((_, ReadyFault::NotLive)) => Err(UnreadyFault::Index),
    }
}
