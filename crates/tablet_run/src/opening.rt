ghost use Rattle.std.specs.Prelude.{IfOk, IfErr, IsTrue};
ghost use Rattle.dev_traits.specs.View.{EachImage};
ghost use Rattle.version_journal.specs.Images.{HasNoRecord};
ghost use Rattle.tablet_run.specs.Stores.{HasOpened, IsCreated, IsFound, IsUncreated, Refuses};

use crate::causes::{Cause, StoredTable};
use core_recover::{OpenFault, create, recover};
use dev_traits::Store;
use pk_values::Schema;
use std::alloc::Global;
use tablet_state::State;

// Makes an empty store a tablet.
fn create_tablet<S: Store>(alloc: Global, store: S, schema: &Schema) -> Result<State<S>, (S, Cause)>
    requires { IsTrue (S.view store).is_honest → EachImage (S.view store) HasNoRecord }
    ensures made { IfOk result (λ state. IsCreated S.view schema.now store state) }
    ensures refused { IfErr result (λ e. IsUncreated schema.now (S.view store) (S.view e.0) e.1) }
{
    let copy = match schema.copy(alloc) {
        Ok(copy) => copy,
        Err(_) => return Err((store, Cause::Memory)),
    };
    match create(alloc, store, copy) {
        Ok(state) => Ok(state),
        Err((store, fault)) => match fault {
            OpenFault::StoreFault => Err((store, Cause::Store)),
            _ => Err((store, Cause::Memory)),
        },
    }
}

// Opens the tablet of a store, and makes it where the store is empty.
fn find_tablet<S: Store>(alloc: Global, store: S, schema: &Schema) -> Result<State<S>, (S, Cause)>
    ensures found { IfOk result (λ state. IsFound S.view schema.now store state) }
    ensures refused { IfErr result (λ e. Refuses schema.now (S.view store) (S.view e.0) e.1) }
{
    match recover(alloc, store) {
        Ok(state) => Ok(state),
        Err((store, fault)) => match fault {
            OpenFault::Empty => create_tablet(alloc, store, schema),
            OpenFault::Damaged(damaged) => Err((store, Cause::Damaged(damaged))),
            OpenFault::StoreFault => Err((store, Cause::Store)),
            OpenFault::Memory => Err((store, Cause::Memory)),
        },
    }
}

/// Opens the tablet of a store for a table, and makes it where the store is empty.
///
/// # Errors
/// `Store` where the store failed, and counted it; `Damaged` where it is damaged; `OtherSchema` exactly where it has
/// another table; and `Memory`.
pub fn open_tablet<S: Store>(
    alloc: Global,
    store: S,
    schema: &Schema,
) -> Result<State<S>, (S, Cause)>
    ensures opened { IfOk result (λ state. HasOpened S.view schema.now store state) }
    ensures refused { IfErr result (λ e. Refuses schema.now (S.view store) (S.view e.0) e.1) }
{
    let state = match find_tablet(alloc, store, schema) {
        Ok(state) => state,
        Err(refused) => return Err(refused),
    };
    if state.schema().is_same(schema) {
        return Ok(state);
    }
    let other = state.schema().copy(alloc);
    let left = state.into_store();
    match other {
        Ok(schema) => Err((left, Cause::OtherSchema(StoredTable { schema }))),
        Err(_) => Err((left, Cause::Memory)),
    }
}
