use core_recover::{OpenFault, create, recover};
use dev_traits::Store;
use pk_values::Schema;
use std::alloc::Global;
use tablet_state::State;

/// A new tablet in an empty store.
pub fn new_tablet<S: Store + Drop>(alloc: Global, store: S, schema: Schema) -> Option<State<S>> {
    match recover(alloc, store) {
        Err((store, OpenFault::Empty)) => create(alloc, store, schema).ok(),
        _ => None,
    }
}
