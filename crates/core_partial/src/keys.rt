use index_level0::{KeyBytes, Place};
use partial_loads::KeyChange;
use pk_values::Key;

/// A key that a partial load names: its code, what its lines come to, the place of its row when it was located, and the
/// place of the row that was made of it, in files that are numbered from 0. None where there is no row.
#[derive(Drop)]
pub struct PreparedKey {
    pub(crate) code: KeyBytes,
    pub(crate) key: Key,
    pub(crate) change: KeyChange,
    pub(crate) was: Option<Place>,
    pub(crate) made: Option<Place>,
}
