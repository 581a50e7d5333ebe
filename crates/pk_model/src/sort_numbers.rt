ghost use Rattle.std.specs.Prelude.{◌≡◌};
ghost use Rattle.pk_values.specs.Fits.{fits_all};
ghost use Rattle.pk_values.specs.Schemas.{fits_key};
ghost use Rattle.pk_model.specs.SortNumbers.{key_number};

use key_code::{encode, prefix};
use pk_values::{Column, Key, Schema, Value};
use std::alloc::Global;

// Whether there is one fitting cell for each column.
fn fits_all(columns: &[Column], cells: &[Value]) -> bool
    ensures { result ≡ fits_all columns.now cells.now }
{
    if cells.len() != columns.len() {
        return false;
    }
    for i in 0..columns.len() {
        if !columns[i].fits(&cells[i]) {
            return false;
        }
    }
    true
}

fn fits_key(schema: &Schema, key: &Key) -> bool
    ensures { result ≡ fits_key schema.now key.now }
{
    fits_all(&schema.columns()[..schema.keys() as usize], &key.cells)
}

/// What keys are sorted by first: the first eight bytes of the key's code as a number. Keys of different numbers are in the
/// order of these; keys of one number need a look at themselves. A key that has no code is given 0.
pub fn key_number(alloc: Global, schema: &Schema, key: &Key) -> u64
    ensures { result ≡ key_number schema.now key.now }
{
    if !fits_key(schema, key) {
        return 0;
    }
    match encode(alloc, schema, key) {
        Ok(code) => prefix(&code),
        Err(_) => 0,
    }
}
