ghost use Rattle.std.specs.Prelude.{◌≡◌, ◌++◌, ◌∷◌, [], IfOk, OnOk, length, option_to_list};
ghost use Rattle.core_publish.specs.Results.{place_at};
ghost use Rattle.core_partial.specs.Results.{place_for};

use index_level0::{KeyBytes, Place};
use pk_values::Row;
use std::alloc::{AllocError, Global};

/// How many rows a file has, but for the last one.
pub const FILE_ROWS: usize = 65536;

/// The rows that keys get, in the order of the keys, and the code of each key with the place of its row among them,
/// counted in files of 65,536 rows, or none.
#[derive(Drop)]
pub struct Results {
    pub rows: Vec<Row>,
    pub moves: Vec<(KeyBytes, Option<Place>)>,
}

// The place of a row in files of 65,536 rows.
fn place_at(row: usize) -> Place
    ensures { result ≡ place_at row }
{
    Place {
        segment: (row / FILE_ROWS) as u64,
        row: (row % FILE_ROWS) as u32,
    }
}

impl Results {
    /// None, with room for those of so many keys.
    pub fn with_room(alloc: Global, keys: usize) -> Result<Results, AllocError>
        ensures rows { IfOk result (λ results. results.rows.items ≡ []) }
        ensures moves { IfOk result (λ results. results.moves.items ≡ []) }
    {
        Ok(Results {
            rows: Vec::with_capacity(alloc, keys)?,
            moves: Vec::with_capacity(alloc, keys)?,
        })
    }

    /// Adds a key by its code, with its row or without one, and answers the row's place.
    pub fn add(&mut self, code: KeyBytes, row: Option<Row>) -> Result<Option<Place>, AllocError>
        ensures rows { OnOk result (self.new.rows.items ≡ self.old.rows.items ++ option_to_list row) }
        ensures moves { OnOk result (self.new.moves.items
            ≡ self.old.moves.items ++ (code, place_for (length self.old.rows.items) row) ∷ []) }
        ensures place { IfOk result (λ place. place ≡ place_for (length self.old.rows.items) row) }
    {
        let place = match row {
            None => None,
            Some(row) => {
                let place = place_at(self.rows.len());
                self.rows.push(row)?;
                Some(place)
            }
        };
        self.moves.push((code, place))?;
        Ok(place)
    }
}
