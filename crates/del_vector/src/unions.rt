ghost use Rattle.std.specs.Prelude.{◌≡◌, ◌+◌, ◌<◌, ◌≤◌, ◌⊎◌, ◌∷◌, IfOk, length, drop};
ghost use Rattle.rowsets.specs.Marks.{Rises, with_rows};
ghost use Rattle.del_vector.specs.DeadRows.{AreDeadRows};

use dev_traits::Memory;
use std::alloc::Global;

// The least row of what is left of two rising lists, and where the rest of each begins.
struct Least {
    row: u16,
    rows_from: usize,
    dead_from: usize,
}

fn least_left(rows: &[u32], rows_from: usize, dead: &[u16], dead_from: usize) -> Least
    requires rows { AreDeadRows rows.now }
    requires dead { Rises dead.now }
    requires rows_within { rows_from ≤ length rows.now }
    requires dead_within { dead_from ≤ length dead.now }
    requires some { (rows_from < length rows.now) ⊎ (dead_from < length dead.now) }
    ensures least { with_rows (drop rows_from rows.now) (drop dead_from dead.now) ≡ result.row ∷ with_rows (drop result.rows_from rows.now) (drop result.dead_from dead.now) }
    ensures rows_within { result.rows_from ≤ length rows.now }
    ensures dead_within { result.dead_from ≤ length dead.now }
    ensures less { rows_from + dead_from < result.rows_from + result.dead_from }
{
    if rows_from == rows.len() {
        return Least {
            row: dead[dead_from],
            rows_from,
            dead_from: dead_from + 1,
        };
    }
    let row = rows[rows_from];
    if dead_from < dead.len() {
        let old = dead[dead_from];
        if u32::from(old) < row {
            return Least {
                row: old,
                rows_from,
                dead_from: dead_from + 1,
            };
        }
        if u32::from(old) == row {
            return Least {
                row: old,
                rows_from: rows_from + 1,
                dead_from: dead_from + 1,
            };
        }
    }
    Least {
        row: row as u16,
        rows_from: rows_from + 1,
        dead_from,
    }
}

/// The union of two rising lists of rows.
pub fn union(alloc: Global, rows: &[u32], dead: &[u16]) -> Result<Vec<u16>, Memory>
    requires rows { AreDeadRows rows.now }
    requires dead { AreDeadRows dead.now }
    ensures union { IfOk result (λ united. united.items ≡ with_rows rows.now dead.now) }
    ensures dead { IfOk result (λ united. AreDeadRows united.items) }
{
    let mut united = Vec::with_capacity(alloc, rows.len() + dead.len())?;
    let mut i = 0;
    let mut j = 0;
    while i < rows.len() || j < dead.len() {
        let Least {
            row,
            rows_from,
            dead_from,
        } = least_left(rows, i, dead, j);
        united.push(row)?;
        i = rows_from;
        j = dead_from;
    }
    Ok(united)
}
