ghost use Rattle.std.specs.Prelude.{◌≡◌, ◌&&◌, IfOk, true, not, nat_lt, nat_le};
ghost use Rattle.std.specs.List.{list_all};
ghost use Rattle.del_vector.specs.DeadRows.{AreRows};
ghost use Rattle.journal_form.specs.Versions.{rise_from};
ghost use Rattle.journal_replay.specs.Lookups.{dead_too, row_lives, takes_rows, least_after};

use del_vector::DelVector;
use dev_traits::Memory;
use std::alloc::Global;

/// A file of the current version, which goes by its number.
#[derive(Drop)]
pub struct CurrentFile {
    /// How many rows the file has.
    pub rows: u32,
    /// Its dead rows.
    pub dead: DelVector,
}

// Whether the rows rise.
fn rise(rows: &[u16]) -> bool
    ensures { result ≡ rise_from 0 rows.now }
{
    let mut least = 0u32;
    let mut left = rows;
    while let [row, more @ ..] = left {
        let row = u32::from(*row);
        if row < least {
            return false;
        }
        least = row + 1;
        left = more;
    }
    true
}

// Whether a file has these rows, and none of them is dead.
fn are_alive(file: &CurrentFile, rows: &[u16]) -> bool
    ensures { result ≡ list_all (row_lives file.now) rows.now }
{
    rows.iter().all(|row| u32::from(*row) < file.rows && !file.dead.contains(u32::from(*row)))
}

/// Whether these rows of a file may die now: at least one, rising, and each is alive.
pub(crate) fn takes(file: &CurrentFile, rows: &[u16]) -> bool
    ensures { result ≡ takes_rows file.now rows.now }
{
    !rows.is_empty() && rise(rows) && are_alive(file, rows)
}

fn widened(alloc: Global, rows: &[u16]) -> Result<Vec<u32>, Memory>
    ensures same { IfOk result (λ wide. wide.items ≡ rows.now) }
    ensures small { IfOk result (λ wide. AreRows wide.items) }
{
    let mut wide = Vec::with_capacity(alloc, rows.len())?;
    for row in rows {
        wide.push(u32::from(*row))?;
    }
    Ok(wide)
}

/// A file with more dead rows, which it takes.
pub(crate) fn with_dead(
    alloc: Global,
    file: &CurrentFile,
    rows: &[u16],
) -> Result<CurrentFile, Memory>
    requires { takes_rows file.now rows.now ≡ true }
    ensures { IfOk result (λ marked. marked ≡ dead_too rows.now file.now) }
{
    let wide = widened(alloc, rows)?;
    let dead = file.dead.with(alloc, &wide)?;
    Ok(CurrentFile {
        rows: file.rows,
        dead,
    })
}

/// Whether a number is above the last one.
pub(crate) fn is_behind(last: Option<u64>, number: u64) -> bool
    ensures { result ≡ nat_le (least_after last) number }
{
    match last {
        None => true,
        Some(before) => before < number,
    }
}
