ghost use Rattle.std.specs.Prelude.{◌≡◌, ◌==◌, ◌+◌, ◌*◌, ◌<◌, ◌≤◌, ℕ, IfOk, IfSome, IfNone, length, true, false};
ghost use Rattle.std.specs.List.{list_any};
ghost use Rattle.rowsets.specs.Scans.{alive};

use del_vector::DelVector;
use dev_traits::Memory;
use pk_values::Row;
use std::alloc::Global;

// Whether one of these rows is live.
fn has_live(dead: &DelVector, from: u32, to: u32) -> bool
    ensures some { result ≡ true → (r : ℕ) × (from ≤ r) × (r < to) × (list_any (λ d. d == r) dead.now ≡ false) }
    ensures none { result ≡ false → (r : ℕ) → from ≤ r → r < to → list_any (λ d. d == r) dead.now ≡ true }
{
    for row in from..to {
        if !dead.contains(row) {
            return true;
        }
    }
    false
}

/// The first block with a live row, from a block on, of a file with so many rows.
pub fn next_live(dead: &DelVector, rows: u32, from: u32) -> Option<u32>
    requires few { rows ≤ 65536 }
    ensures there { IfSome result (λ b. (from ≤ b) × (b * 1024 < rows)) }
    ensures live { IfSome result (λ b. (r : ℕ) × (b * 1024 ≤ r) × (r < b * 1024 + 1024) × (r < rows)
        × (list_any (λ d. d == r) dead.now ≡ false)) }
    ensures before { IfSome result (λ b. (r : ℕ) → from * 1024 ≤ r → r < b * 1024
        → list_any (λ d. d == r) dead.now ≡ true) }
    ensures none { IfNone result ((r : ℕ) → from * 1024 ≤ r → r < rows → list_any (λ d. d == r) dead.now ≡ true) }
{
    let blocks = rows.div_ceil(1024);
    for b in from..blocks {
        let first = b * 1024;
        if has_live(dead, first, rows.min(first + 1024)) {
            return Some(b);
        }
    }
    None
}

/// The live ones of rows, of which the first has a number.
pub fn live_rows(
    alloc: Global,
    rows: Vec<Row>,
    first: u32,
    dead: &DelVector,
) -> Result<Vec<Row>, Memory>
    requires { first + length rows.items ≤ 65536 }
    ensures { IfOk result (λ live. live.items ≡ alive dead.now first rows.items) }
{
    let mut live = Vec::with_capacity(alloc, rows.len())?;
    let mut number = first;
    let mut left = rows.into_iter();
    while let Some(row) = left.next() {
        if !dead.contains(number) {
            live.push(row)?;
        }
        number += 1;
    }
    Ok(live)
}
