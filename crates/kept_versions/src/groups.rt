ghost use Rattle.std.specs.Prelude.{◌≡◌, ◌+◌, ◌^◌, ◌<◌, ◌≤◌, IfOk, IfSome, IfNone, true, false, length, drop, map, get_or};
ghost use Rattle.std.specs.List.{AllByRecursion};
ghost use Rattle.kept_versions.specs.Marking.{are_small, grouped, run};

use dev_traits::Memory;
use index_level0::Place;
use journal_form::DeadRows;
use pk_values::Items;
use std::alloc::Global;

// Where the places of a file end that begin at one.
fn run_end(dead: &[Place], from: usize, file: u64) -> usize
    requires { from ≤ length dead.now }
    ensures end { result ≡ from + run file (drop from dead.now) }
    ensures within { result ≤ length dead.now }
{
    let mut end = from;
    while end < dead.len() && dead[end].segment == file {
        end += 1;
    }
    end
}

// The rows of places, or None where a delete vector can't hold one.
fn rows_of(alloc: Global, places: &[Place]) -> Result<Option<Items<u16>>, Memory>
    ensures rows { IfOk result (λ told. IfSome told (λ rows. rows ≡ map (λ p. p.row) places.now)) }
    ensures small { IfOk result (λ told. IfSome told (λ _. are_small places.now ≡ true)) }
    ensures none { IfOk result (λ told. IfNone told (are_small places.now ≡ false)) }
{
    let mut rows = Items::with_capacity(alloc, places.len())?;
    for place in places {
        if place.row >= 65536 {
            return Ok(None);
        }
        rows.push(place.row as u16)?;
    }
    Ok(Some(rows))
}

/// The places of rows by their files, or None where a delete vector can't hold one of the rows.
pub fn group(alloc: Global, dead: &[Place]) -> Result<Option<Items<DeadRows>>, Memory>
    ensures groups { IfOk result (λ told. IfSome told (λ changed. changed ≡ grouped dead.now)) }
    ensures small { IfOk result (λ told. IfSome told (λ _. are_small dead.now ≡ true)) }
    ensures range { IfOk result (λ told. IfSome told (λ changed. AllByRecursion (λ c. c.file < 2 ^ 64) changed)) }
    ensures none { IfOk result (λ told. IfNone told (are_small dead.now ≡ false)) }
{
    let mut changed = Items::new(alloc);
    let mut i = 0;
    while i < dead.len() {
        let file = dead[i].segment;
        let end = run_end(dead, i, file);
        let Some(rows) = rows_of(alloc, &dead[i..end])? else {
            return Ok(None);
        };
        changed.push(DeadRows { file, rows })?;
        i = end;
    }
    Ok(Some(changed))
}
