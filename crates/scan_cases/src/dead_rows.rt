ghost use Rattle.std.specs.Prelude.{IsTrue};
ghost use Rattle.rowsets.specs.Marks.{Rises};
ghost use Rattle.del_vector.specs.DeadRows.{AreDeadRows};

use del_vector::DelVector;
use std::alloc::{AllocError, Global};

fn rise(rows: &[u32]) -> bool
    ensures { IsTrue result → Rises rows.now }
{
    for i in 1..rows.len() {
        if rows[i - 1] >= rows[i] {
            return false;
        }
    }
    true
}

// Whether these are rising rows below 65,536.
fn are_dead_rows(rows: &[u32]) -> bool
    ensures { IsTrue result → AreDeadRows rows.now }
{
    rise(rows) && rows.iter().all(|row| *row < 65_536)
}

/// The number that a word names, or 0.
pub fn number(word: &str) -> u32 {
    word.parse::<u32>().unwrap_or(0)
}

/// The numbers in a word, with commas between; `-` has none.
pub fn listed(alloc: Global, words: &str) -> Result<Vec<u32>, AllocError> {
    let mut rows = Vec::new(alloc);
    for word in words.split(',') {
        if let Ok(row) = word.parse::<u32>() {
            rows.push(row)?;
        }
    }
    Ok(rows)
}

fn even(alloc: Global) -> Result<Vec<u32>, AllocError> {
    let mut rows = Vec::new(alloc);
    for half in 0..32_768 {
        rows.push(2 * half)?;
    }
    Ok(rows)
}

fn between(alloc: Global, first: u32, last: u32) -> Result<Vec<u32>, AllocError> {
    let mut rows = Vec::new(alloc);
    for row in first..last.saturating_add(1) {
        rows.push(row)?;
    }
    Ok(rows)
}

// The rows that words name: `even`, `FIRST to LAST` and `ROW,ROW..`.
fn rows_of(alloc: Global, words: &str) -> Result<Vec<u32>, AllocError> {
    if words == "even" {
        return even(alloc);
    }
    match words.split_once(" to ") {
        Some((first, last)) => between(alloc, number(first), number(last)),
        None => listed(alloc, words),
    }
}

// The dead rows, and those that words name.
fn united(alloc: Global, dead: &DelVector, words: &str) -> Result<Option<DelVector>, AllocError> {
    let rows = rows_of(alloc, words)?;
    if are_dead_rows(&rows) {
        Ok(Some(dead.with(alloc, &rows)?))
    } else {
        Ok(None)
    }
}

// How many rows are dead, and the first and the last of them.
fn told(alloc: Global, dead: &DelVector) -> Result<String, AllocError> {
    let count = dead.count();
    let rows = dead.rows(alloc)?;
    match (rows.first(), rows.last()) {
        (Some(first), Some(last)) => format!(in alloc; "{count} dead, {first} to {last}"),
        _ => format!(in alloc; "{count} dead"),
    }
}

fn with_itself(alloc: Global, dead: &DelVector) -> Result<Option<DelVector>, AllocError> {
    let rows = dead.rows(alloc)?;
    Ok(Some(dead.with(alloc, &rows)?))
}

fn changed(alloc: Global, dead: &DelVector, words: &str) -> Result<Option<DelVector>, AllocError> {
    match words {
        "none" => Ok(Some(DelVector::empty())),
        "again" => with_itself(alloc, dead),
        _ => united(alloc, dead, words),
    }
}

/// `dead none`: no row is dead. `dead again`, `dead even`, `dead FIRST to LAST` and `dead ROW,ROW..`: the rows that are
/// dead, and these.
pub fn dead(alloc: Global, dead: &mut DelVector, words: &str) -> Result<String, AllocError> {
    match changed(alloc, dead, words)? {
        Some(now) => {
            *dead = now;
            told(alloc, dead)
        }
        None => "no rows".to_string(alloc),
    }
}

/// `is_dead ROW`.
pub fn is_dead(alloc: Global, dead: &DelVector, words: &str) -> Result<String, AllocError> {
    format!(in alloc; "{}", dead.contains(number(words)))
}
