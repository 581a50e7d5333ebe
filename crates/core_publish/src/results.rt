ghost use Rattle.std.specs.Prelude.{◌≡◌, ◌<◌, ◌++◌, ◌∷◌, [], All, IfOk, OnOk, length, option_map, option_to_list};
ghost use Rattle.std.specs.List.{IsDistinct};
ghost use Rattle.core_publish.specs.Lines.{IsRanked, lines_in, same_line};
ghost use Rattle.core_publish.specs.Results.{place_at, row_left};
ghost use Rattle.core_publish.specs.Leaving.{HasResults, LeavesMore};

use crate::lines::{Rank, code_of, is_named_next, op_at};
use index_level0::{KeyBytes, Place};
use pk_model::Op;
use pk_values::{Items, Key, Row, Schema, Value};
use std::alloc::{AllocError, Global};
use std::mem;

/// How many rows a file has, but for the last one.
pub const FILE_ROWS: usize = 65536;

/// What a load leaves: the rows that it writes, in the order of their keys, and the code of each key that it touches
/// with the place of its row among them, counted in files of 65,536 rows, or none.
#[derive(Drop)]
pub struct Results {
    pub rows: Vec<Row>,
    pub entries: Vec<(KeyBytes, Option<Place>)>,
}

// The place of a row in files of 65,536 rows.
fn place_at(row: usize) -> Place
    ensures { result ≡ place_at row }
{
    Place {
        segment: (row / FILE_ROWS) as u64,
        row: (row % FILE_ROWS) as u32,
    }
}

impl Results {
    fn with_room(alloc: Global, keys: usize) -> Result<Results, AllocError>
        ensures rows { IfOk result (λ results. results.rows.items ≡ []) }
        ensures entries { IfOk result (λ results. results.entries.items ≡ []) }
    {
        Ok(Results {
            rows: Vec::with_capacity(alloc, keys)?,
            entries: Vec::with_capacity(alloc, keys)?,
        })
    }

    // Adds a row, and answers its place.
    fn add_row(&mut self, row: Row) -> Result<Place, AllocError>
        ensures rows { OnOk result (self.new.rows.items ≡ self.old.rows.items ++ row ∷ []) }
        ensures entries { OnOk result (self.new.entries.items ≡ self.old.entries.items) }
        ensures place { IfOk result (λ place. place ≡ place_at (length self.old.rows.items)) }
    {
        let place = place_at(self.rows.len());
        self.rows.push(row)?;
        Ok(place)
    }

    // Adds the code of a key and its row, if it has one.
    fn add(&mut self, code: KeyBytes, row: Option<Row>) -> Result<(), AllocError>
        ensures rows { OnOk result (self.new.rows.items ≡ self.old.rows.items ++ option_to_list row) }
        ensures entries { OnOk result (self.new.entries.items ≡ self.old.entries.items
            ++ (code, option_map (λ _. place_at (length self.old.rows.items)) row) ∷ []) }
    {
        let place = match row {
            Some(row) => Some(self.add_row(row)?),
            None => None,
        };
        self.entries.push((code, place))?;
        Ok(())
    }
}

// Moves the cells of a key and the others into a row of their own. What they stood in is left empty, with its memory.
fn moved_row(alloc: Global, key: &mut Key, cells: &mut Items<Value>) -> Result<Row, AllocError>
    ensures { IfOk result (λ row. row ≡ key.old ++ cells.old) }
{
    let mut others = mem::replace(cells, Items::new(alloc)).into_vec();
    let count = key.cells.len().saturating_add(others.len());
    let mut row = Vec::with_capacity(alloc, count)?;
    row.append(&mut key.cells)?;
    row.append(&mut others)?;
    *cells = Items::from_vec(others);
    Ok(Row { cells: row })
}

// Takes the row out that a line leaves, if it leaves one.
fn take_row(alloc: Global, op: &mut Op) -> Result<Option<Row>, AllocError>
    ensures { IfOk result (λ row. row ≡ row_left op.old) }
{
    match op {
        Op::Delete { .. } => Ok(None),
        Op::Upsert { key, cells } => Ok(Some(moved_row(alloc, key, cells)?)),
    }
}

// Adds what a line leaves, where no later line names its key.
fn settle(
    alloc: Global,
    schema: &Schema,
    ops: &mut Vec<Op>,
    rank: &Rank,
    later: &[Rank],
    results: &mut Results,
) -> Result<(), AllocError>
    requires ranked { All (IsRanked schema.now ops.old.items) (rank.now ∷ later.now) }
    requires apart { IsDistinct same_line (rank.now ∷ later.now) }
    ensures leaves { OnOk result (LeavesMore schema.now (lines_in ops.old.items (rank.now ∷ later.now))
        (lines_in ops.new.items later.now) results.old results.new) }
    ensures ranked { OnOk result (All (IsRanked schema.now ops.new.items) later.now) }
{
    if is_named_next(ops, rank, later) {
        return Ok(());
    }
    let code = code_of(alloc, schema, op_at(ops, rank.line).key())?;
    let row = take_row(alloc, &mut ops[rank.line])?;
    results.add(code, row)?;
    Ok(())
}

/// What lines leave that stand in these places, in the order of their keys. The cells move into rows of their own, in
/// that order; the lines go away in file order, all at once.
pub fn results_of(
    alloc: Global,
    schema: &Schema,
    ops: Vec<Op>,
    order: &[Rank],
) -> Result<Results, AllocError>
    requires ranked { All (IsRanked schema.now ops.items) order.now }
    requires apart { IsDistinct same_line order.now }
    ensures { IfOk result (λ results.
        HasResults schema.now (lines_in ops.items order.now) results.rows.items results.entries.items) }
{
    let mut ops = ops;
    let mut results = Results::with_room(alloc, order.len())?;
    let mut left = order;
    while let Some((rank, later)) = left.split_first() {
        settle(alloc, schema, &mut ops, rank, later, &mut results)?;
        left = later;
    }
    Ok(results)
}
