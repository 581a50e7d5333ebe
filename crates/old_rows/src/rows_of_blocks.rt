ghost use Rattle.std.specs.Prelude.{◌≡◌, All, IfErr, IfOk, IsTrue, OnOk, length};
ghost use Rattle.std.specs.Ordering.{eq_by_cmp};
ghost use Rattle.pk_values.specs.Order.{key_cmp};
ghost use Rattle.pk_values.specs.Schemas.{fits_row, key_of};
ghost use Rattle.old_rows.specs.Reading.{HaveKeys, index_damage};
ghost use Rattle.old_rows.specs.Taking.{FillsMore, IsMissing, IsTaken, MayMiss};

use crate::wanted::Wanted;
use del_vector::DelVector;
use dev_traits::{Damaged, Part, ReadFault, Shown};
use partial_loads::Folded;
use pk_values::{Key, Row, Schema};
use std::alloc::Global;

/// The damage of an index that names a row which isn't a live one, or is another key's.
pub fn astray() -> ReadFault
    ensures { result ≡ ReadFault.Damaged index_damage }
{
    ReadFault::Damaged(Damaged {
        file: 0,
        part: Part::Area(2),
        shown: Shown::Form,
    })
}

/// Whether a row has a key.
pub fn has_key(schema: &Schema, row: &Row, key: &Key) -> bool
    requires { IsTrue (fits_row schema.now row.now) }
    ensures { result ≡ eq_by_cmp key_cmp (key_of schema.now row.now) key.now }
{
    let keys = schema.keys() as usize;
    let there = &row.cells[..keys];
    let wanted = &key.cells[..];
    there.cmp(&wanted).is_eq()
}

// The row of a key among those of a block, where a live one of its stands in this place of the file.
fn row_of(
    alloc: Global,
    schema: &Schema,
    rows: &[Row],
    dead: &DelVector,
    row: u32,
    key: &Key,
) -> Result<Row, ReadFault>
    requires { All (λ row. IsTrue (fits_row schema.now row)) rows.now }
    ensures taken { IfOk result (IsTaken schema.now rows.now dead.now row key.now) }
    ensures missing { IfErr result (IsMissing schema.now rows.now dead.now row key.now) }
{
    let place = (row % 1024) as usize;
    if place >= rows.len() || dead.contains(row) {
        return Err(astray());
    }
    let there = &rows[place];
    if !has_key(schema, there, key) {
        return Err(astray());
    }
    Ok(there.copy(alloc)?)
}

/// Takes the old rows of keys from the rows of their block.
pub fn take_rows(
    alloc: Global,
    schema: &Schema,
    rows: &[Row],
    dead: &DelVector,
    keys: &[Folded],
    wanted: &[Wanted],
    olds: &mut Vec<Option<Row>>,
) -> Result<(), ReadFault>
    requires fit { All (λ row. IsTrue (fits_row schema.now row)) rows.now }
    requires there { HaveKeys keys.now wanted.now }
    requires long { length olds.old.items ≡ length keys.now }
    ensures taken { OnOk result (FillsMore schema.now rows.now dead.now keys.now wanted.now
        olds.old.items olds.new.items) }
    ensures missing { IfErr result (MayMiss schema.now rows.now dead.now keys.now wanted.now) }
    ensures long { length olds.new.items ≡ length keys.now }
{
    for w in wanted {
        let row = row_of(alloc, schema, rows, dead, w.place.row, &keys[w.key].key)?;
        olds[w.key] = Some(row);
    }
    Ok(())
}
