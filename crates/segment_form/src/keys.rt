ghost use Rattle.std.specs.Prelude.{◌≡◌, ◌↔◌, All, IsTrue};
ghost use Rattle.std.specs.Ordering.{is_lt};
ghost use Rattle.pk_values.specs.Order.{key_cmp};
ghost use Rattle.pk_values.specs.Schemas.{fits_row, key_of};
ghost use Rattle.segment_form.specs.Segments.{KeysRise};

use pk_values::{Row, Schema};

/// Whether the key of a row is less than that of another one.
pub fn is_below(schema: &Schema, first: &Row, second: &Row) -> bool
    requires first_fits { IsTrue (fits_row schema.now first.now) }
    requires second_fits { IsTrue (fits_row schema.now second.now) }
    ensures { result ≡ is_lt (key_cmp (key_of schema.now first.now) (key_of schema.now second.now)) }
{
    let keys = schema.keys() as usize;
    let least = &first.cells[..keys];
    let greatest = &second.cells[..keys];
    least.cmp(&greatest).is_lt()
}

/// Whether each row's key is less than the next one's.
pub fn keys_rise(schema: &Schema, rows: &[Row]) -> bool
    requires { All (λ row. IsTrue (fits_row schema.now row)) rows.now }
    ensures { IsTrue result ↔ KeysRise schema.now rows.now }
{
    for i in 1..rows.len() {
        if !is_below(schema, &rows[i - 1], &rows[i]) {
            return false;
        }
    }
    true
}
