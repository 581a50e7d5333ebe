//! What follows from the definitions of schemas, rows and keys. Each function states laws and
//! does nothing when it is called.

ghost use Rattle.std.specs.Prelude.{◌≡◌, ◌≤◌, ◌↔◌, ℕ, List, IsTrue, length, None, Some, slice_get};
ghost use Rattle.std.specs.Cmp.{IsTotalOrder};
ghost use Rattle.std.specs.declared.cmp.Ordering.TheVariants.{Equal};
ghost use Rattle.pk_values.specs.Order.{key_cmp};
ghost use Rattle.pk_values.specs.Schemas.{IsLawfulColumn, Layout, fits_key, fits_row, key_of, schema_fault};
ghost use Rattle.pk_values.specs.declared.cells.Column.{Column};
ghost use Rattle.pk_values.specs.declared.cells.Value.{Value};

/// Any two keys compare, the order passes on from key to key, and only a key itself is equal to it.
pub fn key_order()
    ensures total { IsTotalOrder key_cmp }
    ensures exact { (a b : List Value) → (key_cmp a b ≡ Equal) ↔ (a ≡ b) }
{}

/// A schema has 1 to 64 columns, 1 to 8 of them are its key, and each column is lawful.
pub fn schema_columns()
    ensures some_columns { (s : Layout) → schema_fault s.columns s.keys ≡ None → 1 ≤ length s.columns }
    ensures most_columns { (s : Layout) → schema_fault s.columns s.keys ≡ None → length s.columns ≤ 64 }
    ensures some_keys { (s : Layout) → schema_fault s.columns s.keys ≡ None → 1 ≤ s.keys }
    ensures most_keys { (s : Layout) → schema_fault s.columns s.keys ≡ None → s.keys ≤ 8 }
    ensures keys_within { (s : Layout) → schema_fault s.columns s.keys ≡ None → s.keys ≤ length s.columns }
    ensures each { (s : Layout) (i : ℕ) (c : Column) → schema_fault s.columns s.keys ≡ None
        → slice_get s.columns i ≡ Some c → IsLawfulColumn s i c }
{}

/// A row that fits has a cell for each column, and its first cells are a key that fits.
pub fn row_and_key()
    ensures cells { (s : Layout) (row : List Value) → IsTrue (fits_row s row) → length row ≡ length s.columns }
    ensures key { (s : Layout) (row : List Value) → IsTrue (fits_row s row) → IsTrue (fits_key s (key_of s row)) }
{}
