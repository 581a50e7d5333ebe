ghost use Rattle.std.specs.Prelude.{◌≡◌, ◌≢◌, Some, None, Ok, Err, IfOk, IfErr, OnOk, option_map, [], ◌∷◌, ◌++◌, ◌+◌, ◌^◌, ◌<◌};
ghost use Rattle.serde_json.specs.View.{items_view, view};
ghost use Rattle.schema_json.specs.Tables.{columns_in, columns_of, has_members, json_value, keys_in, number_told, table_in, table_of};

use crate::columns::{ColumnFault, ColumnShape, column_of};
use pk_values::{Column, Schema, SchemaFault};
use serde_json::Value as Json;
use std::alloc::Global;
use thiserror::Error;

/// What of a JSON value isn't of the form of a table. Of several the one that this list has first is
/// told.
#[derive(Debug, Drop, PartialEq, Error)]
pub enum TableShape {
    /// The value is no object, or hasn't exactly two members.
    #[error("it is not an object of `columns` and `keys`, and of nothing else")]
    Members,
    /// There is no `columns`, or it is no array.
    #[error("`columns` is not there, or is not an array")]
    Columns,
    /// There is no `keys`, or it is no integer from 0 to 4,294,967,295.
    #[error("`keys` is not there, or is not a whole number")]
    Keys,
}

/// Why a text describes no table. The fault that this list has first is told, and among columns
/// of a wrong form that of the first.
#[derive(Debug, Drop, PartialEq, Error)]
pub enum TableFault {
    /// The text is no JSON.
    #[error("the text is not JSON, which has no comment, no comma before `]` or `}}`, and no byte order mark")]
    NotJson,
    /// The whole isn't of the form of a table.
    #[error("{0}")]
    Shape(TableShape),
    /// The column of this number, counted from 1, isn't of the form of a column.
    #[error("column {0}: {1}")]
    Column(u32, ColumnShape),
    /// The columns make no schema.
    #[error("{0}")]
    Bad(SchemaFault),
    /// Memory ran out.
    #[error("memory ran out")]
    Memory,
}

fn json_of(alloc: Global, bytes: &[u8]) -> Result<Json, TableFault>
    ensures ok { IfOk result (λ v. json_value bytes.now ≡ Some (view v)) }
    ensures not_json { IfErr result (λ e. e ≢ TableFault.Memory → (e ≡ TableFault.NotJson) × (json_value bytes.now ≡ None)) }
{
    match Json::from_slice(alloc, bytes) {
        Ok(value) => Ok(value),
        Err(e) => {
            if e.is_memory() {
                Err(TableFault::Memory)
            } else {
                Err(TableFault::NotJson)
            }
        }
    }
}

fn has_two_members(value: &Json) -> bool
    ensures { result ≡ has_members 2 (view value.now) }
{
    match value.as_object() {
        Some(object) => object.len() == 2,
        None => false,
    }
}

fn columns_in(value: &Json) -> Option<&Vec<Json>>
    ensures { option_map (λ v. items_view v.now.items) result ≡ columns_in (view value.now) }
{
    value.get("columns")?.as_array()
}

fn keys_in(value: &Json) -> Option<u32>
    ensures { result ≡ keys_in (view value.now) }
{
    let keys = value.get("keys")?.as_u64()?;
    match u32::try_from(keys) {
        Ok(keys) => Some(keys),
        Err(_) => None,
    }
}

// How a fault tells the column in this place, counted from 0.
fn number_told(place: usize) -> u32
    requires { place < 2 ^ 63 }
    ensures { result ≡ number_told (place + 1) }
{
    u32::try_from(place + 1).unwrap_or(u32::MAX)
}

fn push_column(columns: &mut Vec<Column>, column: Column) -> Result<(), TableFault>
    ensures ok { OnOk result (columns.new.items ≡ columns.old.items ++ column ∷ []) }
    ensures memory { IfErr result (λ e. e ≡ TableFault.Memory) }
{
    match columns.push(column) {
        Ok(()) => Ok(()),
        Err(_) => Err(TableFault::Memory),
    }
}

fn columns_of(alloc: Global, items: &[Json]) -> Result<Vec<Column>, TableFault>
    ensures columns { IfOk result (λ v. columns_of 1 (items_view items.now) ≡ Ok v.items) }
    ensures fault { IfErr result (λ e. e ≢ TableFault.Memory → columns_of 1 (items_view items.now) ≡ Err e) }
{
    let mut columns = Vec::new(alloc);
    for (i, item) in items.iter().enumerate() {
        match column_of(alloc, item) {
            Ok(column) => push_column(&mut columns, column)?,
            Err(ColumnFault::Shape(shape)) => {
                return Err(TableFault::Column(number_told(i), shape));
            }
            Err(ColumnFault::Memory) => return Err(TableFault::Memory),
        }
    }
    Ok(columns)
}

fn table_in(alloc: Global, value: &Json) -> Result<Schema, TableFault>
    ensures table { IfOk result (λ schema. table_in (view value.now) ≡ Ok schema) }
    ensures fault { IfErr result (λ e. e ≢ TableFault.Memory → table_in (view value.now) ≡ Err e) }
{
    if !has_two_members(value) {
        return Err(TableFault::Shape(TableShape::Members));
    }
    let Some(items) = columns_in(value) else {
        return Err(TableFault::Shape(TableShape::Columns));
    };
    let Some(keys) = keys_in(value) else {
        return Err(TableFault::Shape(TableShape::Keys));
    };
    let columns = match columns_of(alloc, items) {
        Ok(columns) => columns,
        Err(fault) => return Err(fault),
    };
    match Schema::new(columns, keys) {
        Ok(schema) => Ok(schema),
        Err(fault) => Err(TableFault::Bad(fault)),
    }
}

/// The table that a JSON text describes.
///
/// The text is an object with exactly the members `columns`, an array, and `keys`, an integer from
/// 0 to 4,294,967,295. A column is an object with `name`, a text, and `type`, the name of a type in
/// any ASCII case, as `INT` or `VARCHAR(20)`. It may have `nullable`, true or false, which is false
/// where it isn't there, and `default`: null, or a text that is read as a cell of the column. Of a
/// member that stands twice the last one counts.
///
/// # Errors
/// The first of these that there is: `NotJson`, `Shape`, `Column` of the first column that isn't
/// one, `Bad`. `Memory` where memory ran out, which may come in place of any answer.
pub fn read_table(alloc: Global, bytes: &[u8]) -> Result<Schema, TableFault>
    ensures table { IfOk result (λ schema. table_of bytes.now ≡ Ok schema) }
    ensures fault { IfErr result (λ e. e ≢ TableFault.Memory → table_of bytes.now ≡ Err e) }
{
    match json_of(alloc, bytes) {
        Ok(value) => table_in(alloc, &value),
        Err(fault) => Err(fault),
    }
}
