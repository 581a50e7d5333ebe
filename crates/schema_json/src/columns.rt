ghost use Rattle.std.specs.Prelude.{◌≡◌, ◌↔◌, Some, None, Ok, IfOk, IfErr, IsErrOf, option_map};
ghost use Rattle.serde_json.specs.Find.{get};
ghost use Rattle.serde_json.specs.View.{view};
ghost use Rattle.schema_json.specs.Tables.{TellsShape, column_of, default_in, default_value, has_column_members, kind_in, name_in, nullable_in, one_if_there};

use crate::type_names::kind_named;
use cell_text::{CellFault, read_cell};
use pk_values::{Column, Kind, Octets, Value};
use serde_json::Value as Json;
use std::alloc::Global;
use thiserror::Error;

/// What of a JSON value isn't of the form of a column. Of several the one that this list has first
/// is told.
#[derive(Clone, Copy, Debug, Drop, PartialEq, Error)]
pub enum ColumnShape {
    /// The value is no object, or has a member too many or too few.
    #[error("it is not an object of `name` and `type`, with `nullable` and `default` where they are wanted")]
    Members,
    /// There is no `name`, or it is no text.
    #[error("`name` is not there, or is not a text")]
    Name,
    /// There is no `type`, or it is no text that names a type.
    #[error("`type` is not there, or is none of BOOLEAN, TINYINT, SMALLINT, INT, BIGINT, LARGEINT, DATE and VARCHAR(n)")]
    Type,
    /// `nullable` is there, and neither true nor false.
    #[error("`nullable` is neither true nor false")]
    Nullable,
    /// `default` is there, and neither null nor a text that a cell of the type may be.
    #[error("`default` is neither null nor a text that reads as a cell of the type")]
    Default,
}

/// Why a JSON value gave no column.
#[derive(Drop)]
pub(crate) enum ColumnFault {
    /// It isn't of the form of a column.
    Shape(ColumnShape),
    /// Memory ran out.
    Memory,
}

// 1 for a member that is there.
fn count_of(value: &Json, name: &str) -> usize
    ensures { result ≡ one_if_there (get name.now (view value.now)) }
{
    match value.get(name) {
        Some(_) => 1,
        None => 0,
    }
}

fn has_column_members(value: &Json) -> bool
    ensures { result ≡ has_column_members (view value.now) }
{
    let nullable = count_of(value, "nullable");
    let default = count_of(value, "default");
    match value.as_object() {
        Some(object) => object.len() == 2 + nullable + default,
        None => false,
    }
}

fn name_in(value: &Json) -> Option<&str>
    ensures { option_map (λ name. name.now) result ≡ name_in (view value.now) }
{
    value.get("name")?.as_str()
}

fn kind_in(value: &Json) -> Option<Kind>
    ensures { result ≡ kind_in (view value.now) }
{
    let name = value.get("type")?.as_str()?;
    kind_named(name.as_bytes())
}

fn nullable_in(value: &Json) -> Option<bool>
    ensures { result ≡ nullable_in (view value.now) }
{
    match value.get("nullable") {
        Some(nullable) => nullable.as_bool(),
        None => Some(false),
    }
}

fn default_value(alloc: Global, kind: &Kind, value: &Json) -> Result<Value, CellFault>
    ensures value { IfOk result (λ v. default_value kind.now (view value.now) ≡ Some v) }
    ensures bad { IsErrOf result CellFault.BadCell ↔ (default_value kind.now (view value.now) ≡ None) }
{
    match value {
        Json::Null => Ok(Value::Null),
        Json::String(text) => read_cell(alloc, kind, text.as_bytes()),
        _ => Err(CellFault::BadCell),
    }
}

fn default_in(alloc: Global, kind: &Kind, value: &Json) -> Result<Option<Value>, CellFault>
    ensures value { IfOk result (λ o. default_in kind.now (view value.now) ≡ Some o) }
    ensures bad { IsErrOf result CellFault.BadCell ↔ (default_in kind.now (view value.now) ≡ None) }
{
    match value.get("default") {
        None => Ok(None),
        Some(default) => match default_value(alloc, kind, default) {
            Ok(value) => Ok(Some(value)),
            Err(fault) => Err(fault),
        },
    }
}

/// The column that a JSON object describes.
pub(crate) fn column_of(alloc: Global, value: &Json) -> Result<Column, ColumnFault>
    ensures column { IfOk result (λ c. column_of (view value.now) ≡ Ok c) }
    ensures fault { IfErr result (TellsShape (column_of (view value.now))) }
{
    if !has_column_members(value) {
        return Err(ColumnFault::Shape(ColumnShape::Members));
    }
    let Some(name) = name_in(value) else {
        return Err(ColumnFault::Shape(ColumnShape::Name));
    };
    let Some(kind) = kind_in(value) else {
        return Err(ColumnFault::Shape(ColumnShape::Type));
    };
    let Some(nullable) = nullable_in(value) else {
        return Err(ColumnFault::Shape(ColumnShape::Nullable));
    };
    let default = match default_in(alloc, &kind, value) {
        Ok(default) => default,
        Err(CellFault::BadCell) => return Err(ColumnFault::Shape(ColumnShape::Default)),
        Err(CellFault::Memory) => return Err(ColumnFault::Memory),
    };
    match Octets::from_slice(alloc, name.as_bytes()) {
        Ok(name) => Ok(Column {
            name,
            kind,
            nullable,
            default,
        }),
        Err(_) => Err(ColumnFault::Memory),
    }
}
