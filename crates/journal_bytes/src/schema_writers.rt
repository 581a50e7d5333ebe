ghost use Rattle.std.specs.Prelude.{◌≡◌, ◌++◌, All, OnOk};
ghost use Rattle.std.specs.List.{flat_map};
ghost use Rattle.value_bytes.specs.Fields.{optional};
ghost use Rattle.journal_bytes.specs.Schemas.{column as column_field, kind as kind_field, nullable_cell};
ghost use Rattle.journal_bytes.specs.Schemas.{schema as schema_field};

use column_page::put_cell;
use pk_values::{Column, Kind, Octets, Schema, Value};
use std::alloc::{AllocError, Global};
use value_bytes::{put_flag, put_short_text, put_u16};

fn put_kind(out: &mut Vec<u8>, kind: Kind) -> Result<(), AllocError>
    requires { (kind_field).fits kind }
    ensures { OnOk result (out.new.items ≡ out.old.items ++ (kind_field).bytes kind) }
{
    let tag = match kind {
        Kind::Boolean => 1,
        Kind::TinyInt => 2,
        Kind::SmallInt => 3,
        Kind::Int => 4,
        Kind::BigInt => 5,
        Kind::LargeInt => 6,
        Kind::Date => 7,
        Kind::Varchar(most) => {
            out.push(8)?;
            return put_u16(out, most as u16);
        }
    };
    out.push(tag)?;
    Ok(())
}

fn put_default(
    alloc: Global,
    out: &mut Vec<u8>,
    kind: Kind,
    default: &Option<Value>,
) -> Result<(), AllocError>
    requires { (optional (nullable_cell kind)).fits default.now }
    ensures { OnOk result (out.new.items ≡ out.old.items ++ (optional (nullable_cell kind)).bytes default.now) }
{
    match default {
        None => {
            out.push(0)?;
            Ok(())
        }
        Some(value) => {
            out.push(1)?;
            let name = Octets::from_slice(alloc, &[])?;
            let column = Column {
                name,
                kind,
                nullable: true,
                default: None,
            };
            put_cell(out, &column, value)
        }
    }
}

fn put_column(alloc: Global, out: &mut Vec<u8>, value: &Column) -> Result<(), AllocError>
    requires { (column_field).fits value.now }
    ensures { OnOk result (out.new.items ≡ out.old.items ++ (column_field).bytes value.now) }
{
    put_short_text(out, &value.name)?;
    put_kind(out, value.kind)?;
    put_flag(out, value.nullable)?;
    put_default(alloc, out, value.kind, &value.default)
}

fn put_columns(alloc: Global, out: &mut Vec<u8>, columns: &[Column]) -> Result<(), AllocError>
    requires { All (column_field).fits columns.now }
    ensures { OnOk result (out.new.items ≡ out.old.items ++ flat_map (column_field).bytes columns.now) }
{
    for column in columns {
        put_column(alloc, out, column)?;
    }
    Ok(())
}

pub(crate) fn put_schema(
    alloc: Global,
    out: &mut Vec<u8>,
    schema: &Schema,
) -> Result<(), AllocError>
    requires { (schema_field).fits schema.now }
    ensures { OnOk result (out.new.items ≡ out.old.items ++ (schema_field).bytes schema.now) }
{
    let columns = schema.columns();
    out.push(columns.len() as u8)?;
    out.push(schema.keys() as u8)?;
    put_columns(alloc, out, columns)
}
