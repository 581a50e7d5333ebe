ghost use Rattle.std.specs.Prelude.{◌≡◌, IfErr, IfOk, IsTrue};
ghost use Rattle.value_bytes.specs.Fields.{optional};
ghost use Rattle.value_bytes.specs.Reads.{NotRead, Reads};
ghost use Rattle.value_bytes.specs.declared.reads.Unread.TheVariants.{NotOne};
ghost use Rattle.pk_values.specs.Schemas.{is_kind};
ghost use Rattle.journal_bytes.specs.Schemas.{kind as kind_field, nullable_cell};

use column_page::{PageFault, ReadValue, read_cell};
use pk_values::{Column, Kind, Octets, Schema, Value};
use std::alloc::Global;
use value_bytes::{FieldReader, Unread, read_flag, read_short_text, read_times, read_u8, read_u16};

// A kind, and what follows it.
fn read_kind(bytes: &[u8]) -> Result<(Kind, &[u8]), Unread>
    ensures one { IfOk result (λ p. Reads kind_field bytes.now p.0 p.1.now) }
    ensures none { IfErr result (λ fault. fault ≡ NotOne → NotRead kind_field bytes.now) }
{
    match bytes {
        [1, rest @ ..] => Ok((Kind::Boolean, rest)),
        [2, rest @ ..] => Ok((Kind::TinyInt, rest)),
        [3, rest @ ..] => Ok((Kind::SmallInt, rest)),
        [4, rest @ ..] => Ok((Kind::Int, rest)),
        [5, rest @ ..] => Ok((Kind::BigInt, rest)),
        [6, rest @ ..] => Ok((Kind::LargeInt, rest)),
        [7, rest @ ..] => Ok((Kind::Date, rest)),
        [8, rest @ ..] => match read_u16(rest) {
            Ok((most, left)) => {
                if 1 <= most && most <= 65_533 {
                    Ok((Kind::Varchar(most as u32), left))
                } else {
                    Err(Unread::NotOne)
                }
            }
            Err(fault) => Err(fault),
        },
        _ => Err(Unread::NotOne),
    }
}

// A cell of a column of a kind that takes NULL, and what follows it.
fn read_nullable(alloc: Global, kind: Kind, bytes: &[u8]) -> Result<(Value, &[u8]), Unread>
    requires { IsTrue (is_kind kind) }
    ensures one { IfOk result (λ p. Reads (nullable_cell kind) bytes.now p.0 p.1.now) }
    ensures none { IfErr result (λ fault. fault ≡ NotOne → NotRead (nullable_cell kind) bytes.now) }
{
    let name = match Octets::from_slice(alloc, &[]) {
        Ok(name) => name,
        Err(_) => return Err(Unread::Memory),
    };
    let column = Column {
        name,
        kind,
        nullable: true,
        default: None,
    };
    match read_cell(alloc, &column, bytes) {
        Ok(ReadValue { value, len }) => Ok((value, &bytes[len..])),
        Err(PageFault::NotAPage) => Err(Unread::NotOne),
        Err(PageFault::Memory) => Err(Unread::Memory),
    }
}

// A default, where there is one, and what follows it.
fn read_default(alloc: Global, kind: Kind, bytes: &[u8]) -> Result<(Option<Value>, &[u8]), Unread>
    requires { IsTrue (is_kind kind) }
    ensures one { IfOk result (λ p. Reads (optional (nullable_cell kind)) bytes.now p.0 p.1.now) }
    ensures none { IfErr result (λ fault. fault ≡ NotOne → NotRead (optional (nullable_cell kind)) bytes.now) }
{
    match bytes {
        [0, rest @ ..] => Ok((None, rest)),
        [1, rest @ ..] => match read_nullable(alloc, kind, rest) {
            Ok((value, left)) => Ok((Some(value), left)),
            Err(fault) => Err(fault),
        },
        _ => Err(Unread::NotOne),
    }
}

// A column.
pub(crate) struct ColumnReader;

impl FieldReader for ColumnReader {
    ghost use Rattle.journal_bytes.specs.Schemas.{column as the_column};
    ghost use Rattle.journal_bytes.specs.RecordsTell.{column-tells};

    type Value = Column;

    ghost field = { the_column };

    fn read(alloc: Global, bytes: &[u8]) -> Result<(Column, &[u8]), Unread> {
        match read_short_text(alloc, bytes) {
            Ok((name, after_name)) => match read_kind(after_name) {
                Ok((kind, after_kind)) => match read_flag(after_kind) {
                    Ok((nullable, after_flag)) => match read_default(alloc, kind, after_flag) {
                        Ok((default, left)) => Ok((
                            Column {
                                name,
                                kind,
                                nullable,
                                default,
                            },
                            left,
                        )),
                        Err(fault) => Err(fault),
                    },
                    Err(fault) => Err(fault),
                },
                Err(fault) => Err(fault),
            },
            Err(fault) => Err(fault),
        }
    }

    ghost tells = { column-tells };
}

// A schema.
pub(crate) struct SchemaReader;

impl FieldReader for SchemaReader {
    ghost use Rattle.journal_bytes.specs.Schemas.{schema as the_schema};
    ghost use Rattle.journal_bytes.specs.RecordsTell.{schema-tells};

    type Value = Schema;

    ghost field = { the_schema };

    fn read(alloc: Global, bytes: &[u8]) -> Result<(Schema, &[u8]), Unread> {
        match read_u8(bytes) {
            Ok((count, after_count)) => match read_u8(after_count) {
                Ok((keys, after_keys)) => {
                    match read_times::<ColumnReader>(alloc, count as u64, after_keys) {
                        Ok((columns, left)) => match Schema::new(columns.into_vec(), keys as u32) {
                            Ok(schema) => Ok((schema, left)),
                            Err(_) => Err(Unread::NotOne),
                        },
                        Err(fault) => Err(fault),
                    }
                }
                Err(fault) => Err(fault),
            },
            Err(fault) => Err(fault),
        }
    }

    ghost tells = { schema-tells };
}
