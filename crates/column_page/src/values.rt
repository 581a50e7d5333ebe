ghost use Rattle.std.specs.Prelude.{◌≡◌, ◌≤◌, ◌<◌, ◌^◌, ◌++◌, OnOk, IfOk, OnErr, IsTrue, IsErrOf, length};
ghost use Rattle.pk_values.specs.Fits.{fits, fits_kind};
ghost use Rattle.pk_values.specs.Schemas.{is_kind};
ghost use Rattle.column_page.specs.CellBytes.{cell_bytes, day_bytes, flag_bytes, null_mark, number_bytes, text_bytes, u16_bytes, value_bytes, HasShape, IsShort};
ghost use Rattle.pk_values.specs.Shapes.{IsDay, IsFlag, IsNumber, IsText};
ghost use Rattle.fixed_code.specs.NumberCode.{FitsBytes};

use byteorder::{BigEndian, ByteOrder};
use fixed_code::put;
use pk_values::{Column, Kind, Value, by_kind};
use std::alloc::AllocError;

fn put_flag(out: &mut Vec<u8>, value: &Value) -> Result<(), AllocError>
    requires { IsFlag value.now }
    ensures { OnOk result (out.new.items ≡ out.old.items ++ flag_bytes value.now) }
{
    match value {
        Value::Bool(b) => Ok(out.push(u8::from(*b))?),
        _ => Ok(()),
    }
}

fn put_number<const W: usize>(out: &mut Vec<u8>, value: &Value) -> Result<(), AllocError>
    requires low { 1 ≤ W }
    requires high { W ≤ 16 }
    requires number { IsNumber (FitsBytes W) value.now }
    ensures { OnOk result (out.new.items ≡ out.old.items ++ number_bytes W value.now) }
{
    match value {
        Value::Num(n) => out.extend_from_slice(&put::<W>(*n)),
        _ => Ok(()),
    }
}

fn put_day(out: &mut Vec<u8>, value: &Value) -> Result<(), AllocError>
    requires { IsDay (FitsBytes 4) value.now }
    ensures { OnOk result (out.new.items ≡ out.old.items ++ day_bytes value.now) }
{
    match value {
        Value::Day(n) => out.extend_from_slice(&put::<4>(i128::from(*n))),
        _ => Ok(()),
    }
}

/// Appends a number in two bytes, the high one first.
pub fn put_u16(out: &mut Vec<u8>, number: u16) -> Result<(), AllocError>
    ensures { OnOk result (out.new.items ≡ out.old.items ++ u16_bytes number) }
{
    let mut bytes = [0; 2];
    BigEndian::write_u16(&mut bytes, number);
    out.extend_from_slice(&bytes)
}

fn put_text(out: &mut Vec<u8>, value: &Value) -> Result<(), AllocError>
    requires { IsText IsShort value.now }
    ensures { OnOk result (out.new.items ≡ out.old.items ++ text_bytes value.now) }
{
    match value {
        Value::Text(text) => {
            let bytes = text.as_slice();
            put_u16(out, bytes.len() as u16)?;
            out.extend_from_slice(bytes)
        }
        _ => Ok(()),
    }
}

// Appends the bytes of a value other than NULL.
fn put_value(out: &mut Vec<u8>, kind: Kind, value: &Value) -> Result<(), AllocError>
    requires { HasShape kind value.now }
    ensures { OnOk result (out.new.items ≡ out.old.items ++ value_bytes kind value.now) }
{
    by_kind!(kind; put_flag(out, value); put_number(out, value); put_day(out, value); _ => put_text(out, value))
}

/// Appends the bytes of a cell.
pub fn put_cell(out: &mut Vec<u8>, column: &Column, value: &Value) -> Result<(), AllocError>
    requires kind { IsTrue (is_kind column.now.kind) }
    requires fits { IsTrue (fits column.now value.now) }
    ensures { OnOk result (out.new.items ≡ out.old.items ++ cell_bytes column.now value.now) }
{
    if let Value::Null = value {
        out.push(0)?;
        return Ok(());
    }
    if column.nullable {
        out.push(1)?;
    }
    put_value(out, column.kind, value)
}
