ghost use Rattle.std.specs.Prelude.{◌≡◌, ◌≤◌, ◌<◌, ◌^◌, ◌++◌, IfErr, IfOk, IfSome, IfNone, IsTrue, length, take, drop};
ghost use Rattle.byteorder.specs.Endian.{big_number};
ghost use Rattle.pk_values.specs.Fits.{fits, fits_kind};
ghost use Rattle.pk_values.specs.Schemas.{is_kind};
ghost use Rattle.column_page.specs.CellBytes.{cell_bytes, day_bytes, flag_bytes, number_bytes, text_bytes, u16_bytes, value_bytes, HasShape, IsShort, NoneFirst, StandsFirst};
ghost use Rattle.pk_values.specs.Shapes.{IsDay, IsFlag, IsNumber, IsText};
ghost use Rattle.fixed_code.specs.NumberCode.{FitsBytes};

use crate::faults::PageFault;
use byteorder::{BigEndian, ByteOrder};
use fixed_code::get;
use pk_values::{Column, Kind, Octets, Value, by_kind};
use std::alloc::Global;

/// A value that was read, and how many bytes it took.
#[derive(Drop)]
pub struct ReadValue {
    pub value: Value,
    pub len: usize,
}

fn read_flag(bytes: &[u8]) -> Result<ReadValue, PageFault>
    ensures shape { IfOk result (λ r. IsFlag r.value) }
    ensures first { IfOk result (λ r. StandsFirst flag_bytes r.value r.len bytes.now) }
    ensures none { IfErr result (λ e. e ≡ PageFault.NotAPage → NoneFirst IsFlag flag_bytes bytes.now) }
{
    let flag = match bytes {
        [0, ..] => false,
        [1, ..] => true,
        _ => return Err(PageFault::NotAPage),
    };
    Ok(ReadValue {
        value: Value::Bool(flag),
        len: 1,
    })
}

fn read_number<const W: usize>(bytes: &[u8]) -> Result<ReadValue, PageFault>
    requires low { 1 ≤ W }
    requires high { W ≤ 16 }
    ensures shape { IfOk result (λ r. IsNumber (FitsBytes W) r.value) }
    ensures first { IfOk result (λ r. StandsFirst (number_bytes W) r.value r.len bytes.now) }
    ensures none { IfErr result (λ e. e ≡ PageFault.NotAPage → NoneFirst (IsNumber (FitsBytes W)) (number_bytes W) bytes.now) }
{
    match bytes.first_chunk::<W>() {
        Some(code) => Ok(ReadValue {
            value: Value::Num(get::<W>(*code)),
            len: W,
        }),
        None => Err(PageFault::NotAPage),
    }
}

fn read_day(bytes: &[u8]) -> Result<ReadValue, PageFault>
    ensures shape { IfOk result (λ r. IsDay (FitsBytes 4) r.value) }
    ensures first { IfOk result (λ r. StandsFirst day_bytes r.value r.len bytes.now) }
    ensures none { IfErr result (λ e. e ≡ PageFault.NotAPage → NoneFirst (IsDay (FitsBytes 4)) day_bytes bytes.now) }
{
    match bytes.first_chunk::<4>() {
        Some(code) => Ok(ReadValue {
            value: Value::Day(get::<4>(*code) as i32),
            len: 4,
        }),
        None => Err(PageFault::NotAPage),
    }
}

/// The number in the first two bytes, the high one first.
pub fn read_u16(bytes: &[u8]) -> Option<u16>
    ensures some { IfSome result (λ n. (n < 2 ^ 16) × (2 ≤ length bytes.now) × (take 2 bytes.now ≡ u16_bytes n)) }
    ensures none { IfNone result (length bytes.now < 2) }
{
    if bytes.len() < 2 {
        return None;
    }
    Some(BigEndian::read_u16(bytes))
}

fn read_text(alloc: Global, bytes: &[u8]) -> Result<ReadValue, PageFault>
    ensures shape { IfOk result (λ r. IsText IsShort r.value) }
    ensures first { IfOk result (λ r. StandsFirst text_bytes r.value r.len bytes.now) }
    ensures none { IfErr result (λ e. e ≡ PageFault.NotAPage → NoneFirst (IsText IsShort) text_bytes bytes.now) }
{
    let Some(number) = read_u16(bytes) else {
        return Err(PageFault::NotAPage);
    };
    let len = 2 + number as usize;
    if bytes.len() < len {
        return Err(PageFault::NotAPage);
    }
    match Octets::from_slice(alloc, &bytes[2..len]) {
        Ok(text) => Ok(ReadValue {
            value: Value::Text(text),
            len,
        }),
        Err(_) => Err(PageFault::Memory),
    }
}

fn read_value(alloc: Global, kind: Kind, bytes: &[u8]) -> Result<ReadValue, PageFault>
    ensures shape { IfOk result (λ r. HasShape kind r.value) }
    ensures first { IfOk result (λ r. StandsFirst (value_bytes kind) r.value r.len bytes.now) }
    ensures none { IfErr result (λ e. e ≡ PageFault.NotAPage → NoneFirst (HasShape kind) (value_bytes kind) bytes.now) }
{
    by_kind!(kind; read_flag(bytes); read_number(bytes); read_day(bytes); _ => read_text(alloc, bytes))
}

// The value of a type at the front of the bytes.
fn read_fitting(alloc: Global, kind: Kind, bytes: &[u8]) -> Result<ReadValue, PageFault>
    requires { IsTrue (is_kind kind) }
    ensures fits { IfOk result (λ r. IsTrue (fits_kind kind r.value)) }
    ensures first { IfOk result (λ r. StandsFirst (value_bytes kind) r.value r.len bytes.now) }
    ensures none { IfErr result (λ e. e ≡ PageFault.NotAPage → NoneFirst (λ v. IsTrue (fits_kind kind v)) (value_bytes kind) bytes.now) }
{
    let read = read_value(alloc, kind, bytes)?;
    if kind.fits(&read.value) {
        Ok(read)
    } else {
        Err(PageFault::NotAPage)
    }
}

/// The cell of a column at the front of the bytes.
pub fn read_cell(alloc: Global, column: &Column, bytes: &[u8]) -> Result<ReadValue, PageFault>
    requires { IsTrue (is_kind column.now.kind) }
    ensures fits { IfOk result (λ r. IsTrue (fits column.now r.value)) }
    ensures first { IfOk result (λ r. StandsFirst (cell_bytes column.now) r.value r.len bytes.now) }
    ensures none { IfErr result (λ e. e ≡ PageFault.NotAPage → NoneFirst (λ v. IsTrue (fits column.now v)) (cell_bytes column.now) bytes.now) }
{
    if !column.nullable {
        return read_fitting(alloc, column.kind, bytes);
    }
    match bytes {
        [0, ..] => Ok(ReadValue {
            value: Value::Null,
            len: 1,
        }),
        [1, rest @ ..] => {
            let ReadValue { value, len } = read_fitting(alloc, column.kind, rest)?;
            Ok(ReadValue {
                value,
                len: len + 1,
            })
        }
        _ => Err(PageFault::NotAPage),
    }
}
