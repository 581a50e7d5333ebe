ghost use Rattle.std.specs.Prelude.{◌≡◌, ◌≤◌, IfOk, IfSome, IfNone, IsErr, IsErrOf, [], drop, true, length};
ghost use Rattle.pk_values.specs.Shapes.{IsDay, IsFlag, IsNumber};
ghost use Rattle.fixed_code.specs.NumberCode.{FitsBytes};
ghost use Rattle.key_code.specs.Shapes.{HasCode, IsAnyText};
ghost use Rattle.key_code.specs.KeyCode.{IsOnlyCodeOf, cell_code, day_code, numeric_code, text_code, truth_code};
ghost use Rattle.key_code.specs.Reads.{EndsText, IsCell, IsFront};
ghost use Rattle.key_code.specs.Keys.{AreCells, HaveNoCells, IsKeyOf, IsNoKey};

use crate::escape::read_escaped;
use crate::faults::DecodeFault;
use fixed_code::get;
use pk_values::{Column, Key, Kind, Octets, Schema, Value, by_kind};
use std::alloc::{AllocError, Global};

// The value that stands at the front of bytes, and how many bytes its code takes.
type Front = Option<(Value, usize)>;

fn read_truth(bytes: &[u8]) -> Result<Front, AllocError>
    ensures { IfOk result (IsFront IsFlag truth_code bytes.now) }
{
    Ok(truth_front(bytes))
}

fn truth_front(bytes: &[u8]) -> Front
    ensures { IsFront IsFlag truth_code bytes.now result }
{
    let first = *bytes.first()?;
    if first == 0 {
        Some((Value::Bool(false), 1))
    } else if first == 1 {
        Some((Value::Bool(true), 1))
    } else {
        None
    }
}

fn read_number<const W: usize>(bytes: &[u8]) -> Result<Front, AllocError>
    requires low { 1 ≤ W }
    requires high { W ≤ 16 }
    ensures { IfOk result (IsFront (IsNumber (FitsBytes W)) (numeric_code W) bytes.now) }
{
    match bytes.first_chunk::<W>() {
        Some(code) => Ok(Some((Value::Num(get::<W>(*code)), W))),
        None => Ok(None),
    }
}

fn read_day(bytes: &[u8]) -> Result<Front, AllocError>
    ensures { IfOk result (IsFront (IsDay (FitsBytes 4)) day_code bytes.now) }
{
    match bytes.first_chunk::<4>() {
        Some(code) => Ok(Some((Value::Day(get::<4>(*code) as i32), 4))),
        None => Ok(None),
    }
}

// A text in the last key column takes all the bytes.
fn read_text(alloc: Global, bytes: &[u8], last: bool) -> Result<Front, AllocError>
    ensures front { IfOk result (IsFront IsAnyText (text_code last) bytes.now) }
    ensures ends { IfOk result (λ front. IfSome front (λ p. last ≡ true → drop p.1 bytes.now ≡ [])) }
{
    if last {
        let text = Octets::from_slice(alloc, bytes)?;
        return Ok(Some((Value::Text(text), bytes.len())));
    }
    match read_escaped(alloc, bytes)? {
        Some((piece, taken)) => {
            let text = Octets::from_vec(alloc, piece)?;
            Ok(Some((Value::Text(text), taken)))
        }
        None => Ok(None),
    }
}

// The value of a kind whose code stands at the front of the bytes.
fn read_front(alloc: Global, kind: Kind, bytes: &[u8], last: bool) -> Result<Front, AllocError>
    ensures front { IfOk result (IsFront (HasCode kind) (cell_code last kind) bytes.now) }
    ensures ends { IfOk result (λ front. IfSome front (EndsText last bytes.now)) }
{
    by_kind!(kind; read_truth(bytes); read_number(bytes); read_day(bytes); _ => read_text(alloc, bytes, last))
}

// The cell of a column's kind whose code stands at the front of the bytes.
fn read_cell(alloc: Global, kind: Kind, bytes: &[u8], last: bool) -> Result<Front, AllocError>
    ensures { IfOk result (IsCell last kind bytes.now) }
{
    match read_front(alloc, kind, bytes, last)? {
        Some((value, taken)) => {
            if kind.fits(&value) {
                Ok(Some((value, taken)))
            } else {
                Ok(None)
            }
        }
        None => Ok(None),
    }
}

// The cells of these columns whose codes, one after the other, are the bytes.
fn read_cells(
    alloc: Global,
    columns: &[Column],
    bytes: &[u8],
) -> Result<Option<Vec<Value>>, AllocError>
    requires { length columns.now ≤ 8 }
    ensures found { IfOk result (λ o. IfSome o (λ cells. AreCells columns.now bytes.now cells.items)) }
    ensures none { IfOk result (λ o. IfNone o (HaveNoCells columns.now bytes.now)) }
{
    let mut cells = Vec::with_capacity(alloc, columns.len())?;
    let mut at = 0;
    for i in 0..columns.len() {
        match read_cell(alloc, columns[i].kind, &bytes[at..], i + 1 == columns.len())? {
            Some((value, taken)) => {
                cells.push(value)?;
                at += taken;
            }
            None => return Ok(None),
        }
    }
    if at == bytes.len() {
        Ok(Some(cells))
    } else {
        Ok(None)
    }
}

/// The key of a table whose code the bytes are.
///
/// # Errors
/// `NotAKey` where the bytes are the code of no key that fits the table, and nowhere else.
/// `Memory` where memory ran out, which may come in place of either answer.
pub fn decode(alloc: Global, schema: &Schema, bytes: &[u8]) -> Result<Key, DecodeFault>
    ensures key { IfOk result (IsKeyOf schema.now bytes.now) }
    ensures only { IfOk result (λ key. IsOnlyCodeOf schema.now key bytes.now) }
    ensures not_a_key { IsErrOf result DecodeFault.NotAKey → IsNoKey schema.now bytes.now }
    ensures no_key { IsNoKey schema.now bytes.now → IsErr result }
{
    let columns = &schema.columns()[..schema.keys() as usize];
    match read_cells(alloc, columns, bytes) {
        Ok(Some(cells)) => Ok(Key { cells }),
        Ok(None) => Err(DecodeFault::NotAKey),
        Err(_) => Err(DecodeFault::Memory),
    }
}
