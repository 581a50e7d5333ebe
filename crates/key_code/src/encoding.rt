ghost use Rattle.std.specs.Prelude.{◌≡◌, ◌≤◌, ◌<◌, ◌+◌, ◌^◌, IfOk, IfErr, IsErr, IsOk, IsTrue, length};
ghost use Rattle.pk_values.specs.Schemas.{fits_key};
ghost use Rattle.pk_values.specs.Shapes.{IsDay, IsFlag, IsNumber};
ghost use Rattle.fixed_code.specs.NumberCode.{FitsBytes};
ghost use Rattle.key_code.specs.Shapes.{HasCode, HaveCodes, IsAnyText};
ghost use Rattle.key_code.specs.KeyCode.{IsInOrder, IsOnlyCodeOf, cell_code, cells_code, day_code, key_code, numeric_code, text_code, truth_code};
ghost use Rattle.key_code.specs.Drafts.{draft_of, with_more};
ghost use Rattle.key_code.specs.Faults.{TellsLength};

use crate::drafts::CodeDraft;
use crate::escape::push_escaped;
use crate::faults::KeyFault;
use fixed_code::put;
use index_level0::KeyBytes;
use pk_values::{Column, Key, Kind, Schema, Value, by_kind};
use std::alloc::Global;

fn push_truth(out: &mut CodeDraft, value: &Value)
    requires flag { IsFlag value.now }
    requires room { out.old.count + length (truth_code value.now) < 2 ^ 64 }
    ensures { out.new ≡ with_more out.old (truth_code value.now) }
{
    if let Value::Bool(truth) = value {
        out.push(u8::from(*truth));
    }
}

fn push_number<const W: usize>(out: &mut CodeDraft, value: &Value)
    requires low { 1 ≤ W }
    requires high { W ≤ 16 }
    requires number { IsNumber (FitsBytes W) value.now }
    requires room { out.old.count + length (numeric_code W value.now) < 2 ^ 64 }
    ensures { out.new ≡ with_more out.old (numeric_code W value.now) }
{
    if let Value::Num(number) = value {
        out.extend(&put::<W>(*number));
    }
}

fn push_day(out: &mut CodeDraft, value: &Value)
    requires day { IsDay (FitsBytes 4) value.now }
    requires room { out.old.count + length (day_code value.now) < 2 ^ 64 }
    ensures { out.new ≡ with_more out.old (day_code value.now) }
{
    if let Value::Day(day) = value {
        out.extend(&put::<4>(i128::from(*day)));
    }
}

fn push_text(out: &mut CodeDraft, value: &Value, last: bool)
    requires text { IsAnyText value.now }
    requires room { out.old.count + length (text_code last value.now) < 2 ^ 64 }
    ensures { out.new ≡ with_more out.old (text_code last value.now) }
{
    if let Value::Text(text) = value {
        if last {
            out.extend(text.as_slice());
        } else {
            push_escaped(out, text.as_slice());
        }
    }
}

// Appends the code of a cell; `last` tells whether it is the key's last one.
fn push_cell(out: &mut CodeDraft, kind: Kind, value: &Value, last: bool)
    requires code { HasCode kind value.now }
    requires room { out.old.count + length (cell_code last kind value.now) < 2 ^ 64 }
    ensures { out.new ≡ with_more out.old (cell_code last kind value.now) }
{
    by_kind!(
        kind;
        push_truth(out, value);
        push_number(out, value);
        push_day(out, value);
        _ => push_text(out, value, last)
    )
}

// The code of a key, of which the first 128 bytes are kept.
fn code_of(columns: &[Column], key: &[Value]) -> CodeDraft
    requires few { length columns.now ≤ 8 }
    requires fits { HaveCodes columns.now key.now }
    requires short { length (cells_code columns.now key.now) < 2 ^ 64 }
    ensures { result ≡ draft_of (cells_code columns.now key.now) }
{
    let mut out = CodeDraft::new();
    for i in 0..columns.len() {
        push_cell(&mut out, columns[i].kind, &key[i], i + 1 == columns.len());
    }
    out
}

/// The code of a key: the codes of its cells, one after the other.
///
/// BOOLEAN is the byte 00 or 01, a number its two's complement with the top bit flipped, high byte
/// first, a DATE its day as such a number of 4 bytes. A text in the last key column stands as it
/// is, and in an earlier one with each byte 00 as 00 01 and with 00 00 at its end.
///
/// It takes no memory.
///
/// # Errors
/// `TooLong` where the code is longer than 128 bytes, and nowhere else; it tells that length.
pub fn encode(_alloc: Global, schema: &Schema, key: &Key) -> Result<KeyBytes, KeyFault>
    requires { IsTrue (fits_key schema.now key.now) }
    ensures code { IfOk result (λ code. code ≡ key_code schema.now key.now) }
    ensures order { IfOk result (IsInOrder schema.now key.now) }
    ensures only { IfOk result (IsOnlyCodeOf schema.now key.now) }
    ensures length { IfErr result (TellsLength (length (key_code schema.now key.now))) }
    ensures short { length (key_code schema.now key.now) ≤ 128 → IsOk result }
    ensures too_long { 128 < length (key_code schema.now key.now) → IsErr result }
{
    let columns = &schema.columns()[..schema.keys() as usize];
    match code_of(columns, &key.cells).finish() {
        Ok(code) => Ok(code),
        Err(length) => Err(KeyFault::TooLong(length)),
    }
}
