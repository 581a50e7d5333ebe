ghost use Rattle.std.specs.Prelude.{◌≡◌, ◌≤◌, ◌↔◌, IfOk, IsErrOf, Some, None, map, option_map, false};
ghost use Rattle.std.specs.Char.{to_ascii_lowercase};
ghost use Rattle.pk_values.specs.declared.cells.Value.TheVariants.{Bool, Num, Day};
ghost use Rattle.pk_values.specs.Fits.{null_mark};
ghost use Rattle.cell_text.specs.Days.{day_of};
ghost use Rattle.cell_text.specs.Cells.{cell_of, is_word, truth_of};
ghost use Rattle.cell_text.specs.Readings.{IsReading, IsTextCell, number_in, text_within};

use crate::dates::read_date;
use crate::faults::CellFault;
use crate::numbers::number;
use pk_values::{Kind, Octets, Value, by_kind};
use std::alloc::Global;

// The bytes are this word, in any ASCII case.
fn is_word(bytes: &[u8], word: &[u8]) -> bool
    ensures { result ≡ is_word (map to_ascii_lowercase bytes.now) (map to_ascii_lowercase word.now) }
{
    bytes.eq_ignore_ascii_case(word)
}

fn read_truth(bytes: &[u8]) -> Result<Value, CellFault>
    ensures { IsReading (option_map Bool (truth_of bytes.now)) result }
{
    if is_word(bytes, b"0") || is_word(bytes, b"false") {
        Ok(Value::Bool(false))
    } else if is_word(bytes, b"1") || is_word(bytes, b"true") {
        Ok(Value::Bool(true))
    } else {
        Err(CellFault::BadCell)
    }
}

fn read_number<const W: usize>(bytes: &[u8]) -> Result<Value, CellFault>
    requires low { 1 ≤ W }
    requires high { W ≤ 16 }
    ensures { IsReading (option_map Num (number_in W bytes.now)) result }
{
    match number(W, bytes) {
        Some(n) => Ok(Value::Num(n)),
        None => Err(CellFault::BadCell),
    }
}

fn read_day(bytes: &[u8]) -> Result<Value, CellFault>
    ensures { IsReading (option_map Day (day_of bytes.now)) result }
{
    match read_date(bytes) {
        Some(day) => Ok(Value::Day(day)),
        None => Err(CellFault::BadCell),
    }
}

fn read_text(alloc: Global, bytes: &[u8], most: u32) -> Result<Value, CellFault>
    ensures { IsReading (text_within most bytes.now) result }
{
    if bytes.len() > most as usize {
        return Err(CellFault::BadCell);
    }
    match Octets::from_slice(alloc, bytes) {
        Ok(text) => Ok(Value::Text(text)),
        Err(_) => Err(CellFault::Memory),
    }
}

// The value that bytes other than the mark of NULL read as.
fn read_value(alloc: Global, kind: Kind, bytes: &[u8]) -> Result<Value, CellFault>
    requires { is_word bytes.now null_mark ≡ false }
    ensures { IsReading (cell_of kind bytes.now) result }
{
    by_kind!(kind; read_truth(bytes); read_number(bytes); read_day(bytes); most => read_text(alloc, bytes, most))
}

/// The cell that bytes of a load file read as in a column of this kind.
///
/// Every kind reads `\N` as NULL; BOOLEAN `0` and `false`, `1` and `true` in any ASCII case; a
/// number an optional sign and decimal digits, in the kind's range; DATE `YYYY-MM-DD`, where the
/// Gregorian calendar has it, from year 0 on; VARCHAR(n) any text of at most n bytes.
///
/// # Errors
/// `BadCell` exactly where the bytes have no reading. `Memory` only where they read as a text, for
/// which memory ran out: NULL, a truth value, a number and a day take none.
pub fn read_cell(alloc: Global, kind: &Kind, bytes: &[u8]) -> Result<Value, CellFault>
    ensures cell { IfOk result (λ value. cell_of kind.now bytes.now ≡ Some value) }
    ensures bad { IsErrOf result CellFault.BadCell ↔ (cell_of kind.now bytes.now ≡ None) }
    ensures memory { IsErrOf result CellFault.Memory → IsTextCell (cell_of kind.now bytes.now) }
{
    if bytes == b"\\N".as_slice() {
        return Ok(Value::Null);
    }
    read_value(alloc, *kind, bytes)
}
