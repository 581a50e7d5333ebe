ghost use Rattle.std.specs.Prelude.{◌≡◌, ◌++◌, ◌≤◌, OnOk, OnErr, length, take};
ghost use Rattle.std.specs.List.{list_any};
ghost use Rattle.cell_text.specs.Texts.{IsWritable, ReadsBack, cell_text, doubled, is_special, needs_quotes, quoted, text_text};

use crate::dates::write_date;
use itoa::Buffer;
use pk_values::Value;
use std::alloc::AllocError;

fn is_special(byte: u8) -> bool
    ensures { result ≡ is_special byte }
{
    byte == b',' || byte == b'"' || byte == b'\r' || byte == b'\n'
}

fn has_special(text: &[u8]) -> bool
    ensures { result ≡ list_any is_special text.now }
{
    text.iter().any(|byte| is_special(*byte))
}

fn needs_quotes(text: &[u8]) -> bool
    ensures { result ≡ needs_quotes text.now }
{
    text.is_empty() || has_special(text)
}

// Appends bytes with each double quote twice; where memory is wanted, some of them may stand there.
fn push_doubled(text: &[u8], out: &mut Vec<u8>) -> Result<(), AllocError>
    ensures ok { OnOk result (out.new.items ≡ out.old.items ++ doubled text.now) }
    ensures before { take (length out.old.items) out.new.items ≡ out.old.items }
{
    for byte in text {
        if *byte == b'"' {
            out.extend_from_slice(b"\"\"")?;
        } else {
            out.push(*byte)?;
        }
    }
    Ok(())
}

// Appends a text between double quotes; where memory is wanted, a part of it may stand there.
fn push_quoted(text: &[u8], out: &mut Vec<u8>) -> Result<(), AllocError>
    ensures ok { OnOk result (out.new.items ≡ out.old.items ++ quoted text.now) }
    ensures before { take (length out.old.items) out.new.items ≡ out.old.items }
{
    out.extend_from_slice(b"\"")?;
    push_doubled(text, out)?;
    out.extend_from_slice(b"\"")
}

fn write_quoted(text: &[u8], out: &mut Vec<u8>) -> Result<(), AllocError>
    ensures ok { OnOk result (out.new.items ≡ out.old.items ++ quoted text.now) }
    ensures err { OnErr result (out.new.items ≡ out.old.items) }
{
    let before = out.len();
    match push_quoted(text, out) {
        Ok(()) => Ok(()),
        Err(error) => {
            out.truncate(before);
            Err(error)
        }
    }
}

fn write_text(text: &[u8], out: &mut Vec<u8>) -> Result<(), AllocError>
    ensures ok { OnOk result (out.new.items ≡ out.old.items ++ text_text text.now) }
    ensures err { OnErr result (out.new.items ≡ out.old.items) }
{
    if needs_quotes(text) {
        write_quoted(text, out)
    } else {
        out.extend_from_slice(text)
    }
}

/// Appends a cell as a report shows it.
///
/// NULL is `\N`, BOOLEAN `0` or `1`, a number its decimal digits, a day `YYYY-MM-DD`, and a text its
/// bytes, set between double quotes with each inner one doubled exactly where it is empty or holds
/// a comma, a double quote, CR or LF. A day is from 0, which is 0000-01-01, to 3,652,424.
///
/// # Errors
/// `AllocError` where memory ran out; `out` then holds what it held.
pub fn write_cell(value: &Value, out: &mut Vec<u8>) -> Result<(), AllocError>
    requires { IsWritable value.now }
    ensures text { OnOk result (out.new.items ≡ out.old.items ++ cell_text value.now) }
    ensures err { OnErr result (out.new.items ≡ out.old.items) }
    ensures reads_back { ReadsBack value.now }
{
    match value {
        Value::Null => out.extend_from_slice(b"\\N"),
        Value::Bool(truth) => out.extend_from_slice(if *truth { b"1" } else { b"0" }),
        Value::Num(number) => {
            let mut buffer = Buffer::new();
            out.extend_from_slice(buffer.format(*number).as_bytes())
        }
        Value::Day(day) => write_date(*day, out),
        Value::Text(text) => write_text(text.as_slice(), out),
    }
}
