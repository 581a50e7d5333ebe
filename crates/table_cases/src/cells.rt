ghost use Rattle.std.specs.Prelude.{IsTrue};
ghost use Rattle.cell_text.specs.Texts.{IsWritable};

use case_texts::{bytes_of, kind_of, text_of, value_of, value_text};
use cell_text::{CellFault, read_cell, write_cell};
use pk_values::{Kind, Value};
use std::alloc::{AllocError, Global};

fn read(alloc: Global, kind: &Kind, bytes: &[u8]) -> Result<String, AllocError> {
    match read_cell(alloc, kind, bytes) {
        Ok(Value::Null) => "null".to_string(alloc),
        Ok(value) => {
            if kind.fits(&value) {
                value_text(alloc, &value)
            } else {
                "unfit".to_string(alloc)
            }
        }
        Err(CellFault::BadCell) => "bad".to_string(alloc),
        Err(CellFault::Memory) => Err(AllocError),
    }
}

/// `cell KIND BYTES`: what a cell of a load file is read as.
pub fn cell(alloc: Global, words: &str) -> Result<String, AllocError> {
    let (word, text) = words.split_once(' ').unwrap_or((words, ""));
    match kind_of(word) {
        Some(kind) => read(alloc, &kind, &bytes_of(alloc, text)?),
        None => "no kind".to_string(alloc),
    }
}

fn is_writable(value: &Value) -> bool
    ensures { IsTrue result → IsWritable value.now }
{
    match value {
        Value::Day(day) => 0 <= *day && *day <= 3_652_424,
        _ => true,
    }
}

/// `shown VALUE`: the value as a report shows it, behind what stands before it.
pub fn shown(alloc: Global, words: &str) -> Result<String, AllocError> {
    match value_of(alloc, words)? {
        Some(value) if is_writable(&value) => {
            let mut out = Vec::from_slice(alloc, b">")?;
            write_cell(&value, &mut out)?;
            text_of(alloc, &out)
        }
        _ => "no value".to_string(alloc),
    }
}
