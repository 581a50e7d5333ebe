use crate::schemas::Schemas;
use case_texts::values_text;
use load_csv::{LoadFault, read_load};
use pk_model::{Load, Op};
use pk_values::Schema;
use std::alloc::{AllocError, Global};

fn line_text(alloc: Global, op: &Op) -> Result<String, AllocError> {
    match op {
        Op::Upsert { key, cells } => {
            let key = values_text(alloc, &key.cells)?;
            let cells = values_text(alloc, cells.as_slice())?;
            format!(in alloc; "; upsert {key}: {cells}")
        }
        Op::Delete { key } => {
            let key = values_text(alloc, &key.cells)?;
            format!(in alloc; "; delete {key}")
        }
    }
}

// The columns that a load gives, and its lines where there are fewer than ten.
fn load_text(alloc: Global, load: &Load) -> Result<String, AllocError> {
    let given = load.given.as_slice();
    let mut text = format!(in alloc; "{} lines of {given:?}", load.ops.len())?;
    if load.ops.len() < 10 {
        for op in load.ops.as_slice() {
            text.push_str(line_text(alloc, op)?.as_str())?;
        }
    }
    Ok(text)
}

fn read(alloc: Global, schema: &Schema, file: &[u8], partial: bool) -> Result<String, AllocError> {
    if file.len() > 67_108_864 {
        return "too long".to_string(alloc);
    }
    match read_load(alloc, schema, file, partial) {
        Ok(load) => load_text(alloc, &load),
        Err(LoadFault::Memory) => Err(AllocError),
        Err(fault) => format!(in alloc; "{fault:?}"),
    }
}

/// `load BYTES` and `partial BYTES`: the lines of a load file, of all columns or partial.
pub fn load(
    alloc: Global,
    schemas: &Schemas,
    file: &[u8],
    partial: bool,
) -> Result<String, AllocError> {
    match &schemas.schema {
        Some(schema) => read(alloc, schema, file, partial),
        None => "no table".to_string(alloc),
    }
}
