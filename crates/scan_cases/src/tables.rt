use pk_values::{Column, Kind, Octets, Row, Schema, Value};
use std::alloc::{AllocError, Global};

fn column(alloc: Global, name: &[u8], kind: Kind, nullable: bool) -> Result<Column, AllocError> {
    Ok(Column {
        name: Octets::from_slice(alloc, name)?,
        kind,
        nullable,
        default: None,
    })
}

/// A table of a key k, a text v and a number n.
pub fn table(alloc: Global) -> Result<Schema, AllocError> {
    let mut columns = Vec::new(alloc);
    columns.push(column(alloc, b"k", Kind::Int, false)?)?;
    columns.push(column(alloc, b"v", Kind::Varchar(4), true)?)?;
    columns.push(column(alloc, b"n", Kind::BigInt, false)?)?;
    match Schema::new(columns, 1) {
        Ok(schema) => Ok(schema),
        Err(_) => Err(AllocError),
    }
}

fn letters(key: u32) -> &'static [u8] {
    match key % 4 {
        0 => b"aaaa",
        1 => b"bbbb",
        2 => b"cccc",
        _ => b"dddd",
    }
}

// Each fifth text is NULL, and the others have one to four letters.
fn text_at(alloc: Global, key: u32) -> Result<Value, AllocError> {
    let letters = letters(key);
    let len = key as usize % 5;
    if len == 0 || len > letters.len() {
        return Ok(Value::Null);
    }
    Ok(Value::Text(Octets::from_slice(alloc, &letters[..len])?))
}

fn row(alloc: Global, key: u32) -> Result<Row, AllocError> {
    let mut cells = Vec::new(alloc);
    cells.push(Value::Num(i128::from(key)))?;
    cells.push(text_at(alloc, key)?)?;
    cells.push(Value::Num(7 * i128::from(key) - 262_144))?;
    Ok(Row { cells })
}

/// So many rows, whose keys begin with one and rise by a step.
pub fn rows(alloc: Global, step: u32, first: u32, count: u32) -> Result<Vec<Row>, AllocError> {
    let mut rows = Vec::new(alloc);
    let mut key = first;
    for _ in 0..count {
        rows.push(row(alloc, key)?)?;
        key = key.saturating_add(step);
    }
    Ok(rows)
}
