ghost use Rattle.std.specs.Prelude.{◌≡◌, ◌≢◌, ◌≤◌, ◌<◌, ◌+◌, IfOk, IfErr, IsTrue, OnOk, Ok, Err, None, length, take, drop};
ghost use Rattle.csv.specs.Records.{fields_of};
ghost use Rattle.pk_values.specs.Schemas.{fits_key};
ghost use Rattle.key_code.specs.KeyCode.{key_code};
ghost use Rattle.load_csv.specs.Headers.{missing_from};
ghost use Rattle.load_csv.specs.Lines.{delete_told, is_delete, line_of, line_with, op_of, other_marks, pick};
ghost use Rattle.std.specs.List.{list_all};
ghost use Rattle.load_csv.specs.Records.{most_file_bytes};

use crate::cells::read_cells;
use crate::headers::{Field, Header};
use crate::loads::LoadFault;
use crate::marks::push_if;
use crate::records::text_at;
use csv::ByteRecord;
use key_code::{KeyFault, encode};
use pk_model::Op;
use pk_values::{Items, Key, Schema, Value};
use std::alloc::{AllocError, Global};

// Whether the text of an `__op` tells a delete.
fn delete_told(text: &[u8]) -> Option<bool>
    ensures { result ≡ delete_told text.now }
{
    if text == b"0".as_slice() {
        Some(false)
    } else if text == b"1".as_slice() {
        Some(true)
    } else {
        None
    }
}

// Whether a row is a delete, if its `__op` tells that.
fn is_delete(fields: &[Field], row: &ByteRecord) -> Option<bool>
    requires { length (fields_of row.now) ≡ length fields.now }
    ensures { result ≡ is_delete fields.now (fields_of row.now) }
{
    for i in 0..fields.len() {
        if let Field::Op = fields[i] {
            return delete_told(text_at(row, i));
        }
    }
    Some(false)
}

// Row `n` has a key whose code is short enough.
fn check_key(alloc: Global, schema: &Schema, n: u32, key: &Key) -> Result<(), LoadFault>
    requires { IsTrue (fits_key schema.now key.now) }
    ensures ok { OnOk result (length (key_code schema.now key.now) ≤ 128) }
    ensures fault { IfErr result (λ f. f ≢ LoadFault.Memory → (f ≡ LoadFault.KeyTooLong n (length (key_code schema.now key.now))) × (128 < length (key_code schema.now key.now))) }
{
    match encode(alloc, schema, key) {
        Ok(_) => Ok(()),
        Err(KeyFault::TooLong(len)) => Err(LoadFault::KeyTooLong(n, len)),
        Err(KeyFault::Memory) => Err(LoadFault::Memory),
    }
}

// The cells that are marked.
fn picked(alloc: Global, marks: &[bool], cells: Vec<Value>) -> Result<Items<Value>, AllocError>
    requires { length cells.items ≤ length marks.now }
    ensures { IfOk result (λ kept. kept ≡ pick marks.now cells.items) }
{
    let mut cells = cells;
    let mut kept = Items::new(alloc);
    for i in 0..cells.len() {
        let cell = std::mem::replace(&mut cells[i], Value::Null);
        push_if(&mut kept, cell, marks[i])?;
    }
    Ok(kept)
}

// Of the cells of all columns outside the key those that the file gives.
fn given_cells(
    alloc: Global,
    header: &Header,
    cells: Vec<Value>,
) -> Result<Items<Value>, AllocError>
    requires width { length cells.items ≤ length header.now.marks.items }
    requires whole { header.now.is_whole ≡ list_all (λ m. m) header.now.marks.items }
    ensures { IfOk result (λ kept. kept ≡ pick header.now.marks.items cells.items) }
{
    if header.is_whole {
        return Ok(Items::from_vec(cells));
    }
    picked(alloc, &header.marks, cells)
}

// The first cells, and of the others those that the file gives.
fn split_cells(
    alloc: Global,
    header: &Header,
    cells: Vec<Value>,
    keys: usize,
) -> Result<(Key, Items<Value>), AllocError>
    requires within { keys ≤ length cells.items }
    requires width { length cells.items ≤ keys + length header.now.marks.items }
    requires whole { header.now.is_whole ≡ list_all (λ m. m) header.now.marks.items }
    ensures key { IfOk result (λ parts. parts.0 ≡ take keys cells.items) }
    ensures others { IfOk result (λ parts. parts.1 ≡ pick header.now.marks.items (drop keys cells.items)) }
{
    let mut cells = cells;
    let others = cells.split_off(keys)?;
    let given = given_cells(alloc, header, others)?;
    Ok((Key { cells }, given))
}

// A delete of a key, or an upsert of other cells there.
fn make_op(delete: bool, key: Key, others: Items<Value>) -> Op
    ensures { result ≡ op_of delete key others }
{
    if delete {
        Op::Delete { key }
    } else {
        Op::Upsert { key, cells: others }
    }
}

// The line of row `n` with these cells.
fn line_with(
    alloc: Global,
    schema: &Schema,
    header: &Header,
    n: u32,
    delete: bool,
    cells: Vec<Value>,
) -> Result<Op, LoadFault>
    requires width { length cells.items ≡ length schema.now.columns }
    requires marks { header.now.marks.items ≡ other_marks schema.now header.now.fields.items }
    requires whole { header.now.is_whole ≡ list_all (λ m. m) header.now.marks.items }
    requires fits { IsTrue (fits_key schema.now (take schema.now.keys cells.items)) }
    ensures ok { IfOk result (λ op. line_with schema.now header.now.fields.items n delete cells.items ≡ Ok op) }
    ensures fault { IfErr result (λ f. f ≢ LoadFault.Memory → line_with schema.now header.now.fields.items n delete cells.items ≡ Err f) }
{
    let Ok((key, given)) = split_cells(alloc, header, cells, schema.keys() as usize) else {
        return Err(LoadFault::Memory);
    };
    check_key(alloc, schema, n, &key)?;
    Ok(make_op(delete, key, given))
}

/// The line that row `n` is under a header which names each column of the key.
pub(crate) fn read_line(
    alloc: Global,
    schema: &Schema,
    header: &Header,
    n: u32,
    row: &ByteRecord,
) -> Result<Op, LoadFault>
    requires few { length header.now.fields.items ≤ most_file_bytes + 1 }
    requires keys { missing_from header.now.fields.items 0 (take schema.now.keys schema.now.columns) ≡ None }
    requires marks { header.now.marks.items ≡ other_marks schema.now header.now.fields.items }
    requires whole { header.now.is_whole ≡ list_all (λ m. m) header.now.marks.items }
    ensures ok { IfOk result (λ op. line_of schema.now header.now.fields.items n (fields_of row.now) ≡ Ok op) }
    ensures fault { IfErr result (λ f. f ≢ LoadFault.Memory → line_of schema.now header.now.fields.items n (fields_of row.now) ≡ Err f) }
{
    if row.len() != header.fields.len() {
        return Err(LoadFault::Width(n));
    }
    let Some(delete) = is_delete(&header.fields, row) else {
        return Err(LoadFault::BadOp(n));
    };
    let cells = read_cells(alloc, schema, &header.fields, n, delete, row)?;
    line_with(alloc, schema, header, n, delete, cells)
}
