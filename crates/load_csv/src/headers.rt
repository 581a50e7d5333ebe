ghost use Rattle.std.specs.Prelude.{◌≡◌, ◌≢◌, ◌≤◌, ◌<◌, ◌++◌, ◌∷◌, ◌+◌, ◌^◌, [], IfOk, IfErr, IfSome, OnOk, Ok, Err, None, length, not, ◌||◌};
ghost use Rattle.std.specs.List.{list_all, list_any};
ghost use Rattle.csv.specs.Records.{fields_of};
ghost use Rattle.load_csv.specs.Headers.{field_named, fields_after, header_of, is_same, missing_from, new_field, unfilled_from, wanted, with_defaults, with_wanted};
ghost use Rattle.load_csv.specs.Lines.{other_marks};
ghost use Rattle.load_csv.specs.Results.{◌and_then◌};
ghost use Rattle.pk_model.specs.Lawful.{is_needed};
ghost use Rattle.load_csv.specs.Records.{most_file_bytes};

use crate::loads::LoadFault;
use crate::records::text_at;
use csv::ByteRecord;
use pk_values::{Column, Schema, place_of_name};
use std::alloc::{AllocError, Global};

// What a field of a file holds.
#[derive(Clone, Copy)]
pub(crate) enum Field {
    // What its row does.
    Op,
    // The cell of the column in this place of the table, counted from 0.
    Column(u32),
}

fn is_same(a: Field, b: Field) -> bool
    ensures { result ≡ is_same a b }
{
    match (a, b) {
        (Field::Op, Field::Op) => true,
        (Field::Column(i), Field::Column(j)) => i == j,
        _ => false,
    }
}

// Whether one of the fields is this one.
pub(crate) fn is_among(field: Field, fields: &[Field]) -> bool
    ensures { result ≡ list_any (is_same field) fields.now }
{
    fields.iter().any(|other| is_same(field, *other))
}

// What a name of the header stands for.
fn field_named(schema: &Schema, name: &[u8]) -> Option<Field>
    ensures { result ≡ field_named schema.now name.now }
{
    if name == b"__op".as_slice() {
        return Some(Field::Op);
    }
    match place_of_name(name, schema.columns()) {
        Some(i) => Some(Field::Column(i as u32)),
        None => None,
    }
}

// A field that none before it is; `c` is its number.
fn new_field(before: &[Field], c: u32, named: Option<Field>) -> Result<Field, LoadFault>
    ensures { result ≡ new_field before.now c named }
{
    match named {
        Some(field) => {
            if is_among(field, before) {
                Err(LoadFault::NameTwice(c))
            } else {
                Ok(field)
            }
        }
        None => Err(LoadFault::UnknownName(c)),
    }
}

fn push_field(fields: &mut Vec<Field>, field: Field) -> Result<(), LoadFault>
    ensures ok { OnOk result (fields.new.items ≡ fields.old.items ++ field ∷ []) }
    ensures memory { IfErr result (λ fault. fault ≡ LoadFault.Memory) }
{
    match fields.push(field) {
        Ok(()) => Ok(()),
        Err(_) => Err(LoadFault::Memory),
    }
}

// What the names of the header stand for.
fn read_fields(alloc: Global, schema: &Schema, names: &ByteRecord) -> Result<Vec<Field>, LoadFault>
    requires { length (fields_of names.now) ≤ most_file_bytes + 1 }
    ensures ok { IfOk result (λ fields. fields_after schema.now [] (fields_of names.now) ≡ Ok fields.items) }
    ensures count { IfOk result (λ fields. length fields.items ≡ length (fields_of names.now)) }
    ensures fault { IfErr result (λ f. f ≢ LoadFault.Memory → fields_after schema.now [] (fields_of names.now) ≡ Err f) }
{
    let mut fields = Vec::new(alloc);
    for i in 0..names.len() {
        let named = field_named(schema, text_at(names, i));
        let field = new_field(&fields, i as u32 + 1, named)?;
        push_field(&mut fields, field)?;
    }
    Ok(fields)
}

// The place of the first of these columns that no field stands for.
fn missing_column(columns: &[Column], fields: &[Field]) -> Option<u32>
    requires { length columns.now < 2 ^ 32 }
    ensures place { result ≡ missing_from fields.now 0 columns.now }
    ensures within { IfSome result (λ i. i + 1 < 2 ^ 32) }
{
    for i in 0..columns.len() {
        if !is_among(Field::Column(i as u32), fields) {
            return Some(i as u32);
        }
    }
    None
}

// A column that no row can go without: it has no default and takes no NULL.
fn is_needed(column: &Column) -> bool
    ensures { result ≡ is_needed column.now }
{
    column.default.is_none() && !column.nullable
}

// Whether a file may have no cell of the column in place `i`, or a field stands for it.
fn is_filled(fields: &[Field], i: u32, column: &Column) -> bool
    ensures { result ≡ (list_any (is_same (Field.Column i)) fields.now || not (is_needed column.now)) }
{
    is_among(Field::Column(i), fields) || !is_needed(column)
}

// The place of the first of these columns that no field stands for and no row can go without.
fn unfilled_column(columns: &[Column], fields: &[Field]) -> Option<u32>
    requires { length columns.now < 2 ^ 32 }
    ensures place { result ≡ unfilled_from fields.now 0 columns.now }
    ensures within { IfSome result (λ i. i + 1 < 2 ^ 32) }
{
    for i in 0..columns.len() {
        if !is_filled(fields, i as u32, &columns[i]) {
            return Some(i as u32);
        }
    }
    None
}

// The columns that a header must name.
fn wanted(schema: &Schema, partial: bool) -> &[Column]
    ensures columns { result.now ≡ wanted schema.now partial }
    ensures few { length result.now < 2 ^ 32 }
{
    let _count = schema.count();
    if partial {
        &schema.columns()[..schema.keys() as usize]
    } else {
        schema.columns()
    }
}

// Each column that must be there is, and each other one has something in its place.
fn check_fields(schema: &Schema, partial: bool, fields: &[Field]) -> Result<(), LoadFault>
    ensures named { OnOk result (missing_from fields.now 0 (wanted schema.now partial) ≡ None) }
    ensures filled { OnOk result (unfilled_from fields.now 0 schema.now.columns ≡ None) }
    ensures ok { OnOk result ((with_wanted schema.now partial fields.now and_then with_defaults schema.now) ≡ Ok fields.now) }
    ensures fault { IfErr result (λ f. (with_wanted schema.now partial fields.now and_then with_defaults schema.now) ≡ Err f) }
{
    let _count = schema.count();
    if let Some(i) = missing_column(wanted(schema, partial), fields) {
        return Err(LoadFault::Missing(i + 1));
    }
    match unfilled_column(schema.columns(), fields) {
        Some(i) => Err(LoadFault::NoDefault(i + 1)),
        None => Ok(()),
    }
}

// Whether a field stands for it, for each column outside the key.
fn marks_of(alloc: Global, schema: &Schema, fields: &[Field]) -> Result<Vec<bool>, AllocError>
    ensures { IfOk result (λ found. found.items ≡ other_marks schema.now fields.now) }
{
    let mut found = Vec::new(alloc);
    for i in schema.keys()..schema.count() {
        found.push(is_among(Field::Column(i), fields))?;
    }
    Ok(found)
}

/// What the header of a file says.
#[derive(Drop)]
pub(crate) struct Header {
    // What each field of a row holds, in file order.
    pub(crate) fields: Vec<Field>,
    // For each column outside the key whether a field holds it.
    pub(crate) marks: Vec<bool>,
    // Whether the file gives every column.
    pub(crate) is_whole: bool,
}

// A header of these fields.
fn with_marks(alloc: Global, schema: &Schema, fields: Vec<Field>) -> Result<Header, LoadFault>
    ensures fields { IfOk result (λ header. header.fields ≡ fields) }
    ensures marks { IfOk result (λ header. header.marks.items ≡ other_marks schema.now fields.items) }
    ensures whole { IfOk result (λ header. header.is_whole ≡ list_all (λ m. m) header.marks.items) }
    ensures memory { IfErr result (λ f. f ≡ LoadFault.Memory) }
{
    let Ok(marks) = marks_of(alloc, schema, &fields) else {
        return Err(LoadFault::Memory);
    };
    let is_whole = marks.iter().all(|mark| *mark);
    Ok(Header {
        fields,
        marks,
        is_whole,
    })
}

/// What the header of a file says, of a partial load or one of all columns.
pub(crate) fn read_header(
    alloc: Global,
    schema: &Schema,
    names: &ByteRecord,
    partial: bool,
) -> Result<Header, LoadFault>
    requires { length (fields_of names.now) ≤ most_file_bytes + 1 }
    ensures ok { IfOk result (λ header. header_of schema.now partial (fields_of names.now) ≡ Ok header.fields.items) }
    ensures named { IfOk result (λ header. missing_from header.fields.items 0 (wanted schema.now partial) ≡ None) }
    ensures filled { IfOk result (λ header. unfilled_from header.fields.items 0 schema.now.columns ≡ None) }
    ensures marks { IfOk result (λ header. header.marks.items ≡ other_marks schema.now header.fields.items) }
    ensures whole { IfOk result (λ header. header.is_whole ≡ list_all (λ m. m) header.marks.items) }
    ensures count { IfOk result (λ header. length header.fields.items ≡ length (fields_of names.now)) }
    ensures fault { IfErr result (λ f. f ≢ LoadFault.Memory → header_of schema.now partial (fields_of names.now) ≡ Err f) }
{
    let fields = read_fields(alloc, schema, names)?;
    check_fields(schema, partial, &fields)?;
    with_marks(alloc, schema, fields)
}
