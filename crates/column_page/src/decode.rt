ghost use Rattle.std.specs.Prelude.{◌≡◌, ◌+◌, ◌≤◌, ◌<◌, ◌^◌, ◌∷◌, [], ◌++◌, Bool, List, ℕ, IfErr, IfOk, OnOk, IsTrue, length, drop, map, replicate};
ghost use Rattle.pk_values.specs.Fits.{fits};
ghost use Rattle.pk_values.specs.Schemas.{is_kind};
ghost use Rattle.column_page.specs.CellBytes.{cell_bytes};
ghost use Rattle.column_page.specs.Page.{page, run_bytes, AllFit, Cell};
ghost use Rattle.column_page.specs.Reading.{expanded, CellsThen, IsCellOf, NoCells, OnlyCells, PlacesOf, RunsOf};
ghost use Rattle.pk_values.specs.declared.cells.Value.{Value};
ghost use Rattle.std.specs.List.{AllPass};

use crate::faults::PageFault;
use crate::reads::{read_cell, read_u16};
use pk_values::{Column, Value};
use std::alloc::Global;

/// Cells that were read, and how many bytes they took.
#[derive(Drop)]
struct ReadCells {
    values: Vec<Value>,
    len: usize,
}

/// A run that was read, and how many bytes it took.
#[derive(Drop)]
struct ReadRun {
    value: Value,
    count: u16,
    len: usize,
}

fn push_value(values: &mut Vec<Value>, value: Value) -> Result<(), PageFault>
    ensures pushed { OnOk result (values.new.items ≡ values.old.items ++ value ∷ []) }
    ensures memory { IfErr result (λ e. e ≡ PageFault.Memory) }
{
    match values.push(value) {
        Ok(()) => Ok(()),
        Err(_) => Err(PageFault::Memory),
    }
}

fn copy_value(alloc: Global, value: &Value) -> Result<Value, PageFault>
    ensures copied { IfOk result (λ copy. copy ≡ value.now) }
    ensures memory { IfErr result (λ e. e ≡ PageFault.Memory) }
{
    match value.copy(alloc) {
        Ok(copy) => Ok(copy),
        Err(_) => Err(PageFault::Memory),
    }
}

fn push_copies(
    alloc: Global,
    values: &mut Vec<Value>,
    value: &Value,
    count: u16,
) -> Result<(), PageFault>
    ensures pushed { OnOk result (values.new.items ≡ values.old.items ++ replicate count value.now) }
    ensures memory { IfErr result (λ e. e ≡ PageFault.Memory) }
{
    for i in 0..count {
        let copy = copy_value(alloc, value)?;
        push_value(values, copy)?;
    }
    Ok(())
}

// The first so many cells of the bytes.
fn read_cells(
    alloc: Global,
    column: &Column,
    count: usize,
    bytes: &[u8],
) -> Result<ReadCells, PageFault>
    requires { IsTrue (is_kind column.now.kind) }
    ensures fits { IfOk result (λ read. AllFit column.now read.values.items) }
    ensures number { IfOk result (λ read. length read.values.items ≡ count) }
    ensures within { IfOk result (λ read. read.len ≤ length bytes.now) }
    ensures only { IfOk result (λ read. (cells : List Cell) (rest : List ℕ) → CellsThen column.now count bytes.now cells rest → (map (cell_bytes column.now) read.values.items ≡ cells) × (drop read.len bytes.now ≡ rest)) }
    ensures none { IfErr result (λ e. e ≡ PageFault.NotAPage → (cells : List Cell) (rest : List ℕ) → CellsThen column.now count bytes.now cells rest → ⊥) }
{
    let mut values = Vec::new(alloc);
    let mut at = 0;
    for i in 0..count {
        let read = read_cell(alloc, column, &bytes[at..])?;
        let len = read.len;
        push_value(&mut values, read.value)?;
        at += len;
    }
    Ok(ReadCells { values, len: at })
}

/// The cells that stand one after the other.
pub fn read_plain(
    alloc: Global,
    column: &Column,
    count: u32,
    bytes: &[u8],
) -> Result<Vec<Value>, PageFault>
    requires { IsTrue (is_kind column.now.kind) }
    ensures fits { IfOk result (λ found. AllFit column.now found.items) }
    ensures only { IfOk result (λ found. OnlyCells column.now count page (0 ∷ bytes.now) found.items) }
    ensures none { IfErr result (λ e. e ≡ PageFault.NotAPage → NoCells column.now count page (0 ∷ bytes.now)) }
{
    let read = read_cells(alloc, column, count as usize, bytes)?;
    Ok(read.values)
}

// The run at the front of the bytes.
fn read_run(alloc: Global, column: &Column, bytes: &[u8]) -> Result<ReadRun, PageFault>
    requires { IsTrue (is_kind column.now.kind) }
    ensures fits { IfOk result (λ run. IsTrue (fits column.now run.value)) }
    ensures within { IfOk result (λ run. run.len ≤ length bytes.now) }
    ensures only { IfOk result (λ run. (r : ℕ × Cell) (rest : List ℕ) → r.0 < 2 ^ 16 → IsCellOf column.now r.1 → run_bytes r ++ rest ≡ bytes.now → (run.count ≡ r.0) × (cell_bytes column.now run.value ≡ r.1) × (drop run.len bytes.now ≡ rest)) }
    ensures none { IfErr result (λ e. e ≡ PageFault.NotAPage → (r : ℕ × Cell) (rest : List ℕ) → r.0 < 2 ^ 16 → IsCellOf column.now r.1 → run_bytes r ++ rest ≡ bytes.now → ⊥) }
{
    let Some(count) = read_u16(bytes) else {
        return Err(PageFault::NotAPage);
    };
    let read = read_cell(alloc, column, &bytes[2..])?;
    let len = read.len + 2;
    Ok(ReadRun {
        value: read.value,
        count,
        len,
    })
}

// The cells of so many runs, where these are not more cells than there may be.
fn expand_runs(
    alloc: Global,
    column: &Column,
    total: u16,
    count: u32,
    bytes: &[u8],
) -> Result<Vec<Value>, PageFault>
    requires { IsTrue (is_kind column.now.kind) }
    ensures fits { IfOk result (λ found. AllFit column.now found.items) }
    ensures only { IfOk result (λ found. (rs : List (ℕ × Cell)) → RunsOf column.now total count bytes.now rs → map (cell_bytes column.now) found.items ≡ expanded rs) }
    ensures none { IfErr result (λ e. e ≡ PageFault.NotAPage → (rs : List (ℕ × Cell)) → RunsOf column.now total count bytes.now rs → ⊥) }
{
    let mut values = Vec::new(alloc);
    let mut at = 0;
    for i in 0..total {
        let next = read_run(alloc, column, &bytes[at..])?;
        if values.len() + next.count as usize > count as usize {
            return Err(PageFault::NotAPage);
        }
        push_copies(alloc, &mut values, &next.value, next.count)?;
        at += next.len;
    }
    Ok(values)
}

/// The cells of the run-length form.
pub fn read_runs(
    alloc: Global,
    column: &Column,
    count: u32,
    bytes: &[u8],
) -> Result<Vec<Value>, PageFault>
    requires { IsTrue (is_kind column.now.kind) }
    ensures fits { IfOk result (λ found. AllFit column.now found.items) }
    ensures only { IfOk result (λ found. OnlyCells column.now count page (1 ∷ bytes.now) found.items) }
    ensures none { IfErr result (λ e. e ≡ PageFault.NotAPage → NoCells column.now count page (1 ∷ bytes.now)) }
{
    let Some(total) = read_u16(bytes) else {
        return Err(PageFault::NotAPage);
    };
    let values = expand_runs(alloc, column, total, count, &bytes[2..])?;
    Ok(values)
}

// The words at so many places.
fn read_places(
    alloc: Global,
    words: &[Value],
    count: u32,
    bytes: &[u8],
) -> Result<Vec<Value>, PageFault>
    requires { length words.now < 2 ^ 16 }
    ensures pass { IfOk result (λ found. (p : Value → Bool) → AllPass p words.now → AllPass p found.items) }
    ensures only { IfOk result (λ found. (code : Value → List ℕ) (cells : List Cell) → PlacesOf (map code words.now) count bytes.now cells → map code found.items ≡ cells) }
    ensures none { IfErr result (λ e. e ≡ PageFault.NotAPage → (code : Value → List ℕ) (cells : List Cell) → PlacesOf (map code words.now) count bytes.now cells → ⊥) }
{
    let mut values = Vec::new(alloc);
    let mut at = 0;
    for i in 0..count {
        let Some(place) = read_u16(&bytes[at..]) else {
            return Err(PageFault::NotAPage);
        };
        if place as usize >= words.len() {
            return Err(PageFault::NotAPage);
        }
        let value = copy_value(alloc, &words[place as usize])?;
        push_value(&mut values, value)?;
        at += 2;
    }
    Ok(values)
}

/// The cells of the dictionary form.
pub fn read_dictionary(
    alloc: Global,
    column: &Column,
    count: u32,
    bytes: &[u8],
) -> Result<Vec<Value>, PageFault>
    requires { IsTrue (is_kind column.now.kind) }
    ensures fits { IfOk result (λ found. AllFit column.now found.items) }
    ensures only { IfOk result (λ found. OnlyCells column.now count page (2 ∷ bytes.now) found.items) }
    ensures none { IfErr result (λ e. e ≡ PageFault.NotAPage → NoCells column.now count page (2 ∷ bytes.now)) }
{
    let Some(number) = read_u16(bytes) else {
        return Err(PageFault::NotAPage);
    };
    let body = &bytes[2..];
    let words = read_cells(alloc, column, number as usize, body)?;
    let values = read_places(alloc, &words.values, count, &body[words.len..])?;
    Ok(values)
}
