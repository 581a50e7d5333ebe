ghost use Rattle.std.specs.Prelude.{◌<◌, length};
ghost use Rattle.segment_read.specs.Reads.{KnowsFooter};

use crate::files::{Files, fault_text};
use crate::rows::are_same;
use crate::stores::reader_of;
use crate::streams::numbers;
use case_texts::values_text;
use dev_traits::SealedReader;
use pk_values::{Row, Schema};
use segment_read::{Segment, attach, block, row_at, rows_of};
use std::alloc::{AllocError, Global};

fn rows_text(alloc: Global, rows: &[Row]) -> Result<String, AllocError> {
    let mut text = format!(in alloc; "{} rows", rows.len())?;
    for row in rows.iter().take(3) {
        text.push_str("; ")?;
        text.push_str(values_text(alloc, &row.cells)?.as_str())?;
    }
    Ok(text)
}

// What the footer of a segment tells of it, and of the columns of its first block.
fn footer_text<R: SealedReader>(alloc: Global, segment: &Segment<R>) -> Result<String, AllocError> {
    let footer = &segment.footer;
    if footer.blocks() == 0 {
        return "no block".to_string(alloc);
    }
    let mut text = format!(in alloc;
        "{} columns {} rows {} blocks",
        footer.columns(),
        footer.rows(),
        footer.blocks()
    )?;
    for column in 0..4 {
        let nulls = footer.nulls(0, column);
        let more = match footer.span(0, column) {
            Some(span) => format!(in alloc; "; {nulls} {} to {}", span.least, span.greatest)?,
            None => format!(in alloc; "; {nulls} no span")?,
        };
        text.push_str(more.as_str())?;
    }
    Ok(text)
}

// What a copy of a segment tells.
fn copy_text<R: SealedReader>(
    alloc: Global,
    mut segment: Segment<R>,
) -> Result<String, AllocError> {
    let copy = segment.copy(alloc)?;
    let len = copy.reader.length();
    let rows = copy.footer.rows();
    format!(in alloc;
        "file {} of {len} bytes, {rows} rows, {} faults",
        copy.number,
        copy.faults()
    )
}

fn first_row<R: SealedReader>(
    alloc: Global,
    schema: &Schema,
    segment: &mut Segment<R>,
) -> Result<String, AllocError>
    requires { KnowsFooter schema.now (R.view segment.old.reader) segment.old.footer }
    ensures { KnowsFooter schema.now (R.view segment.new.reader) segment.new.footer }
{
    if segment.footer.rows() == 0 {
        return "no row".to_string(alloc);
    }
    match row_at(alloc, schema, segment, 0) {
        Ok(row) => values_text(alloc, &row.cells),
        Err(fault) => fault_text(alloc, &fault, segment.faults()),
    }
}

fn first_block<R: SealedReader>(
    alloc: Global,
    schema: &Schema,
    segment: &mut Segment<R>,
) -> Result<String, AllocError>
    requires { KnowsFooter schema.now (R.view segment.old.reader) segment.old.footer }
    ensures { KnowsFooter schema.now (R.view segment.new.reader) segment.new.footer }
{
    if segment.footer.blocks() == 0 {
        return "no block".to_string(alloc);
    }
    match block(alloc, schema, segment, 0) {
        Ok(rows) => rows_text(alloc, &rows),
        Err(fault) => fault_text(alloc, &fault, segment.faults()),
    }
}

fn all_rows<R: SealedReader>(
    alloc: Global,
    schema: &Schema,
    segment: &mut Segment<R>,
) -> Result<String, AllocError>
    requires { KnowsFooter schema.now (R.view segment.old.reader) segment.old.footer }
{
    match rows_of(alloc, schema, segment) {
        Ok(rows) => rows_text(alloc, &rows),
        Err(fault) => fault_text(alloc, &fault, segment.faults()),
    }
}

// The first row, the first block and all rows, one after the other.
fn reads_text<R: SealedReader>(
    alloc: Global,
    schema: &Schema,
    mut segment: Segment<R>,
) -> Result<String, AllocError>
    requires { KnowsFooter schema.now (R.view segment.reader) segment.footer }
{
    let row = first_row(alloc, schema, &mut segment)?;
    let block = first_block(alloc, schema, &mut segment)?;
    let all = all_rows(alloc, schema, &mut segment)?;
    format!(in alloc; "{row} / {block} / {all}")
}

/// `open FAILS footer`, `open FAILS copy` and `open FAILS rows`: attaches the file, of which the listed reads
/// fail, and tells what its footer tells, what a copy does, or its first row, its first block and all rows.
pub fn open(alloc: Global, files: &Files, words: &str) -> Result<String, AllocError> {
    let (fails, what) = words.split_once(' ').unwrap_or((words, ""));
    let reader = reader_of(alloc, &files.bytes, numbers(alloc, fails)?)?;
    match (attach(alloc, &files.schema, 2, reader), what) {
        (Ok(segment), "copy") => copy_text(alloc, segment),
        (Ok(segment), "rows") => reads_text(alloc, &files.schema, segment),
        (Ok(segment), _) => footer_text(alloc, &segment),
        (Err((reader, fault)), _) => fault_text(alloc, &fault, reader.faults()),
    }
}

// Whether the last row is the last of these.
fn has_last<R: SealedReader>(
    alloc: Global,
    schema: &Schema,
    segment: &mut Segment<R>,
    rows: &[Row],
) -> bool
    requires { KnowsFooter schema.now (R.view segment.old.reader) segment.old.footer }
    ensures { KnowsFooter schema.now (R.view segment.new.reader) segment.new.footer }
{
    let count = segment.footer.rows();
    if count == 0 {
        return false;
    }
    match (row_at(alloc, schema, segment, count - 1), rows.last()) {
        (Ok(found), Some(last)) => found.cells.as_slice() == last.cells.as_slice(),
        _ => false,
    }
}

// How many rows the last block has, where these are the last of some.
fn last_block<R: SealedReader>(
    alloc: Global,
    schema: &Schema,
    segment: &mut Segment<R>,
    rows: &[Row],
) -> Option<usize>
    requires { KnowsFooter schema.now (R.view segment.old.reader) segment.old.footer }
    ensures { KnowsFooter schema.now (R.view segment.new.reader) segment.new.footer }
{
    let blocks = segment.footer.blocks();
    if blocks == 0 {
        return None;
    }
    match block(alloc, schema, segment, blocks - 1) {
        Ok(found)
            if found.len() <= rows.len() && are_same(&rows[rows.len() - found.len()..], &found) => {
            Some(found.len())
        }
        _ => None,
    }
}

fn back_text<R: SealedReader>(
    alloc: Global,
    schema: &Schema,
    mut segment: Segment<R>,
    rows: &[Row],
) -> Result<String, AllocError>
    requires { KnowsFooter schema.now (R.view segment.reader) segment.footer }
{
    let count = segment.footer.rows();
    let blocks = segment.footer.blocks();
    let is_last = has_last(alloc, schema, &mut segment, rows);
    let last = last_block(alloc, schema, &mut segment, rows);
    let is_whole = match rows_of(alloc, schema, &mut segment) {
        Ok(found) => are_same(rows, &found),
        Err(_) => false,
    };
    format!(in alloc;
        "{count} rows in {blocks} blocks; all {is_whole}, the last row {is_last}, the last block {last:?}"
    )
}

/// `back`: whether the rows of the file are the rows that it was made of.
pub fn back(alloc: Global, files: &Files) -> Result<String, AllocError> {
    let reader = reader_of(alloc, &files.bytes, Vec::new(alloc))?;
    match attach(alloc, &files.schema, 2, reader) {
        Ok(segment) => back_text(alloc, &files.schema, segment, &files.rows),
        Err((reader, fault)) => fault_text(alloc, &fault, reader.faults()),
    }
}
