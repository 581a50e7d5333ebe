use crate::dead_rows::{listed, number};
use crate::tables::{rows, table};
use dev_memory::{Faults, MemStore};
use dev_traits::{DevError, SealedReader, Store};
use pk_values::{Row, Schema};
use segment_form::are_segment_rows;
use segment_write::write_segment;
use std::alloc::{AllocError, Global};

/// A store and how many files it has, numbered from 1 on.
#[derive(Drop)]
pub struct Files {
    pub store: MemStore,
    schema: Schema,
    count: u64,
}

// Takes the file of rows in under a number that no file has, and tells how long it is.
fn adopted<S: Store>(
    alloc: Global,
    store: &mut S,
    schema: &Schema,
    number: u64,
    rows: &[Row],
) -> Option<u64> {
    if !are_segment_rows(schema, rows) {
        return None;
    }
    let mut maker = store.maker().ok()?;
    let made = write_segment(alloc, &mut maker, schema, rows).ok()?;
    store.give_back(maker);
    store.room(1, 0).ok()?;
    match store.reader(number) {
        Err(DevError::Absent) => Some(store.adopt(number, made.sealed).ok()?.length()),
        _ => None,
    }
}

impl Files {
    pub fn new(alloc: Global) -> Result<Files, AllocError> {
        Ok(Files {
            store: MemStore::new(alloc, Faults::none(alloc))?,
            schema: table(alloc)?,
            count: 0,
        })
    }

    /// `store READS`: a store without files, each of whose readers fails at the listed reads.
    pub fn store(&mut self, alloc: Global, words: &str) -> Result<String, AllocError> {
        let mut faults = Faults::none(alloc);
        for read in listed(alloc, words)? {
            faults.reader.push(u64::from(read))?;
        }
        self.store = MemStore::new(alloc, faults)?;
        self.count = 0;
        "new".to_string(alloc)
    }

    /// `file STEP FIRST COUNT`: the file of so many rows, whose keys begin with one and rise by a step.
    pub fn file(&mut self, alloc: Global, words: &str) -> Result<String, AllocError> {
        let (step, rest) = words.split_once(' ').unwrap_or((words, ""));
        let (first, count) = rest.split_once(' ').unwrap_or((rest, ""));
        let rows = rows(alloc, number(step), number(first), number(count))?;
        let name = self.count.saturating_add(1);
        match adopted(alloc, &mut self.store, &self.schema, name, &rows) {
            Some(len) => {
                self.count = name;
                format!(in alloc; "file {name} of {len} bytes")
            }
            None => "no file".to_string(alloc),
        }
    }

    /// `spoil NUMBER PLACE`: whether a byte of a file is ff now.
    pub fn spoil(&mut self, alloc: Global, words: &str) -> Result<String, AllocError> {
        let (name, at) = words.split_once(' ').unwrap_or((words, ""));
        let spoilt = self
            .store
            .spoil(u64::from(number(name)), u64::from(number(at)), 255)?;
        format!(in alloc; "{spoilt}")
    }
}
