use crate::dead_rows::number;
use crate::files::Files;
use crate::parts::Parts;
use case_texts::value_text;
use del_vector::DelVector;
use dev_memory::MemReader;
use dev_traits::{ReadFault, SealedReader, Store};
use pk_values::Row;
use segment_read::attach;
use snapshot_scan::{Scan, Snapshot, give_back_snapshot};
use std::alloc::{AllocError, Global};

/// The parts of the next scan.
#[derive(Drop)]
pub struct Scans {
    parts: Parts<MemReader>,
}

// What a call of a scan gives.
#[derive(Drop)]
enum Given {
    Row(Row),
    End,
    Fault(ReadFault),
}

fn asked<R: SealedReader>(alloc: Global, scan: &mut Scan<R>) -> Given {
    match scan.next_row(alloc) {
        Ok(Some(row)) => Given::Row(row),
        Ok(None) => Given::End,
        Err(fault) => Given::Fault(fault),
    }
}

fn fault_text(alloc: Global, fault: &ReadFault) -> Result<String, AllocError> {
    match fault {
        ReadFault::StoreFault => "failed".to_string(alloc),
        ReadFault::Damaged(damaged) => {
            format!(in alloc; "damaged {:?} of file {}", damaged.part, damaged.file)
        }
        ReadFault::Memory => Err(AllocError),
    }
}

// The key of a row.
fn key_text(alloc: Global, row: &Row) -> Result<String, AllocError> {
    match row.cells.first() {
        Some(key) => value_text(alloc, key),
        None => "no key".to_string(alloc),
    }
}

fn given_text(alloc: Global, given: &Given) -> Result<String, AllocError> {
    match given {
        Given::Row(row) => key_text(alloc, row),
        Given::End => "end".to_string(alloc),
        Given::Fault(fault) => fault_text(alloc, fault),
    }
}

// The rows that come of so many, and what comes behind them.
fn come<R: SealedReader>(
    alloc: Global,
    scan: &mut Scan<R>,
    count: u32,
) -> Result<(Vec<Row>, Given), AllocError> {
    let mut rows = Vec::new(alloc);
    for _ in 0..count {
        match asked(alloc, scan) {
            Given::Row(row) => rows.push(row)?,
            other => return Ok((rows, other)),
        }
    }
    Ok((rows, asked(alloc, scan)))
}

fn ends_text(alloc: Global, rows: &[Row]) -> Result<String, AllocError> {
    match (rows.first(), rows.last()) {
        (Some(first), Some(last)) => {
            let first = key_text(alloc, first)?;
            let last = key_text(alloc, last)?;
            format!(in alloc; "{} came, {first} to {last}", rows.len())
        }
        _ => "none came".to_string(alloc),
    }
}

fn scan_text<R: SealedReader>(
    alloc: Global,
    scan: &mut Scan<R>,
    count: u32,
) -> Result<String, AllocError> {
    let (rows, behind) = come(alloc, scan, count)?;
    let ends = ends_text(alloc, &rows)?;
    let behind = given_text(alloc, &behind)?;
    let again = given_text(alloc, &asked(alloc, scan))?;
    format!(in alloc; "{ends}; then {behind}, and {again}")
}

// What a scan of the snapshot gives. The snapshot's readers go back to the store.
fn scanned<S: Store>(
    alloc: Global,
    store: &mut S,
    snapshot: Snapshot<S::Reader>,
    count: u32,
) -> Result<String, AllocError> {
    match snapshot.scan(alloc) {
        Ok(mut scan) => {
            let told = scan_text(alloc, &mut scan, count);
            give_back_snapshot(store, scan.into_snapshot());
            told
        }
        Err((snapshot, fault)) => {
            give_back_snapshot(store, snapshot);
            fault_text(alloc, &fault)
        }
    }
}

impl Scans {
    pub fn new(alloc: Global) -> Result<Scans, AllocError> {
        Ok(Scans {
            parts: Parts::new(alloc)?,
        })
    }

    /// `part NUMBER`: a file with the dead rows as one part more of the next scan, unless it has no such rows; and how
    /// many parts there are.
    pub fn part(
        &mut self,
        alloc: Global,
        files: &mut Files,
        dead: &DelVector,
        words: &str,
    ) -> Result<String, AllocError> {
        let name = u64::from(number(words));
        let Ok(reader) = files.store.reader(name) else {
            return "no file".to_string(alloc);
        };
        match attach(alloc, self.parts.schema(), name, reader) {
            Ok(segment) => {
                let count = self.parts.add(alloc, segment, dead.copy()?)?;
                format!(in alloc; "{count} in all")
            }
            Err((reader, fault)) => {
                files.store.give_back_reader(reader);
                fault_text(alloc, &fault)
            }
        }
    }

    /// `scan COUNT`: scans the parts, and tells how many rows are live, which of so many rows come, what two calls more
    /// give, and how many faults the store counted.
    pub fn scan(
        &mut self,
        alloc: Global,
        files: &mut Files,
        words: &str,
    ) -> Result<String, AllocError> {
        let parts = std::mem::replace(&mut self.parts, Parts::new(alloc)?);
        let snapshot = parts.into_snapshot();
        let live = snapshot.count();
        let told = scanned(alloc, &mut files.store, snapshot, number(words))?;
        format!(in alloc; "{live} live; {told}; {} faults", files.store.faults())
    }
}
