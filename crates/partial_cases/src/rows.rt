use crate::told::{read_text, reply_text};
use case_texts::values_text;
use core_publish::open_version;
use dev_traits::{SealedReader, Store};
use pk_model::Want;
use snapshot_scan::{Scan, Snapshot};
use std::alloc::{AllocError, Global};
use tablet_state::State;

// The rows that a scan gives, up to so many.
fn rows_text<R: SealedReader>(
    alloc: Global,
    scan: &mut Scan<R>,
    count: u64,
) -> Result<String, AllocError> {
    let mut text = String::new(alloc);
    for _ in 0..count {
        match scan.next_row(alloc) {
            Ok(Some(row)) => {
                text.push_str("; ")?;
                text.push_str(values_text(alloc, &row.cells)?.as_str())?;
            }
            Ok(None) => return Ok(text),
            Err(fault) => return read_text(alloc, &fault),
        }
    }
    Ok(text)
}

fn scanned<S: Store>(
    alloc: Global,
    state: &mut State<S>,
    snapshot: Snapshot<S::Reader>,
) -> Result<String, AllocError> {
    let count = snapshot.count();
    match snapshot.scan(alloc) {
        Ok(mut scan) => {
            let told = rows_text(alloc, &mut scan, count);
            state.give_back_snapshot(scan.into_snapshot());
            let told = told?;
            format!(in alloc; "{count} rows{told}")
        }
        Err((snapshot, fault)) => {
            state.give_back_snapshot(snapshot);
            read_text(alloc, &fault)
        }
    }
}

/// The rows of the current version.
pub fn current_rows<S: Store>(alloc: Global, state: &mut State<S>) -> Result<String, AllocError> {
    let (reply, opened) = open_version(alloc, state, Want::Latest);
    match opened {
        Some(snapshot) => scanned(alloc, state, snapshot),
        None => reply_text(alloc, &reply),
    }
}
