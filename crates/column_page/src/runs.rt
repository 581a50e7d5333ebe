ghost use Rattle.std.specs.Prelude.{◌≡◌, ◌+◌, ◌≤◌, ◌<◌, ◌^◌, ◌++◌, OnOk, IfNone, IfOk, IfSome, length, replicate, drop};
ghost use Rattle.column_page.specs.Page.{run_bytes, run_length, FirstDiffers};
ghost use Rattle.column_page.specs.Texts.{lent};

use crate::values::put_u16;
use std::alloc::{AllocError, Global};

// How many cells at the front equal a cell.
fn run_len(cells: &[&[u8]], first: &[u8]) -> usize
    ensures within { result ≤ length cells.now }
    ensures equal { lent cells.now ≡ replicate result first.now ++ drop result (lent cells.now) }
    ensures longest { FirstDiffers first.now (drop result (lent cells.now)) }
{
    for i in 0..cells.len() {
        if cells[i] != first {
            return i;
        }
    }
    cells.len()
}

// Appends a run of so many cells.
fn put_run(out: &mut Vec<u8>, len: u16, cell: &[u8]) -> Result<(), AllocError>
    ensures { OnOk result (out.new.items ≡ out.old.items ++ run_bytes (len, cell.now)) }
{
    put_u16(out, len)?;
    out.extend_from_slice(cell)
}

/// The run-length form of the cells; None only where it has `most` bytes or more.
pub fn runs_within(
    alloc: Global,
    cells: &[&[u8]],
    most: usize,
) -> Result<Option<Vec<u8>>, AllocError>
    requires { length cells.now < 2 ^ 16 }
    ensures some { IfOk result (λ found. IfSome found (λ page. page.items ≡ run_length (lent cells.now))) }
    ensures none { IfOk result (λ found. IfNone found (most ≤ length (run_length (lent cells.now)))) }
{
    let mut body = Vec::new(alloc);
    let mut count: u16 = 0;
    let mut start = 0;
    while start < cells.len() {
        if body.len() >= most {
            return Ok(None);
        }
        let first = cells[start];
        let len = run_len(&cells[start..], first);
        put_run(&mut body, len as u16, first)?;
        count += 1;
        start += len;
    }
    let mut page = Vec::new(alloc);
    page.push(1)?;
    put_u16(&mut page, count)?;
    page.extend_from_slice(&body)?;
    Ok(Some(page))
}
