ghost use Rattle.std.specs.Prelude.{◌≡◌, ◌≤◌, ◌++◌, IsTrue, List, length, None, IfOk, IfErr, OnOk};
ghost use Rattle.dev_traits.specs.declared.faults.Damaged.{Damaged};
ghost use Rattle.dev_traits.specs.declared.faults.OutsideFault.TheVariants as outside;
ghost use Rattle.pk_values.specs.Schemas.{Layout, fits_row};
ghost use Rattle.pk_values.specs.declared.cells.Value.{Value};
ghost use Rattle.script_text.specs.Texts.{row_text, rows_text};
ghost use Rattle.snapshot_scan.specs.Scans.{AreToCome, Gives};
ghost use Rattle.snapshot_scan.specs.Snapshots.{fault_count};
ghost use Rattle.tablet_run.specs.Scanning.{PutsNext};

use dev_traits::{OutsideFault, ReadFault, SealedReader};
use pk_values::{Octets, Row};
use script_text::put_rows;
use snapshot_scan::Scan;
use std::alloc::Global;

// Puts a row behind a text.
fn put_row(text: &mut Vec<u8>, row: Row) -> Result<(), OutsideFault>
    requires { (s : Layout) × IsTrue (fits_row s row) }
    ensures put { OnOk result (text.new.items ≡ text.old.items ++ row_text row) }
    ensures memory { IfErr result (λ e. e ≡ outside.Memory) }
{
    let rows = [row];
    match put_rows(text, &rows) {
        Ok(()) => Ok(()),
        Err(_) => Err(OutsideFault::Memory),
    }
}

// Puts the next row of a scan behind a text, and tells whether there was one.
fn put_next<R: SealedReader>(
    alloc: Global,
    scan: &mut Scan<R>,
    text: &mut Vec<u8>,
) -> Result<bool, OutsideFault>
    requires unfailed { scan.old.fault ≡ None }
    ensures next { IfOk result (λ more. (rows : List (List Value)) → AreToCome scan.old rows
        → PutsNext more rows text.old.items text.new.items (AreToCome scan.new)) }
    ensures unfailed { IfOk result (λ _. scan.new.fault ≡ None) }
    ensures counted { IfErr result (λ e. e ≡ outside.Fault → 1 ≤ fault_count scan.new.snapshot.parts) }
    ensures intact { IfErr result (λ e. (d : Damaged) → e ≡ outside.Damaged d → (rows : List (List Value))
        → AreToCome scan.old rows → ⊥) }
{
    match scan.next_row(alloc) {
        Ok(Some(row)) => {
            put_row(text, row)?;
            Ok(true)
        }
        Ok(None) => Ok(false),
        Err(fault) => Err(OutsideFault::from(fault)),
    }
}

// A text as octets.
fn octets_of(alloc: Global, text: Vec<u8>) -> Result<Octets, OutsideFault>
    ensures same { IfOk result (λ octets. octets ≡ text.items) }
    ensures memory { IfErr result (λ e. e ≡ outside.Memory) }
{
    match Octets::from_vec(alloc, text) {
        Ok(octets) => Ok(octets),
        Err(_) => Err(OutsideFault::Memory),
    }
}

/// The rows that a scan has still to give, which are so many, as a report has them.
///
/// # Errors
/// `Fault` where a reader failed, `Damaged` where a block is damaged, and `Memory`.
pub fn text_of_rows<R: SealedReader>(
    alloc: Global,
    scan: &mut Scan<R>,
    count: u64,
) -> Result<Octets, OutsideFault>
    requires unfailed { scan.old.fault ≡ None }
    ensures rows { IfOk result (λ text. (rows : List (List Value)) → AreToCome scan.old rows → length rows ≡ count
        → text ≡ rows_text rows) }
    ensures counted { IfErr result (λ e. e ≡ outside.Fault → 1 ≤ fault_count scan.new.snapshot.parts) }
    ensures intact { IfErr result (λ e. (d : Damaged) → e ≡ outside.Damaged d → (rows : List (List Value))
        → AreToCome scan.old rows → ⊥) }
{
    let mut text = Vec::new(alloc);
    for i in 0..count {
        let more = match put_next(alloc, scan, &mut text) {
            Ok(more) => more,
            Err(fault) => return Err(fault),
        };
        if !more {
            return octets_of(alloc, text);
        }
    }
    octets_of(alloc, text)
}
