ghost use Rattle.std.specs.Prelude.{◌≡◌, ◌+◌, ◌-◌, ◌^◌, ◌≤◌, ℕ, List, IfErr, IfOk, IfSome, IsOk, IsTrue, None, OnErr};
ghost use Rattle.std.specs.Prelude.{Err, min, OnOk, slice_get};
ghost use Rattle.std.specs.FinMap.{values};
ghost use Rattle.pk_model.specs.Tables.{Rows};
ghost use Rattle.pk_values.specs.Schemas.{fits_row};
ghost use Rattle.pk_values.specs.declared.cells.Value.{Value};
ghost use Rattle.segment_read.specs.Reads.{OnDamage};
ghost use Rattle.snapshot_scan.specs.Scans.{AreToCome, Gives, HasLive, IsCounted, IsDue, IsKept, NoneDue};
ghost use Rattle.snapshot_scan.specs.Scans.{reads_in_all, ReadsAllOnce, ReadsDue, ReadsOnce, ScanFailed, ScanView};
ghost use Rattle.snapshot_scan.specs.Snapshots.{fault_count, IsSnapshotOf, read_count};

use crate::feeds::{refill, start, take_first};
use crate::snapshots::Snapshot;
use dev_traits::{ReadFault, SealedReader};
use pk_values::Row;
use row_merge::{Bracket, Cursor};
use std::alloc::Global;
use std::marker::Model;

/// A scan under way: it gives the live rows of a version in the order of their keys, and holds at
/// most one block of each segment. Contracts see what it has still to give.
#[derive(Drop)]
pub struct Scan<R: SealedReader> {
    snapshot: Snapshot<R>,
    cursors: Vec<Cursor>,
    // None where there is no segment.
    bracket: Option<Bracket>,
    // The part that gave the last row, whose matches aren't played again yet.
    last: usize,
    fault: Option<ReadFault>,
}

impl<R: SealedReader> Model for Scan<R> {
    ghost use Rattle.snapshot_scan.specs.Scans.{IsScanning, ScanView};

    ghost Value = { ScanView };

    ghost view = { λ s. record { snapshot = s.snapshot; cursors = s.cursors.items; fault = s.fault } };

    ghost invariant = { λ s. IsScanning s.snapshot s.cursors.items s.bracket s.last s.fault };
}

impl<R: SealedReader> Snapshot<R> {
    /// Begins a scan, by at most one read of each segment: of its first block with a live row.
    ///
    /// # Errors
    /// The snapshot, and the fault of the block that wasn't read; `Memory`.
    pub fn scan(mut self, alloc: Global) -> Result<Scan<R>, (Snapshot<R>, ReadFault)>
        // What comes are the rows of the map for which the snapshot stands, in the order of their keys.
        ensures rows { IfOk result (λ scan. (m : Rows) → IsSnapshotOf self m → AreToCome scan (values m)) }
        ensures unfailed { IfOk result (λ scan. scan.fault ≡ None) }
        ensures reads { IfOk result (λ scan. ReadsOnce self.parts scan.snapshot.parts) }

        // The whole scan takes at most one read for each block.
        ensures once { IfOk result (λ scan. ReadsAllOnce self.parts scan.snapshot.parts scan.cursors) }
        ensures stands { IfOk result (λ scan. (m : Rows) → IsSnapshotOf self m → IsSnapshotOf scan.snapshot m) }
        ensures version { IfOk result (λ scan. scan.snapshot.version ≡ self.version) }
        ensures schema { IfOk result (λ scan. scan.snapshot.schema ≡ self.schema) }
        ensures failed { IfErr result (λ e. ScanFailed self.schema e.1 self.parts e.0.parts) }

        // Where a reader's failure is told, it was counted.
        ensures counted { IfErr result (λ e. IsCounted e.0.parts e.1) }

        // No damage is told where all files are those of segments.
        ensures intact { IfErr result (λ e. OnDamage e.1 (λ damaged. (m : Rows) → IsSnapshotOf self m → ⊥)) }
        ensures kept_version { IfErr result (λ e. e.0.version ≡ self.version) }
        ensures kept_schema { IfErr result (λ e. e.0.schema ≡ self.schema) }
    {
        match start(alloc, &mut self) {
            Ok((cursors, bracket)) => Ok(Scan {
                snapshot: self,
                cursors,
                bracket,
                last: 0,
                fault: None,
            }),
            Err(fault) => Err((self, fault)),
        }
    }
}

// The fault that each later call answers again.
fn lasting(fault: ReadFault) -> Option<ReadFault>
    ensures { IsKept fault result }
{
    match fault {
        ReadFault::Memory => None,
        ReadFault::StoreFault => Some(ReadFault::StoreFault),
        ReadFault::Damaged(damaged) => Some(ReadFault::Damaged(damaged)),
    }
}

impl<R: SealedReader> Scan<R> {
    /// The next row, or None exactly after the last. Where the segment that gave the last row has no
    /// row at hand, its next block with a live row is read, by one read; otherwise nothing is read.
    ///
    /// # Errors
    /// Those of reading that block. After any of them the same row is still to come. A fault other
    /// than `Memory` is answered again by each later call, which reads nothing.
    pub fn next_row(&mut self, alloc: Global) -> Result<Option<Row>, ReadFault>
        // It gives the first of the rows to come, and the others are to come then; None where no row is left.
        ensures gives { IfOk result (λ row. (rows : List (List Value)) → AreToCome self.old rows
            → Gives row rows (AreToCome self.new)) }
        ensures fits { IfOk result (λ row. IfSome row (λ cells. IsTrue (fits_row self.old.snapshot.schema cells))) }
        ensures stays { OnErr result ((rows : List (List Value)) → AreToCome self.old rows
            → AreToCome self.new rows) }

        // The same block is due after an error.
        ensures refused { OnErr result (self.new.cursors ≡ self.old.cursors) }

        // A fault is answered again, and nothing is read.
        ensures again { IfSome self.old.fault (λ fault. (result ≡ Err fault) × (self.new ≡ self.old)) }
        ensures kept { IfErr result (λ fault. IsKept fault self.new.fault) }
        ensures unfailed { IfOk result (λ row. self.new.fault ≡ None) }

        // Where a reader's failure is told, it was counted.
        ensures counted { IfErr result (IsCounted self.new.snapshot.parts) }

        // Where no block is due nothing is read, and nothing fails.
        ensures at_hand { self.old.fault ≡ None → NoneDue self.old.cursors
            → IsOk result × (self.new.snapshot ≡ self.old.snapshot) }

        // The block that is due has a live row.
        ensures live { (i b : ℕ) → IsDue self.old.cursors i b
            → IfSome (slice_get self.old.snapshot.parts i) (λ part. HasLive part.footer.rows part.dead b) }

        // At most one block is read in all; and where that goes well, it isn't read again.
        ensures most { read_count self.new.snapshot.parts ≤ read_count self.old.snapshot.parts + 1 }
        ensures once { OnOk result (reads_in_all self.new.snapshot.parts self.new.cursors
            ≤ reads_in_all self.old.snapshot.parts self.old.cursors) }

        // The block that is due is read, by one read, and no other.
        ensures due { self.old.fault ≡ None → (i b : ℕ) → IsDue self.old.cursors i b
            → ReadsDue self.old.snapshot.schema i b self.old.snapshot.parts self.new.snapshot.parts result }

        // No damage is told where all files are those of segments.
        ensures intact { self.old.fault ≡ None → IfErr result (λ e. OnDamage e (λ damaged.
            (rows : List (List Value)) → AreToCome self.old rows → ⊥)) }

        // The snapshot goes on to stand for what it stood for.
        ensures stands { (m : Rows) → IsSnapshotOf self.old.snapshot m → IsSnapshotOf self.new.snapshot m }
        ensures version { self.new.snapshot.version ≡ self.old.snapshot.version }
        ensures schema { self.new.snapshot.schema ≡ self.old.snapshot.schema }
    {
        if let Some(fault) = self.fault {
            return Err(fault);
        }
        let Some(bracket) = &mut self.bracket else {
            return Ok(None);
        };
        match refill(alloc, &mut self.snapshot, &mut self.cursors, self.last) {
            Ok(()) => {
                let schema = self.snapshot.schema();
                let (row, last) = take_first(schema, &mut self.cursors, bracket, self.last);
                self.last = last;
                Ok(row)
            }
            Err(fault) => {
                self.fault = lasting(fault);
                Err(fault)
            }
        }
    }

    /// How often the readers have failed, at most the last u64.
    pub fn faults(&self) -> u64
        ensures { result ≡ min (fault_count self.now.snapshot.parts) (2 ^ 64 - 1) }
    {
        self.snapshot.faults()
    }

    /// Ends the scan and gives back its snapshot.
    pub fn into_snapshot(self) -> Snapshot<R>
        ensures { result ≡ self.snapshot }
    {
        let Scan { snapshot, .. } = self;
        snapshot
    }
}
