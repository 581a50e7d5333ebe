ghost use Rattle.std.specs.Prelude.{◌≡◌, ◌<◌, IfOk, IsTrue};
ghost use Rattle.std.specs.List.{AllByRecursion};
ghost use Rattle.segment_read.specs.Reads.{KnowsFooter};

use crate::tables::table;
use del_vector::DelVector;
use dev_traits::SealedReader;
use pk_values::Schema;
use segment_read::Segment;
use snapshot_scan::Snapshot;
use std::alloc::{AllocError, Global};
use std::marker::Model;

/// Parts of a snapshot of the table.
#[derive(Drop)]
pub struct Parts<R: SealedReader> {
    schema: Schema,
    parts: Vec<(Segment<R>, DelVector)>,
}

impl<R: SealedReader> Model for Parts<R> {
    ghost use Rattle.std.specs.Prelude.{map};
    ghost use Rattle.pk_values.specs.Schemas.{Layout};
    ghost use Rattle.snapshot_scan.specs.Parts.{seen};
    ghost use Rattle.snapshot_scan.specs.Snapshots.{AreParts};

    ghost Value = { Layout };

    ghost view = { λ p. p.schema };

    ghost invariant = { λ p. AreParts p.schema (map (seen R.view) p.parts.items) };
}

// Whether each dead row is one of so many.
fn are_below(alloc: Global, dead: &DelVector, rows: u32) -> Result<bool, AllocError>
    ensures { IfOk result (λ below. IsTrue below → AllByRecursion (λ r. r < rows) dead.now) }
{
    Ok(dead.rows(alloc)?.iter().all(|row| *row < rows))
}

impl<R: SealedReader> Parts<R> {
    pub fn new(alloc: Global) -> Result<Parts<R>, AllocError> {
        Ok(Parts {
            schema: table(alloc)?,
            parts: Vec::new(alloc),
        })
    }

    pub fn schema(&self) -> &Schema
        ensures { result.now ≡ self.now }
    {
        &self.schema
    }

    /// Takes a segment with its dead rows as one part more, unless it has no such rows, and tells how many parts
    /// there are.
    pub fn add(
        &mut self,
        alloc: Global,
        segment: Segment<R>,
        dead: DelVector,
    ) -> Result<usize, AllocError>
        requires { KnowsFooter self.old (R.view segment.reader) segment.footer }
    {
        let rows = segment.footer.fields().rows;
        if self.parts.len() >= 1000 {
            return Ok(self.parts.len());
        }
        if !are_below(alloc, &dead, rows)? {
            return Ok(self.parts.len());
        }
        self.parts.push((segment, dead))?;
        Ok(self.parts.len())
    }

    /// The snapshot of the parts.
    pub fn into_snapshot(self) -> Snapshot<R> {
        let Parts { schema, parts } = self;
        Snapshot::of(1, schema, parts)
    }
}
