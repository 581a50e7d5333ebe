ghost use Rattle.std.specs.Prelude.{◌≡◌, ◌-◌, ◌^◌, ◌<◌, min, map, All, IfOk, IfErr, IfSome, IsTrue, length, slice_get};
ghost use Rattle.pk_values.specs.Schemas.{fits_row};
ghost use Rattle.std.specs.FinMap.{len};
ghost use Rattle.pk_model.specs.Tables.{Rows};
ghost use Rattle.dev_traits.specs.Causes.{Counts};
ghost use Rattle.dev_traits.specs.View.{Calm};
ghost use Rattle.segment_read.specs.Reads.{OnDamage, Reading};
ghost use Rattle.segment_read.specs.Rows.{IsRowsDamage};
ghost use Rattle.rowsets.specs.Scans as scans;
ghost use Rattle.snapshot_scan.specs.Parts.{AreLive, AreLiveIn, AreWrittenIn, IsAllWhole, IsBlockOf, IsWhole};
ghost use Rattle.snapshot_scan.specs.Parts.{seen, ToldOfNoPiece};
ghost use Rattle.snapshot_scan.specs.Scans.{HasLeft, HasLive, IsBlockDamage, IsCursor, ReadOn};
ghost use Rattle.snapshot_scan.specs.Snapshots.{AreParts, fault_count, IsSnapshotOf, live_count, ReadsPart};

use crate::parts::{first_cursor, live_block, live_part, read_on, written_block};
use column_page::Footer;
use del_vector::DelVector;
use dev_traits::{ReadFault, SealedReader, Store};
use pk_values::{Row, Schema};
use row_merge::Cursor;
use segment_read::Segment;
use std::alloc::Global;
use std::marker::Model;

/// The live rows of a version: of each segment, numbered from 0, those that aren't dead. It stays
/// as it is, whatever becomes of the version.
#[derive(Drop)]
pub struct Snapshot<R: SealedReader> {
    version: u64,
    schema: Schema,
    parts: Vec<(Segment<R>, DelVector)>,
}

impl<R: SealedReader> Model for Snapshot<R> {
    ghost use Rattle.std.specs.Prelude.{map};
    ghost use Rattle.snapshot_scan.specs.Parts.{seen};
    ghost use Rattle.snapshot_scan.specs.Snapshots.{AreParts, SnapshotView};

    ghost Value = { SnapshotView };

    ghost view = { λ s. record { version = s.version; schema = s.schema; parts = map (seen R.view) s.parts.items } };

    ghost invariant = { λ s. AreParts s.schema (map (seen R.view) s.parts.items) };
}

impl<R: SealedReader> Snapshot<R> {
    /// The snapshot of a version: its segments, each with its dead rows.
    pub fn of(version: u64, schema: Schema, parts: Vec<(Segment<R>, DelVector)>) -> Snapshot<R>
        requires { AreParts schema (map (seen R.view) parts.items) }
        ensures version { result.version ≡ version }
        ensures schema { result.schema ≡ schema }
        ensures parts { result.parts ≡ map (seen R.view) parts.items }
    {
        Snapshot {
            version,
            schema,
            parts,
        }
    }

    /// The number of the version.
    pub fn version(&self) -> u64
        ensures { result ≡ self.now.version }
    {
        self.version
    }

    /// How many segments there are.
    pub fn segments(&self) -> u64
        ensures { result ≡ length self.now.parts }
    {
        self.parts.len() as u64
    }

    /// How many rows are live. It reads nothing.
    pub fn count(&self) -> u64
        ensures count { result ≡ live_count self.now.parts }

        // As many as the map has for which the snapshot stands.
        ensures size { (m : Rows) → IsSnapshotOf self.now m → result ≡ len m }
    {
        let mut count = 0;
        for part in &self.parts {
            count += u64::from(part.0.footer.rows() - part.1.count());
        }
        count
    }

    /// The number of a segment's file.
    pub fn file(&self, i: u64) -> u64
        requires { i < length self.now.parts }
        ensures { IfSome (slice_get self.now.parts i) (λ part. result ≡ part.number) }
    {
        self.parts[i as usize].0.number
    }

    /// The dead rows of a segment.
    pub fn dead(&self, i: u64) -> &DelVector
        requires { i < length self.now.parts }
        ensures { IfSome (slice_get self.now.parts i) (λ part. result.now ≡ part.dead) }
    {
        &self.parts[i as usize].1
    }

    /// The footer of a segment.
    pub fn footer(&self, i: u64) -> &Footer
        requires { i < length self.now.parts }
        ensures { IfSome (slice_get self.now.parts i) (λ part. result.now ≡ part.footer) }
    {
        &self.parts[i as usize].0.footer
    }

    /// How often the readers have failed, at most the last u64.
    pub fn faults(&self) -> u64
        ensures { result ≡ min (fault_count self.now.parts) (2 ^ 64 - 1) }
    {
        let mut faults: u64 = 0;
        for part in &self.parts {
            faults = faults.saturating_add(part.0.faults());
        }
        faults
    }

    /// The live rows of a segment in the order of their keys, by one read for each of its blocks.
    ///
    /// # Errors
    /// Those of reading its rows.
    pub fn segment_rows(&mut self, alloc: Global, i: u64) -> Result<Vec<Row>, ReadFault>
        requires { i < length self.old.parts }
        ensures live { IfOk result (λ live. IfSome (slice_get self.old.parts i) (λ part.
            AreLive self.old.schema part live.items)) }

        // Rows are given of a file alone whose bytes are those of a segment.
        ensures whole { IfOk result (λ _. IfSome (slice_get self.old.parts i) (λ part.
            IsAllWhole self.old.schema part)) }
        ensures damaged { IfErr result (λ e. IfSome (slice_get self.old.parts i) (λ part.
            OnDamage e (IsRowsDamage self.old.schema part.footer part.number part.reader))) }

        // No damage is told of the file of a segment.
        ensures intact { IfErr result (λ e. IfSome (slice_get self.old.parts i) (λ part.
            ToldOfNoPiece self.old.schema part e)) }

        // Of all readers that of this segment alone is read.
        ensures reading { ReadsPart i self.old.parts self.new.parts (λ part reader.
            Reading (length part.footer.blocks) part.reader reader result) }
        ensures version { self.new.version ≡ self.old.version }
        ensures schema { self.new.schema ≡ self.old.schema }
    {
        live_part(alloc, &self.schema, &mut self.parts[i as usize])
    }

    /// The live rows of block `b` of a segment, counted from 0, by one read.
    ///
    /// # Errors
    /// Those of reading the block.
    pub fn block_rows(&mut self, alloc: Global, i: u64, b: u32) -> Result<Vec<Row>, ReadFault>
        requires there { i < length self.old.parts }
        requires block { IfSome (slice_get self.old.parts i) (λ part. b < length part.footer.blocks) }
        ensures live { IfOk result (λ live. IfSome (slice_get self.old.parts i) (λ part.
            AreLiveIn self.old.schema part b live.items)) }

        // Rows are given of a block alone whose bytes are those of rows.
        ensures whole { IfOk result (λ _. IfSome (slice_get self.old.parts i) (λ part.
            IsWhole self.old.schema part b)) }
        ensures damaged { IfErr result (λ e. IfSome (slice_get self.old.parts i) (λ part.
            OnDamage e (IsBlockDamage self.old.schema part b))) }

        // No damage is told of the file of a segment.
        ensures intact { IfErr result (λ e. IfSome (slice_get self.old.parts i) (λ part.
            ToldOfNoPiece self.old.schema part e)) }
        ensures reading { ReadsPart i self.old.parts self.new.parts (λ part reader.
            Reading 1 part.reader reader result) }
        ensures version { self.new.version ≡ self.old.version }
        ensures schema { self.new.schema ≡ self.old.schema }
    {
        live_block(alloc, &self.schema, &mut self.parts[i as usize], b)
    }

    /// All rows of block `b` of a segment, counted from 0, by one read. The dead rows stand among them.
    ///
    /// # Errors
    /// Those of reading the block.
    pub fn written_rows(&mut self, alloc: Global, i: u64, b: u32) -> Result<Vec<Row>, ReadFault>
        requires there { i < length self.old.parts }
        requires block { IfSome (slice_get self.old.parts i) (λ part. b < length part.footer.blocks) }
        ensures rows { IfOk result (λ rows. IfSome (slice_get self.old.parts i) (λ part.
            AreWrittenIn self.old.schema part b rows.items)) }

        // Rows are given of a block alone whose bytes are those of these rows.
        ensures bytes { IfOk result (λ rows. IfSome (slice_get self.old.parts i) (λ part.
            IsBlockOf self.old.schema part b rows.items)) }
        ensures fit { IfOk result (λ rows. All (λ row. IsTrue (fits_row self.old.schema row)) rows.items) }
        ensures damaged { IfErr result (λ e. IfSome (slice_get self.old.parts i) (λ part.
            OnDamage e (IsBlockDamage self.old.schema part b))) }

        // No damage is told of the file of a segment.
        ensures intact { IfErr result (λ e. IfSome (slice_get self.old.parts i) (λ part.
            ToldOfNoPiece self.old.schema part e)) }
        ensures reading { ReadsPart i self.old.parts self.new.parts (λ part reader.
            Reading 1 part.reader reader result) }
        ensures version { self.new.version ≡ self.old.version }
        ensures schema { self.new.schema ≡ self.old.schema }
    {
        written_block(alloc, &self.schema, &mut self.parts[i as usize], b)
    }

    /// The schema of the rows.
    pub fn schema(&self) -> &Schema
        ensures { result.now ≡ self.now.schema }
    {
        &self.schema
    }

    // The cursor before the live rows of a segment.
    pub(crate) fn first_cursor(&self, alloc: Global, i: u64) -> Cursor
        requires { i < length self.now.parts }
        ensures cursor { IfSome (slice_get self.now.parts i) (λ part. IsCursor self.now.schema part result) }
        ensures rows { IfSome (slice_get self.now.parts i) (λ part.
            HasLeft self.now.schema part scans.live_rows result) }
    {
        first_cursor(alloc, &self.parts[i as usize])
    }

    // The cursor at the live rows of a block that has one, by one read.
    pub(crate) fn read_on(&mut self, alloc: Global, i: u64, b: u32) -> Result<Cursor, ReadFault>
        requires there { i < length self.old.parts }
        requires live { IfSome (slice_get self.old.parts i) (λ part. HasLive part.footer.rows part.dead b) }
        ensures read { ReadsPart i self.old.parts self.new.parts (λ part reader.
            ReadOn self.old.schema part b reader result) }
        ensures version { self.new.version ≡ self.old.version }
        ensures schema { self.new.schema ≡ self.old.schema }
    {
        read_on(alloc, &self.schema, &mut self.parts[i as usize], b)
    }
}

/// Hands all readers of a snapshot to the store, which counts their faults.
pub fn give_back_snapshot<S: Store>(store: &mut S, snapshot: Snapshot<S::Reader>)
    ensures calm { Calm (S.view store.old) (S.view store.new) }
    ensures counts { Counts (fault_count snapshot.parts) (S.view store.old).faults (S.view store.new).faults }
{
    let Snapshot { parts, .. } = snapshot;
    let mut left = parts.into_iter();
    while let Some((segment, _)) = left.next() {
        store.give_back_reader(segment.reader);
    }
}
