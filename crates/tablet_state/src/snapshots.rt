ghost use Rattle.std.specs.Prelude.{◌≡◌, ◌+◌, ◌-◌, ◌^◌, ◌<◌, ◌++◌, ◌∷◌, [], List, None, Some, min, map, slice_get};
ghost use Rattle.std.specs.Prelude.{IfOk, IfSome, IsSome, OnOk, length};
ghost use Rattle.std.specs.List.{AllByRecursion};
ghost use Rattle.std.specs.FinMap.{len};
ghost use Rattle.pk_model.specs.Books.{rows_at};
ghost use Rattle.pk_model.specs.Tables.{Rows};
ghost use Rattle.pk_model.specs.declared.books.Book.{Book};
ghost use Rattle.rowsets.specs.Marks.{Rises};
ghost use Rattle.journal_form.specs.declared.records.ListedFile.{ListedFile};
ghost use Rattle.journal_form.specs.Versions.{files_of};
ghost use Rattle.kept_versions.specs.Files.{alive, is_live};
ghost use Rattle.snapshot_scan.specs.Parts.{seen};
ghost use Rattle.snapshot_scan.specs.Snapshots.{AreParts, fault_count, IsSnapshotOf, read_count};
ghost use Rattle.tablet_state.specs.Seen.{segments_of};
ghost use Rattle.tablet_state.specs.Snapshots.{ArePartsOf, IsKept, IsPartOf, Lends, rowsets_at, SameButReads};
ghost use Rattle.tablet_state.specs.State.{Has, Rests, faults_of, segment_of};

use crate::State;
use del_vector::DelVector;
use dev_traits::{Memory, SealedReader, Store};
use index_level0::Place;
use kept_versions::{KeptFile, KeptVersion};
use segment_read::Segment;
use snapshot_scan::{Snapshot, give_back_snapshot};
use std::alloc::Global;

// The place of a file's segment, by a binary search.
pub(crate) fn place_of<R: SealedReader>(segments: &[Segment<R>], file: u64) -> usize
    requires rise { Rises (map (λ g. g.number) (segments_of R.view segments.now)) }
    requires there { IsSome (segment_of (segments_of R.view segments.now) file) }
    ensures { slice_get (segments_of R.view segments.now) result ≡ segment_of (segments_of R.view segments.now) file }
{
    let mut low = 0;
    let mut high = segments.len();
    while low < high {
        let middle = low + (high - low) / 2;
        if segments[middle].number < file {
            low = middle + 1;
        } else {
            high = middle;
        }
    }
    low
}

// A file's segment with another reader, and the file's dead rows.
fn part_of<R: SealedReader>(
    alloc: Global,
    segments: &mut Vec<Segment<R>>,
    file: &KeptFile,
) -> Result<(Segment<R>, DelVector), Memory>
    requires rise { Rises (map (λ g. g.number) (segments_of R.view segments.old.items)) }
    requires there { IsSome (segment_of (segments_of R.view segments.old.items) file.now.file) }
    ensures part { IfOk result (λ part. IsPartOf (segments_of R.view segments.old.items) file.now (seen R.view part)) }
    ensures same { SameButReads (segments_of R.view segments.old.items) (segments_of R.view segments.new.items) }
{
    let place = place_of(segments.as_slice(), file.number());
    let dead = file.dead().copy()?;
    let segment = segments[place].copy(alloc)?;
    Ok((segment, dead))
}

// The parts of files join others.
fn join_parts<R: SealedReader>(
    alloc: Global,
    segments: &mut Vec<Segment<R>>,
    files: &[KeptFile],
    parts: &mut Vec<(Segment<R>, DelVector)>,
) -> Result<(), Memory>
    requires rise { Rises (map (λ g. g.number) (segments_of R.view segments.old.items)) }
    requires there { AllByRecursion (λ f. IsSome (segment_of (segments_of R.view segments.old.items) f.file))
        files.now }
    ensures joined { OnOk result ((before : List ListedFile)
        → ArePartsOf (segments_of R.view segments.old.items) before (map (seen R.view) parts.old.items)
        → ArePartsOf (segments_of R.view segments.old.items) (before ++ files.now)
        (map (seen R.view) parts.new.items)) }
    ensures same { SameButReads (segments_of R.view segments.old.items) (segments_of R.view segments.new.items) }
{
    for file in files {
        parts.push(part_of(alloc, segments, file)?)?;
    }
    Ok(())
}

// The parts of a version.
fn parts_of<R: SealedReader>(
    alloc: Global,
    segments: &mut Vec<Segment<R>>,
    version: &KeptVersion,
) -> Result<Vec<(Segment<R>, DelVector)>, Memory>
    requires rise { Rises (map (λ g. g.number) (segments_of R.view segments.old.items)) }
    requires there { AllByRecursion (λ f. IsSome (segment_of (segments_of R.view segments.old.items) f.file))
        (files_of version.now) }
    ensures parts { IfOk result (λ parts.
        ArePartsOf (segments_of R.view segments.old.items) (files_of version.now) (map (seen R.view) parts.items)) }
    ensures same { SameButReads (segments_of R.view segments.old.items) (segments_of R.view segments.new.items) }
{
    let mut parts = Vec::new(alloc);
    for files in version.rowsets() {
        join_parts(alloc, segments, files.as_slice(), &mut parts)?;
    }
    Ok(parts)
}

// One of the kept versions.
fn version_at<'a>(older: &'a [KeptVersion], current: &'a KeptVersion, i: usize) -> &'a KeptVersion
    requires { i < length older.now + 1 }
    ensures { slice_get (older.now ++ current.now ∷ []) i ≡ Some result.now }
{
    if i < older.len() { &older[i] } else { current }
}

impl<S: Store> State<S> {
    /// The files of a kept version, each with its dead rows and a reader of its own, which has counted nothing.
    /// Nothing is read: each file counts as one read of the state's reader of it.
    pub fn parts(
        &mut self,
        alloc: Global,
        v: u64,
    ) -> Result<Vec<(Segment<S::Reader>, DelVector)>, Memory>
        requires { IsKept self.old.contents v }
        ensures parts { IfOk result (λ parts. IfSome (rowsets_at self.old.contents v) (λ rowsets.
            ArePartsOf self.old.segments (files_of rowsets) (map (seen S.Reader.view) parts.items))) }

        // They can be a snapshot; and where the state is open and has a book, it is one of the version's rows.
        ensures are { IfOk result (λ parts. AreParts self.old.contents.schema (map (seen S.Reader.view) parts.items)) }
        ensures stands { IfOk result (λ parts. (b : Book) (m : Rows) → Has S.view self.old b
            → self.old.closed ≡ None → rows_at b v ≡ Some m
            → IsSnapshotOf (record {
              version = v;
              schema = self.old.contents.schema;
              parts = map (seen S.Reader.view) parts.items;
            }) m) }
        ensures unfailed { IfOk result (λ parts. fault_count (map (seen S.Reader.view) parts.items) ≡ 0) }
        ensures unread { IfOk result (λ parts. read_count (map (seen S.Reader.view) parts.items) ≡ 0) }
        ensures lends { Lends S.view self.old self.new }
        ensures faults { faults_of S.view self.new ≡ faults_of S.view self.old }
        ensures has { (b : Book) → Has S.view self.old b → Has S.view self.new b }
    {
        let version = version_at(
            self.older.as_slice(),
            &self.current,
            (v - self.floor) as usize,
        );
        parts_of(alloc, &mut self.segments, version)
    }

    /// How many rows of the current version are live. It reads nothing.
    pub fn rows(&self) -> u64
        ensures count { result ≡ alive (files_of self.now.contents.current) }

        // As many as the book has that an open state has.
        ensures size { (b : Book) → Has S.view self.now b → self.now.closed ≡ None → result ≡ len b.current }
    {
        self.current.rows_alive()
    }

    /// Whether a kept version has a live row at a place. It reads nothing.
    pub fn is_live(&self, v: u64, place: &Place) -> bool
        requires { IsKept self.now.contents v }
        ensures { IfSome (rowsets_at self.now.contents v) (λ rowsets. result ≡ is_live rowsets place.now) }
    {
        let version = version_at(
            self.older.as_slice(),
            &self.current,
            (v - self.floor) as usize,
        );
        version.is_live(place)
    }

    /// Takes a snapshot back, and counts the faults of its readers.
    pub fn give_back_snapshot(&mut self, snapshot: Snapshot<S::Reader>)
        ensures rests { Rests S.view self.old self.new }
        ensures faults { faults_of S.view self.new
            ≡ min (faults_of S.view self.old + fault_count snapshot.parts) (2 ^ 64 - 1) }
        ensures has { (b : Book) → Has S.view self.old b → Has S.view self.new b }
    {
        give_back_snapshot(&mut self.store, snapshot);
    }
}
