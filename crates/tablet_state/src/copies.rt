ghost use Rattle.std.specs.Prelude.{◌≡◌, ◌+◌, ◌≤◌, Some, true, map, IfOk, IsSome, OnErr, OnOk};
ghost use Rattle.rowsets.specs.Marks.{Rises};
ghost use Rattle.pk_model.specs.declared.books.Book.{Book};
ghost use Rattle.pk_values.specs.declared.cells.Value.{Value};
ghost use Rattle.dev_traits.specs.Causes.{HasMakeCause};
ghost use Rattle.segment_form.specs.Segments.{AreSegmentRows, footer_of, segment_file};
ghost use Rattle.std.specs.Prelude.{ℕ, List, None};
ghost use Rattle.std.specs.FinMap.{get};
ghost use Rattle.index_level0.specs.declared.place.Place.{Place as Spot};
ghost use Rattle.segment_read.specs.Reads.{KnowsFooter};
ghost use Rattle.tablet_state.specs.Contents.{index_of};
ghost use Rattle.tablet_state.specs.Moving.{HasAt, HasRowOf, IsCopyOf, KeysAreTold, PlacesAreLive};
ghost use Rattle.tablet_state.specs.Moving.{keeps_live, read_once, total_reads};
ghost use Rattle.tablet_state.specs.Seen.{segment_seen, segments_of};
ghost use Rattle.tablet_state.specs.Snapshots.{Lends, SameButReads};
ghost use Rattle.tablet_state.specs.State.{Has, Rests, faults_of, segment_of};

use crate::State;
use crate::snapshots::place_of;
use dev_traits::{FileMaker, MakeFault, Memory, SealedReader, Store};
use index_level0::Place;
use pk_values::Row;
use segment_read::Segment;
use segment_write::{Made, write_segment};
use std::alloc::Global;

/// What is held for a book tells which keys have no row, and of those that stand where they stood that they have the
/// row that they had. The function does nothing.
pub fn told_keys()
    ensures { KeysAreTold }
{}

// Another segment of a file.
fn copy_of<R: SealedReader>(
    alloc: Global,
    segments: &mut Vec<Segment<R>>,
    file: u64,
) -> Result<Segment<R>, Memory>
    requires rise { Rises (map (λ g. g.number) (segments_of R.view segments.old.items)) }
    requires there { IsSome (segment_of (segments_of R.view segments.old.items) file) }
    ensures copy { IfOk result (λ copy. IsCopyOf (segments_of R.view segments.old.items) file
        (segment_seen R.view copy)) }
    ensures counted { OnOk result (segments_of R.view segments.new.items
        ≡ read_once file (segments_of R.view segments.old.items)) }
    ensures uncounted { OnErr result (segments_of R.view segments.new.items
        ≡ segments_of R.view segments.old.items) }
    ensures same { SameButReads (segments_of R.view segments.old.items) (segments_of R.view segments.new.items) }
    ensures reads { total_reads (segments_of R.view segments.new.items)
        ≤ total_reads (segments_of R.view segments.old.items) + 1 }
{
    let place = place_of(segments.as_slice(), file);
    let copy = segments[place].copy(alloc)?;
    Ok(copy)
}

impl<S: Store> State<S> {
    /// Whether a version is kept and has a live row at a place, as the version stands now. It reads nothing.
    pub fn stays_live(&self, v: u64, place: &Place) -> bool
        ensures stays { result ≡ keeps_live self.now.contents v place.now }

        // Then there is a segment of the place's file, which has the row.
        ensures there { result ≡ true → HasRowOf self.now.segments place.now }

        // The places that the index of a book has are live in the current version.
        ensures live { PlacesAreLive S.view self.now }
    {
        if v < self.floor {
            return false;
        }
        if self.version() < v {
            return false;
        }
        self.is_live(v, place)
    }

    /// A segment of a file, with a reader of its own, which has counted nothing. Nothing is read: it counts as one read
    /// of the state's reader of the file.
    pub fn segment(&mut self, alloc: Global, file: u64) -> Result<Segment<S::Reader>, Memory>
        requires there { IsSome (segment_of self.old.segments file) }
        ensures copy { IfOk result (λ copy. IsCopyOf self.old.segments file (segment_seen S.Reader.view copy)) }
        ensures known { IfOk result (λ copy. KnowsFooter self.old.contents.schema (S.Reader.view copy.reader)
            copy.footer) }

        // Where the state is open and has a book, it has the rows of the keys that the index places there.
        ensures rows { IfOk result (λ copy. (b : Book) (k : List Value) (p : Spot) → Has S.view self.old b
            → self.old.closed ≡ None → index_of self.old.contents k ≡ Some p → p.segment ≡ file
            → HasAt self.old.contents.schema (segment_seen S.Reader.view copy) p.row (get b.current k)) }

        // No other reader is asked, and none where memory is wanted.
        ensures counted { OnOk result (self.new.segments ≡ read_once file self.old.segments) }
        ensures uncounted { OnErr result (self.new.segments ≡ self.old.segments) }
        ensures reads { total_reads self.new.segments ≤ total_reads self.old.segments + 1 }
        ensures lends { Lends S.view self.old self.new }
        ensures faults { faults_of S.view self.new ≡ faults_of S.view self.old }
        ensures has { (b : Book) → Has S.view self.old b → Has S.view self.new b }
    {
        copy_of(alloc, &mut self.segments, file)
    }

    /// Seals rows in a file of their own, in their order, with the state's own maker. Whatever that maker had begun
    /// before is dropped. Nothing else of the state changes.
    ///
    /// # Errors
    /// `StoreFault` exactly where the maker failed, which it counted once; `Memory` where it or this call wants memory,
    /// and then nothing is counted.
    pub fn write_rows(&mut self, alloc: Global, rows: &[Row]) -> Result<Made<S::Maker>, MakeFault>
        requires { AreSegmentRows self.old.contents.schema rows.now }
        ensures footer { IfOk result (λ made. made.footer ≡ footer_of self.old.contents.schema rows.now) }
        ensures sealed { IfOk result (λ made. (bytes : List ℕ) → S.Maker.sealed_bytes made.sealed ≡ Some bytes
            → bytes ≡ segment_file self.old.contents.schema rows.now) }

        // Where the store tells, the file tells just the bytes of these rows.
        ensures told { IfOk result (λ made. IsSome (S.view self.old.store).seen → S.Maker.sealed_bytes made.sealed
            ≡ Some (segment_file self.old.contents.schema rows.now)) }

        // The fault is the maker's, and the state is as it was but for the maker's count.
        ensures maker { HasMakeCause self.old.maker_faults self.new.maker_faults result }
        ensures alone { self.new ≡ record self.old { maker_faults = self.new.maker_faults } }
        ensures cause { HasMakeCause (faults_of S.view self.old) (faults_of S.view self.new) result }
        ensures rests { Rests S.view self.old self.new }
        ensures has { (b : Book) → Has S.view self.old b → Has S.view self.new b }
    {
        write_segment(alloc, &mut self.maker, &self.schema, rows)
    }
}
