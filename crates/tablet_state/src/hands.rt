ghost use Rattle.std.specs.Prelude.{◌≡◌, ◌+◌, ◌-◌, ◌^◌, min, IfOk, IsSome, None};
ghost use Rattle.dev_traits.specs.Causes.{Counts};
ghost use Rattle.dev_traits.specs.View.{Calm, EachImage};
ghost use Rattle.pk_model.specs.Durable.{durable};
ghost use Rattle.pk_model.specs.declared.books.Book.{Book};
ghost use Rattle.tablet_state.specs.Stands.{Stands};
ghost use Rattle.tablet_state.specs.State.{Has, Rests, faults_of, reader_faults};
ghost use Rattle.tablet_state.specs.Seen.{segments_of};

use crate::State;
use dev_traits::{FileMaker, Memory, SealedReader, Store};
use segment_read::Segment;

impl<S: Store> State<S> {
    /// A maker of the store for another lane.
    pub fn lane_maker(&mut self) -> Result<S::Maker, Memory>
        ensures new { IfOk result (λ maker. (S.Maker.view maker).faults ≡ 0) }
        ensures tells { IfOk result (λ maker. IsSome (S.view self.old.store).seen → IsSome (S.Maker.view maker).made) }
        ensures rests { Rests S.view self.old self.new }
        ensures faults { faults_of S.view self.new ≡ faults_of S.view self.old }
        ensures has { (b : Book) → Has S.view self.old b → Has S.view self.new b }
    {
        self.store.maker()
    }

    /// Takes a lane's maker back, and counts its faults.
    pub fn give_back(&mut self, maker: S::Maker)
        ensures rests { Rests S.view self.old self.new }
        ensures faults { faults_of S.view self.new ≡ min (faults_of S.view self.old + (S.Maker.view maker).faults)
            (2 ^ 64 - 1) }
        ensures has { (b : Book) → Has S.view self.old b → Has S.view self.new b }
    {
        self.store.give_back(maker);
    }

    /// Takes a segment back that was handed out, and counts its reader's faults.
    pub fn take_back(&mut self, segment: Segment<S::Reader>)
        ensures rests { Rests S.view self.old self.new }
        ensures faults { faults_of S.view self.new ≡ min (faults_of S.view self.old + (S.Reader.view segment.reader).faults) (2 ^ 64 - 1) }
        ensures has { (b : Book) → Has S.view self.old b → Has S.view self.new b }
    {
        self.store.give_back_reader(segment.reader);
    }

    /// The store, to which the state's own maker and the reader of each segment go back.
    pub fn into_store(self) -> S
        ensures calm { Calm (S.view self.store) (S.view result) }
        ensures counts { Counts (self.maker_faults + reader_faults self.segments)
            (S.view self.store).faults (S.view result).faults }

        // What a crash may leave of an open state's store stands for what lasts of the book that the state has.
        ensures stands { (b : Book) → Has S.view self b → self.closed ≡ None
            → EachImage (S.view result) (Stands self.contents.schema (durable b)) }
    {
        let State {
            mut store,
            maker,
            segments,
            ..
        } = self;
        store.give_back(maker);
        give_back_readers(&mut store, segments);
        store
    }
}

// Hands the readers of segments to the store.
fn give_back_readers<S: Store>(store: &mut S, segments: Vec<Segment<S::Reader>>)
    ensures calm { Calm (S.view store.old) (S.view store.new) }
    ensures counts { Counts (reader_faults (segments_of S.Reader.view segments.items))
        (S.view store.old).faults (S.view store.new).faults }
{
    let mut left = segments.into_iter();
    while let Some(segment) = left.next() {
        store.give_back_reader(segment.reader);
    }
}
