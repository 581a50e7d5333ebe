ghost use Rattle.std.specs.Prelude.{◌≡◌, ◌⊎◌, ◌≤◌, ◌-◌, ◌^◌, ℕ, min, None, IsTrue, IfOk, IfErr, IsErrOf, OnOk, is_some};
ghost use Rattle.std.specs.List.Sorted.{IsStrictlyIncreasing};
ghost use Rattle.std.specs.Option.{option_map};
ghost use Rattle.dev_traits.specs.Causes.{Counts, HasCauseOf, RoseBy};
ghost use Rattle.dev_traits.specs.Image.{Forgets, ForgetsSome, with_files_of};
ghost use Rattle.dev_traits.specs.View.{Calm, EachImage, Leaves, LeavesOnly, Told};
ghost use Rattle.dev_traits.specs.declared.faults.Damaged.{Damaged};
ghost use Rattle.core_recover.specs.Damages.{IsDamageOf};
ghost use Rattle.core_recover.specs.Keeping.{CountsAs, CountsNone, HoldsRecords, IsKeptOrForgotten, IsUnforgotten, ReadsNamed, StillReads};
ghost use Rattle.core_recover.specs.Areas.{SameFiles};
ghost use Rattle.pk_values.specs.Schemas.{Layout};
ghost use Rattle.pk_model.specs.Durable.{durable};
ghost use Rattle.pk_model.specs.declared.books.Book.{Book};
ghost use Rattle.version_journal.specs.Images.{HasNoRecord};
ghost use Rattle.tablet_state.specs.Seen.{segments_of};
ghost use Rattle.tablet_state.specs.Stands.{Stands};
ghost use Rattle.tablet_state.specs.State.{Has, HasOwn, IsOpen, faults_of, reader_faults};
ghost use Rattle.core_recover.specs.Opening.{IsWant, store_left};
ghost use Rattle.core_recover.specs.Reading.{IsOpened, contents};
ghost use Rattle.core_recover.specs.declared.faults.OpenFault.TheVariants as fault;

use crate::OpenFault;
use crate::areas::settle_areas;
use crate::reading::{Indexed, Tablet, read_tablet};
use crate::replaying::Replayed;
use dev_traits::{FileMaker, Store};
use std::alloc::Global;
use store_files::give_back_all;
use tablet_state::{State, StateParts};

// Hands out a maker, and forgets each file outside a rising list: nothing where memory is wanted.
fn keep_files<S: Store>(store: &mut S, numbers: &[u64]) -> Result<S::Maker, OpenFault>
    requires calls { 1 ≤ (S.view store.old).spare_calls }
    requires rising { IsStrictlyIncreasing numbers.now }
    ensures forgot { OnOk result ((S.view store.new).seen ≡ option_map (with_files_of numbers.now) (S.view store.old).seen) }
    ensures kept { Told (S.view store.old) (λ before. Told (S.view store.new) (ForgetsSome numbers.now before)) }
    ensures unforgotten { IfErr result (λ e. IsUnforgotten e → Calm (S.view store.old) (S.view store.new)) }
    ensures tells { is_some (S.view store.new).seen ≡ is_some (S.view store.old).seen }
    ensures moments { Leaves (Forgets numbers.now) (S.view store.old) (S.view store.new) }
    ensures maker { IfOk result (λ maker. (S.Maker.view maker).faults ≡ 0) }
    ensures honest { (S.view store.new).is_honest ≡ (S.view store.old).is_honest }
    ensures want { IfErr result IsWant }
    ensures cause { HasCauseOf fault.StoreFault (S.view store.old).faults (S.view store.new).faults result }
{
    let maker = store.maker()?;
    match store.forget_others(numbers) {
        Ok(()) => Ok(maker),
        Err(_) => {
            store.give_back(maker);
            Err(OpenFault::StoreFault)
        }
    }
}

// What a state is opened with, beside its store.
#[derive(Drop)]
struct Opened<S: Store> {
    maker: S::Maker,
    tablet: Tablet<S>,
}

// Hands the readers of what was read to the store.
fn give_back<S: Store>(store: &mut S, tablet: Tablet<S>)
    ensures calm { Calm (S.view store.old) (S.view store.new) }
    ensures counts { Counts (reader_faults (segments_of S.Reader.view tablet.files.segments.items)) (S.view store.old).faults (S.view store.new).faults }
{
    let Tablet {
        journal: _,
        replayed: _,
        files,
    } = tablet;
    let Indexed {
        numbers: _,
        segments,
        index: _,
    } = files;
    give_back_all(store, segments);
}

// Settles the areas of a store, reads it, and forgets each file that no kept version names.
fn open_store<S: Store>(alloc: Global, store: &mut S) -> Result<Opened<S>, OpenFault>
    ensures own { IfOk result (λ o. HasOwn (contents o.tablet.replayed o.tablet.files.index.map) (segments_of S.Reader.view o.tablet.files.segments.items)) }
    ensures open { IfOk result (λ o. IsOpen (S.view store.new) o.tablet.journal.log.area o.tablet.journal.log.end (contents o.tablet.replayed o.tablet.files.index.map) (segments_of S.Reader.view o.tablet.files.segments.items)) }
    ensures book { IsTrue (S.view store.old).is_honest → Told (S.view store.old) (λ image. (s : Layout) (b : Book) → Stands s b image
        → IfOk result (λ o. IsOpened (S.view store.new) o.tablet.journal.log.area o.tablet.journal.log.end (contents o.tablet.replayed o.tablet.files.index.map) (segments_of S.Reader.view o.tablet.files.segments.items) s (durable b))) }
    ensures unfailed { IfOk result (λ o. ((S.Maker.view o.maker).faults ≡ 0) × (reader_faults (segments_of S.Reader.view o.tablet.files.segments.items) ≡ 0)) }
    ensures intact { IsTrue (S.view store.old).is_honest → Told (S.view store.old) (λ image. (s : Layout) (b : Book) → Stands s b image → IfErr result IsWant) }
    ensures any_moment { IsTrue (S.view store.old).is_honest → Told (S.view store.old) (λ image. (s : Layout) (b : Book) → Stands s b image
        → LeavesOnly (λ left. (S.view store.old).may_leave left ⊎ Stands s (durable b) left) (S.view store.old) (S.view store.new)) }
    ensures only_empty { IsTrue (S.view store.old).is_honest → Told (S.view store.old) (λ image. HasNoRecord image → OnOk result ⊥ × IfErr result (λ e. (e ≡ fault.Empty) ⊎ IsWant e)) }
    ensures empty { IsErrOf result fault.Empty → Told (S.view store.old) HasNoRecord }
    ensures all_empty { IsErrOf result fault.Empty → IsTrue (S.view store.old).is_honest → EachImage (S.view store.new) HasNoRecord }
    ensures empty_left { IsTrue (S.view store.old).is_honest → Told (S.view store.old) (λ image. HasNoRecord image
        → EachImage (S.view store.new) (λ left. (S.view store.old).may_leave left ⊎ HasNoRecord left)) }
    ensures damaged { IfErr result (λ e. (d : Damaged) → e ≡ fault.Damaged d → Told (S.view store.old) (λ image. IsDamageOf image d)) }
    ensures held { IfOk result (λ o. Told (S.view store.old) (λ before. Told (S.view store.new) (HoldsRecords (contents o.tablet.replayed o.tablet.files.index.map) before))) }
    ensures still { IsTrue (S.view store.old).is_honest ⊎ (IsErrOf result fault.StoreFault → ⊥)
        → Told (S.view store.old) (λ before. Told (S.view store.new) (StillReads before)) }
    ensures readers { IfOk result (λ o. Told (S.view store.old) (ReadsNamed (contents o.tablet.replayed o.tablet.files.index.map) (segments_of S.Reader.view o.tablet.files.segments.items))) }
    ensures files { Told (S.view store.old) (λ before. Told (S.view store.new) (λ after. (number : ℕ) → IsKeptOrForgotten before after number)) }
    ensures unforgotten { IfErr result (λ e. IsUnforgotten e → Told (S.view store.old) (λ before. Told (S.view store.new) (SameFiles before))) }
    ensures settled { IsErrOf result fault.Memory → IsTrue (S.view store.old).is_honest → Told (S.view store.old) (λ image. (s : Layout) (b : Book) → Stands s b image
        → Calm (S.view store.old) (S.view store.new) ⊎ EachImage (S.view store.new) (Stands s (durable b))) }
    ensures tells { is_some (S.view store.new).seen ≡ is_some (S.view store.old).seen }
    ensures honest { (S.view store.new).is_honest ≡ (S.view store.old).is_honest }
    ensures cause { HasCauseOf fault.StoreFault (S.view store.old).faults (S.view store.new).faults result }
{
    store.room(6, 0)?;
    settle_areas(store)?;
    let tablet = read_tablet(alloc, store)?;
    match keep_files(store, &tablet.files.numbers) {
        Ok(maker) => Ok(Opened { maker, tablet }),
        Err(fault) => {
            give_back(store, tablet);
            Err(fault)
        }
    }
}

/// Opens the tablet of a store. It syncs each area that isn't empty, and forgets every file that no kept version names.
///
/// # Errors
/// `Empty` where the store has no record; `Damaged` where an area of the journal, a named file or a block with a live
/// row is damaged; `StoreFault`, which the store counted; `Memory`. Each comes with the store. Of several damages any
/// one is told. Two live rows of one key are no damage: the index has the later one.
pub fn recover<S: Store>(alloc: Global, store: S) -> Result<State<S>, (S, OpenFault)>
    // Of an honest store that stands for a book as it reads, the state has what lasts of that book.
    ensures book { IsTrue (S.view store).is_honest → Told (S.view store) (λ image. (s : Layout) (b : Book) → Stands s b image
        → IfOk result (λ state. Has S.view state (durable b))) }
    ensures schema { IsTrue (S.view store).is_honest → Told (S.view store) (λ image. (s : Layout) (b : Book) → Stands s b image
        → IfOk result (λ state. state.contents.schema ≡ s)) }
    ensures open { IfOk result (λ state. state.closed ≡ None) }
    ensures intact { IsTrue (S.view store).is_honest → Told (S.view store) (λ image. (s : Layout) (b : Book) → Stands s b image
        → IfErr result (λ e. IsWant e.1)) }

    // At every moment an image is one that was there, or stands for the book.
    ensures any_moment { IsTrue (S.view store).is_honest → Told (S.view store) (λ image. (s : Layout) (b : Book) → Stands s b image
        → LeavesOnly (λ left. (S.view store).may_leave left ⊎ Stands s (durable b) left) (S.view store) (S.view (store_left result))) }
    ensures only_empty { IsTrue (S.view store).is_honest → Told (S.view store) (λ image. HasNoRecord image
        → (IfOk result (λ state. ⊥)) × IfErr result (λ e. (e.1 ≡ OpenFault.Empty) ⊎ IsWant e.1)) }
    ensures empty { IfErr result (λ e. e.1 ≡ OpenFault.Empty → Told (S.view store) HasNoRecord) }
    ensures all_empty { IfErr result (λ e. e.1 ≡ OpenFault.Empty → IsTrue (S.view store).is_honest → EachImage (S.view e.0) HasNoRecord) }
    ensures empty_left { IsTrue (S.view store).is_honest → Told (S.view store) (λ image. HasNoRecord image
        → EachImage (S.view (store_left result)) (λ left. (S.view store).may_leave left ⊎ HasNoRecord left)) }

    // Damage is told only where an area of the journal says nothing, or what the journal says names what is damaged.
    ensures damaged { IfErr result (λ e. (d : Damaged) → e.1 ≡ OpenFault.Damaged d → Told (S.view store) (λ image. IsDamageOf image d)) }

    // Honest or not: the state holds what the records mean, the store has just the files that the kept versions name,
    // and the segments read these.
    ensures held { IfOk result (λ state. Told (S.view store) (λ before. Told (S.view state.store) (HoldsRecords state.contents before))) }
    ensures readers { IfOk result (λ state. Told (S.view store) (ReadsNamed state.contents state.segments)) }

    // Files alone are forgotten that no kept version names, and only after Ok or where the store failed. What is read
    // of the areas stays, but that empty ones may be blank; of a store that failed this is said where it is honest.
    ensures files { Told (S.view store) (λ before. Told (S.view (store_left result)) (λ after. (number : ℕ) → IsKeptOrForgotten before after number)) }
    ensures still { IsTrue (S.view store).is_honest ⊎ IfErr result (λ e. e.1 ≡ OpenFault.StoreFault → ⊥)
        → Told (S.view store) (λ before. Told (S.view (store_left result)) (StillReads before)) }
    ensures unforgotten { IfErr result (λ e. IsUnforgotten e.1 → Told (S.view store) (λ before. Told (S.view e.0) (SameFiles before))) }
    ensures tells { is_some (S.view (store_left result)).seen ≡ is_some (S.view store).seen }

    // So an honest store that stood for a book stands for it, as it reads and in each image, and an empty one is empty.
    ensures stands { IsTrue (S.view store).is_honest → Told (S.view store) (λ image. (s : Layout) (b : Book) → Stands s b image
        → Told (S.view (store_left result)) (Stands s (durable b))) }
    ensures each_stands { IsTrue (S.view store).is_honest → (s : Layout) (b : Book) → EachImage (S.view store) (Stands s (durable b))
        → EachImage (S.view (store_left result)) (Stands s (durable b)) }
    ensures still_empty { IsTrue (S.view store).is_honest → Told (S.view store) (λ image. HasNoRecord image → Told (S.view (store_left result)) HasNoRecord) }

    // Where memory was wanting, nothing was done as yet, or each image stands for the book.
    ensures settled { IfErr result (λ e. e.1 ≡ OpenFault.Memory → IsTrue (S.view store).is_honest → Told (S.view store) (λ image. (s : Layout) (b : Book) → Stands s b image
        → Calm (S.view store) (S.view e.0) ⊎ EachImage (S.view e.0) (Stands s (durable b)))) }

    // The count of faults: one more exactly where the store failed, and none more else.
    ensures counted { IfErr result (λ e. CountsAs e.1 (S.view store).faults (S.view e.0).faults) }
    ensures uncounted { IfOk result (λ state. CountsNone S.view (S.view store).faults state) }
    ensures cause { IfErr result (λ e. e.1 ≡ OpenFault.StoreFault → RoseBy 1 (S.view store).faults (S.view e.0).faults) }
    ensures counts_ok { IfOk result (λ state. RoseBy 0 (S.view store).faults (faults_of S.view state)) }
    ensures counts_err { IfErr result (λ e. RoseBy 0 (S.view store).faults (S.view e.0).faults) }
    ensures honest { (S.view (store_left result)).is_honest ≡ (S.view store).is_honest }
{
    let mut store = store;
    match open_store(alloc, &mut store) {
        Ok(opened) => Ok(state_of(store, opened)),
        Err(fault) => Err((store, fault)),
    }
}

// The state that is opened with this.
fn state_of<S: Store>(store: S, opened: Opened<S>) -> State<S>
    requires own { HasOwn (contents opened.tablet.replayed opened.tablet.files.index.map) (segments_of S.Reader.view opened.tablet.files.segments.items) }
    requires open { IsOpen (S.view store) opened.tablet.journal.log.area opened.tablet.journal.log.end (contents opened.tablet.replayed opened.tablet.files.index.map) (segments_of S.Reader.view opened.tablet.files.segments.items) }
    ensures book { (s : Layout) (b : Book) → IsOpened (S.view store) opened.tablet.journal.log.area opened.tablet.journal.log.end (contents opened.tablet.replayed opened.tablet.files.index.map) (segments_of S.Reader.view opened.tablet.files.segments.items) s b
        → Has S.view result (durable b) × (result.contents.schema ≡ s) }
    ensures store { result.store ≡ store }
    ensures contents { result.contents ≡ contents opened.tablet.replayed opened.tablet.files.index.map }
    ensures segments { result.segments ≡ segments_of S.Reader.view opened.tablet.files.segments.items }
    ensures maker { result.maker_faults ≡ (S.Maker.view opened.maker).faults }
    ensures faults { ((S.Maker.view opened.maker).faults ≡ 0) → (reader_faults (segments_of S.Reader.view opened.tablet.files.segments.items) ≡ 0)
        → faults_of S.view result ≡ min (S.view store).faults (2 ^ 64 - 1) }
    ensures open { result.closed ≡ None }
{
    let Opened { maker, tablet } = opened;
    let Tablet {
        journal,
        replayed,
        files,
    } = tablet;
    let Replayed {
        schema,
        edit,
        next_file,
        floor,
        older,
        current,
    } = replayed;
    let Indexed {
        numbers: _,
        segments,
        index,
    } = files;
    State::of(StateParts {
        store,
        maker,
        log: journal.log,
        schema,
        form: 1,
        epoch: 0,
        edit,
        next_file,
        floor,
        older,
        current,
        segments,
        index,
    })
}
