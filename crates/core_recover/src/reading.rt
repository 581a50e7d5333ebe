ghost use Rattle.std.specs.Prelude.{◌≡◌, ◌⊎◌, ◌++◌, ◌∷◌, [], ℕ, List, Some, IsTrue, IfOk, IfErr, IsErrOf, OnOk, map, true};
ghost use Rattle.std.specs.List.{AllByRecursion};
ghost use Rattle.dev_traits.specs.Causes.{HasCauseOf};
ghost use Rattle.dev_traits.specs.View.{Calm, Told};
ghost use Rattle.dev_traits.specs.declared.faults.Damaged.{Damaged};
ghost use Rattle.journal_form.specs.Versions.{files_of};
ghost use Rattle.version_journal.specs.Reading.{damage_of};
ghost use Rattle.core_recover.specs.Damages.{IsDamageOf, IsFooterDamage, IsNamedDamage};
ghost use Rattle.core_recover.specs.Keeping.{IsThere};
ghost use Rattle.column_page.specs.Footers.{is_footer};
ghost use Rattle.gated_log.specs.Log.{IsSettled, IsSynced};
ghost use Rattle.pk_values.specs.Schemas.{Layout};
ghost use Rattle.pk_model.specs.declared.books.Book.{Book};
ghost use Rattle.rowsets.specs.Live.{Files};
ghost use Rattle.journal_form.specs.Meaning.{Standing};
ghost use Rattle.version_journal.specs.Images.{HasNoRecord};
ghost use Rattle.version_journal.specs.Journals.{ReadsAs};
ghost use Rattle.tablet_state.specs.Seen.{segments_of};
ghost use Rattle.tablet_state.specs.Holding.{IsTold};
ghost use Rattle.tablet_state.specs.Stands.{AreSegments, Stands};
ghost use Rattle.tablet_state.specs.State.{HasFewFiles};
ghost use Rattle.core_recover.specs.Indexing.{numbers_in};
ghost use Rattle.core_recover.specs.Naming.{AreNamed, Clash};
ghost use Rattle.core_recover.specs.Opening.{IsWant};
ghost use Rattle.core_recover.specs.Reading.{AreFiles, HasFiles, IsIndexed, IsReadOf, IsReading, ReadsFiles, named, versions_of};
ghost use Rattle.core_recover.specs.Replaying.{IsReplayed};
ghost use Rattle.core_recover.specs.declared.faults.OpenFault.TheVariants as fault;

use crate::OpenFault;
use crate::indexing::index_of_live;
use crate::naming::{has_many_files, name_files};
use crate::replaying::{Replayed, replay};
use dev_traits::{Damaged, Memory, Part, Shown, Store};
use kept_versions::{KeptVersion, KeyIndex};
use segment_read::Segment;
use std::alloc::Global;
use store_files::{NamedFile, attach_all, give_back_all};
use version_journal::{Journal, ReadJournal, read_records};

// Whether each version has no more files than may be.
fn have_few_files(older: &[KeptVersion], current: &KeptVersion) -> bool
    ensures { result ≡ true → AllByRecursion HasFewFiles (older.now ++ current.now ∷ []) }
{
    for version in older {
        if has_many_files(version) {
            return false;
        }
    }
    !has_many_files(current)
}

// The numbers of segments, of which each has a segment's footer.
fn numbers_of<R>(alloc: Global, segments: &[Segment<R>]) -> Result<Vec<u64>, Memory>
    ensures numbers { IfOk result (λ numbers. numbers.items ≡ map (λ g. g.number) segments.now) }
    ensures footers { OnOk result (AllByRecursion (λ g. IsTrue (is_footer g.footer)) segments.now) }
{
    let mut numbers = Vec::with_capacity(alloc, segments.len())?;
    for segment in segments {
        let _blocks = segment.footer.blocks();
        numbers.push(segment.number)?;
    }
    Ok(numbers)
}

// The files of kept versions: their numbers, which rise, and the segment of each.
#[derive(Drop)]
struct Attached<S: Store> {
    numbers: Vec<u64>,
    segments: Vec<Segment<S::Reader>>,
}

// The files that versions name, or a fault of the journal where these don't agree.
fn files_named(alloc: Global, replayed: &Replayed) -> Result<Vec<NamedFile>, OpenFault>
    ensures named { IfOk result (λ files. AreNamed (named replayed.now) files.items) }
    ensures few { OnOk result (AllByRecursion HasFewFiles (versions_of replayed.now)) }
    ensures clash { IfErr result (λ e. IsWant e ⊎ Clash (named replayed.now)) }
    ensures damaged { IfErr result (λ e. (d : Damaged) → e ≡ fault.Damaged d → (d ≡ damage_of 0) × Clash (named replayed.now)) }
    ensures not_empty { IsErrOf result fault.Empty → ⊥ }
    ensures not_failed { IsErrOf result fault.StoreFault → ⊥ }
{
    if !have_few_files(&replayed.older, &replayed.current) {
        return Err(OpenFault::Memory);
    }
    match name_files(alloc, &replayed.older, &replayed.current)? {
        Some(files) => Ok(files),
        None => Err(OpenFault::Damaged(Damaged {
            file: 0,
            part: Part::Area(0),
            shown: Shown::Form,
        })),
    }
}

// Attaches the files that kept versions name.
fn attach_named<S: Store>(
    alloc: Global,
    store: &mut S,
    replayed: &Replayed,
) -> Result<Attached<S>, OpenFault>
    ensures has { IfOk result (λ found. HasFiles replayed.now (segments_of S.Reader.view found.segments.items)) }
    ensures numbers { IfOk result (λ found. found.numbers.items ≡ numbers_in (segments_of S.Reader.view found.segments.items)) }
    ensures reads { Told (S.view store.old) (λ image. (stored : Files) → AreSegments replayed.now.schema stored (named replayed.now) image
        → IfOk result (λ found. ReadsFiles replayed.now stored (segments_of S.Reader.view found.segments.items))) }
    ensures intact { Told (S.view store.old) (λ image. (stored : Files) → AreSegments replayed.now.schema stored (named replayed.now) image
        → IfErr result IsWant) }
    ensures there { IfOk result (λ found. Told (S.view store.old) (λ image. AllByRecursion (IsThere replayed.now.schema image) (named replayed.now))) }
    ensures bytes { IfOk result (λ found. Told (S.view store.old) (λ image. AllByRecursion (IsReading image) (segments_of S.Reader.view found.segments.items))) }
    ensures damaged { IfErr result (λ e. (d : Damaged) → e ≡ fault.Damaged d → Told (S.view store.old) (λ image.
        IsFooterDamage replayed.now.schema (named replayed.now) image d ⊎ ((d ≡ damage_of 0) × Clash (named replayed.now)))) }
    ensures not_empty { IsErrOf result fault.Empty → ⊥ }
    ensures calm { Calm (S.view store.old) (S.view store.new) }
    ensures cause { HasCauseOf fault.StoreFault (S.view store.old).faults (S.view store.new).faults result }
{
    let _keys = replayed.schema.keys();
    let files = files_named(alloc, replayed)?;
    let segments = attach_all(alloc, store, &replayed.schema, &files)?;
    match numbers_of(alloc, &segments) {
        Ok(numbers) => Ok(Attached { numbers, segments }),
        Err(_) => {
            give_back_all(store, segments);
            Err(OpenFault::Memory)
        }
    }
}

/// The files of kept versions, and the index of the current one.
#[derive(Drop)]
pub struct Indexed<S: Store> {
    /// The numbers of the files, which rise.
    pub numbers: Vec<u64>,
    /// The segment of each.
    pub segments: Vec<Segment<S::Reader>>,
    pub index: KeyIndex,
}

// Attaches the files that kept versions name, and makes the index of the current one.
fn read_files<S: Store>(
    alloc: Global,
    store: &mut S,
    replayed: &Replayed,
) -> Result<Indexed<S>, OpenFault>
    ensures has { IfOk result (λ found. HasFiles replayed.now (segments_of S.Reader.view found.segments.items)) }
    ensures numbers { IfOk result (λ found. found.numbers.items ≡ numbers_in (segments_of S.Reader.view found.segments.items)) }
    ensures reads { Told (S.view store.old) (λ image. (stored : Files) → AreFiles replayed.now stored image
        → IfOk result (λ found. ReadsFiles replayed.now stored (segments_of S.Reader.view found.segments.items) × IsIndexed replayed.now stored found.index.map)) }
    ensures intact { Told (S.view store.old) (λ image. (stored : Files) → AreFiles replayed.now stored image → IfErr result IsWant) }
    ensures there { IfOk result (λ found. Told (S.view store.old) (λ image. AllByRecursion (IsThere replayed.now.schema image) (named replayed.now))) }
    ensures bytes { IfOk result (λ found. Told (S.view store.old) (λ image. AllByRecursion (IsReading image) (segments_of S.Reader.view found.segments.items))) }
    ensures indexed { IfOk result (λ found. Told (S.view store.old) (λ image. (stored : Files) → AreSegments replayed.now.schema stored (named replayed.now) image → IsIndexed replayed.now stored found.index.map)) }
    ensures damaged { IfErr result (λ e. (d : Damaged) → e ≡ fault.Damaged d → Told (S.view store.old) (λ image.
        IsNamedDamage replayed.now.schema (named replayed.now) (files_of replayed.now.current) image d ⊎ Clash (named replayed.now))) }
    ensures not_empty { IsErrOf result fault.Empty → ⊥ }
    ensures calm { Calm (S.view store.old) (S.view store.new) }
    ensures cause { HasCauseOf fault.StoreFault (S.view store.old).faults (S.view store.new).faults result }
{
    let Attached {
        numbers,
        mut segments,
    } = attach_named(alloc, store, replayed)?;
    match index_of_live(
        alloc,
        &replayed.schema,
        &numbers,
        &mut segments,
        &replayed.current,
    ) {
        Ok(index) => Ok(Indexed {
            numbers,
            segments,
            index,
        }),
        Err(fault) => {
            give_back_all(store, segments);
            Err(OpenFault::from(fault))
        }
    }
}

/// What was read of a store.
#[derive(Drop)]
pub struct Tablet<S: Store> {
    pub journal: Journal,
    pub replayed: Replayed,
    pub files: Indexed<S>,
}

/// Reads the journal of a store, its files and the keys of their live rows. It writes nothing.
///
/// # Errors
/// `Empty` where the store has no record, `Damaged`, `StoreFault`, which the store counted, and `Memory`.
pub fn read_tablet<S: Store>(alloc: Global, store: &mut S) -> Result<Tablet<S>, OpenFault>
    ensures replayed { IfOk result (λ found. (s : Standing) × (IsReplayed found.replayed s × (IsTold s × Told (S.view store.old) (ReadsAs found.journal (Some s))))) }
    ensures settled { IsTrue (S.view store.old).is_honest → IsSynced 0 (S.view store.old) → IsSynced 1 (S.view store.old)
        → IfOk result (λ found. (bodies : List (List ℕ)) × IsSettled found.journal.log.area bodies found.journal.log.end (S.view store.new)) }
    ensures has { IfOk result (λ found. HasFiles found.replayed (segments_of S.Reader.view found.files.segments.items)) }
    ensures numbers { IfOk result (λ found. found.files.numbers.items ≡ numbers_in (segments_of S.Reader.view found.files.segments.items)) }

    // Of an image that stands for a book it reads what stands there; and it tells no damage.
    ensures reads { Told (S.view store.old) (λ image. (s : Layout) (b : Book) (stands : Stands s b image)
        → IfOk result (λ found. IsReadOf found.replayed (segments_of S.Reader.view found.files.segments.items) found.files.index.map s stands.standing stands.stored)) }
    ensures intact { Told (S.view store.old) (λ image. (s : Layout) (b : Book) → Stands s b image → IfErr result IsWant) }

    // Of every image it tells damage only where an area of the journal says nothing, or what it says names what is
    // damaged; and each file that is named is there with its footer where none is told.
    ensures damaged { IfErr result (λ e. (d : Damaged) → e ≡ fault.Damaged d → Told (S.view store.old) (λ image. IsDamageOf image d)) }
    ensures there { IfOk result (λ found. Told (S.view store.old) (λ image. AllByRecursion (IsThere found.replayed.schema image) (named found.replayed))) }
    ensures bytes { IfOk result (λ found. Told (S.view store.old) (λ image. AllByRecursion (IsReading image) (segments_of S.Reader.view found.files.segments.items))) }
    ensures indexed { IfOk result (λ found. Told (S.view store.old) (λ image. (stored : Files) → AreSegments found.replayed.schema stored (named found.replayed) image
        → IsIndexed found.replayed stored found.files.index.map)) }
    ensures only_empty { Told (S.view store.old) (λ image. HasNoRecord image → IfErr result (λ e. (e ≡ fault.Empty) ⊎ IsWant e)) }
    ensures never { Told (S.view store.old) (λ image. HasNoRecord image → OnOk result ⊥) }
    ensures empty { IsErrOf result fault.Empty → Told (S.view store.old) HasNoRecord }
    ensures calm { Calm (S.view store.old) (S.view store.new) }
    ensures cause { HasCauseOf fault.StoreFault (S.view store.old).faults (S.view store.new).faults result }
{
    let ReadJournal { journal, records } = read_records(alloc, store)?;
    let replayed = replay(alloc, records)?;
    let files = read_files(alloc, store, &replayed)?;
    Ok(Tablet {
        journal,
        replayed,
        files,
    })
}
