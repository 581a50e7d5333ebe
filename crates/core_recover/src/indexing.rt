ghost use Rattle.std.specs.Prelude.{◌≡◌, ◌∷◌, ◌==◌, [], IfOk, IfErr, IfNone, IfSome, OnOk, Some, false, slice_get};
ghost use Rattle.std.specs.FinMap as map;
ghost use Rattle.std.specs.List.{AllByRecursion, list_any};
ghost use Rattle.rowsets.specs.Marks.{Rises};
ghost use Rattle.segment_read.specs.Reads.{OnDamage};
ghost use Rattle.journal_form.specs.Versions.{files_of};
ghost use Rattle.tablet_state.specs.Seen.{segments_of};
ghost use Rattle.tablet_state.specs.State.{IsAttached, SameSegments};
ghost use Rattle.core_recover.specs.Damages.{IsLiveDamage};
ghost use Rattle.core_recover.specs.Indexing.{HasNoIndex, HasReaderCause, Indexes, numbers_in};

use dev_traits::{Damaged, Part, ReadFault, SealedReader, Shown};
use kept_versions::{KeptFile, KeptVersion, KeyIndex};
use pk_values::Schema;
use segment_read::Segment;
use std::alloc::Global;
use store_files::live_keys;

// A file that isn't there.
fn absent(number: u64) -> ReadFault
    ensures { result ≡ ReadFault.Damaged (record { file = number; part = Part.Footer; shown = Shown.Absent }) }
{
    ReadFault::Damaged(Damaged {
        file: number,
        part: Part::Footer,
        shown: Shown::Absent,
    })
}

// The place of a number among numbers that rise, by a binary search.
fn place_of(numbers: &[u64], number: u64) -> Option<usize>
    requires { Rises numbers.now }
    ensures there { IfSome result (λ i. slice_get numbers.now i ≡ Some number) }
    ensures none { IfNone result (list_any (λ n. n == number) numbers.now ≡ false) }
{
    match numbers.binary_search(&number) {
        Ok(place) => Some(place),
        Err(_) => None,
    }
}

// Puts the codes of a file's live rows into an index, with their places.
fn index_file<R: SealedReader>(
    alloc: Global,
    schema: &Schema,
    numbers: &[u64],
    segments: &mut Vec<Segment<R>>,
    file: &KeptFile,
    index: &mut KeyIndex,
) -> Result<(), ReadFault>
    requires numbers { numbers.now ≡ numbers_in (segments_of R.view segments.old.items) }
    requires rise { Rises numbers.now }
    requires attached { AllByRecursion (IsAttached schema.now) (segments_of R.view segments.old.items) }
    ensures index { OnOk result (Indexes schema.now (file.now ∷ []) (segments_of R.view segments.old.items) index.old.map index.new.map) }
    ensures intact { IfErr result (λ e. OnDamage e (λ damaged. HasNoIndex schema.now (file.now ∷ []) (segments_of R.view segments.old.items))) }
    ensures damaged { IfErr result (λ e. OnDamage e (IsLiveDamage schema.now (file.now ∷ []) (segments_of R.view segments.old.items))) }
    ensures same { SameSegments (segments_of R.view segments.old.items) (segments_of R.view segments.new.items) }
    ensures cause { HasReaderCause (segments_of R.view segments.old.items) (segments_of R.view segments.new.items) result }
{
    let place = match place_of(numbers, file.number()) {
        Some(place) => place,
        None => return Err(absent(file.number())),
    };
    let keys = live_keys(alloc, schema, &mut segments[place], file.dead())?;
    index.reserve(keys.len())?;
    index.put_all(keys);
    Ok(())
}

// The same for files, one after the other.
fn index_files<R: SealedReader>(
    alloc: Global,
    schema: &Schema,
    numbers: &[u64],
    segments: &mut Vec<Segment<R>>,
    files: &[KeptFile],
    index: &mut KeyIndex,
) -> Result<(), ReadFault>
    requires numbers { numbers.now ≡ numbers_in (segments_of R.view segments.old.items) }
    requires rise { Rises numbers.now }
    requires attached { AllByRecursion (IsAttached schema.now) (segments_of R.view segments.old.items) }
    ensures index { OnOk result (Indexes schema.now files.now (segments_of R.view segments.old.items) index.old.map index.new.map) }
    ensures intact { IfErr result (λ e. OnDamage e (λ damaged. HasNoIndex schema.now files.now (segments_of R.view segments.old.items))) }
    ensures damaged { IfErr result (λ e. OnDamage e (IsLiveDamage schema.now files.now (segments_of R.view segments.old.items))) }
    ensures same { SameSegments (segments_of R.view segments.old.items) (segments_of R.view segments.new.items) }
    ensures cause { HasReaderCause (segments_of R.view segments.old.items) (segments_of R.view segments.new.items) result }
{
    for file in files {
        index_file(alloc, schema, numbers, segments, file, index)?;
    }
    Ok(())
}

/// The index of a version: the place of each live row of its files, by the code of the row's key. The segments are those of all files that it names,
/// with these numbers, which rise.
///
/// # Errors
/// Those of reading a block that has a live row; `Damaged` with `Absent` of a file that has no segment.
pub fn index_of_live<R: SealedReader>(
    alloc: Global,
    schema: &Schema,
    numbers: &[u64],
    segments: &mut Vec<Segment<R>>,
    current: &KeptVersion,
) -> Result<KeyIndex, ReadFault>
    requires numbers { numbers.now ≡ numbers_in (segments_of R.view segments.old.items) }
    requires rise { Rises numbers.now }
    requires attached { AllByRecursion (IsAttached schema.now) (segments_of R.view segments.old.items) }
    ensures index { IfOk result (λ index. Indexes schema.now (files_of current.now) (segments_of R.view segments.old.items) map.empty index.map) }

    // No damage is told where the files are those of lawful rows whose live ones have keys with short codes.
    ensures intact { IfErr result (λ e. OnDamage e (λ damaged. HasNoIndex schema.now (files_of current.now) (segments_of R.view segments.old.items))) }

    // The damage is that of one of the files: it has no segment, or a block of its segment that has a live row is damaged.
    ensures damaged { IfErr result (λ e. OnDamage e (IsLiveDamage schema.now (files_of current.now) (segments_of R.view segments.old.items))) }
    ensures same { SameSegments (segments_of R.view segments.old.items) (segments_of R.view segments.new.items) }
    ensures cause { HasReaderCause (segments_of R.view segments.old.items) (segments_of R.view segments.new.items) result }
{
    let mut index = KeyIndex::new(alloc);
    for files in current.rowsets() {
        index_files(
            alloc,
            schema,
            numbers,
            segments,
            files.as_slice(),
            &mut index,
        )?;
    }
    Ok(index)
}
