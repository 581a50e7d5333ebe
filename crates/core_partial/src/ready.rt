ghost use Rattle.std.specs.Prelude.{◌≡◌, ◌++◌, ◌<◌, ◌^◌, None, Some, false, map, OnOk, IfOk, IfErr, IsErrOf};
ghost use Rattle.kept_versions.specs.Files.{PlacesRise};
ghost use Rattle.pk_model.specs.declared.books.Book.{Book};
ghost use Rattle.rowsets.specs.Steps.{HaveSame};
ghost use Rattle.tablet_state.specs.Contents.{index_of};
ghost use Rattle.tablet_state.specs.State.{Has, Rests, faults_of, refusal_of};
ghost use Rattle.tablet_state.specs.Readies.{IsChangeOf, IsMade};
ghost use Rattle.core_publish.specs.Publication.{entry_from, placed_from};
ghost use Rattle.std.specs.List.{AllByRecursion};
ghost use Rattle.core_publish.specs.Publishing.{StandsTwice, is_below, stored_places};
ghost use Rattle.core_partial.specs.Moving.{IsOver, IsRemade};
ghost use Rattle.core_partial.specs.Prepared.{made_move};
ghost use Rattle.core_partial.specs.Publishing.{IsBelow, IsTakenOf, IsWrongFor, emptied, moves_after, place_from};
ghost use Rattle.core_partial.specs.declared.ready.UnreadyFault.TheVariants as fault;

use crate::prepared::Again;
use crate::{PreparedKey, PreparedPartial};
use dev_traits::{FileMaker, SealedReader, Store};
use index_level0::{KeyBytes, Place};
use std::alloc::{AllocError, Global};
use tablet_state::{Change, Ready, ReadyFault, State};

/// Why a prepared load isn't made ready.
#[derive(Clone, Copy, Debug, PartialEq, Eq, Drop)]
pub enum UnreadyFault {
    /// Memory is wanted.
    Memory,
    /// A row is to die twice, or one that isn't a live one.
    Index,
}

impl From<AllocError> for UnreadyFault {
    ghost from_gives = { λ _ e. e ≡ fault.Memory };

    fn from(_: AllocError) -> Self {
        UnreadyFault::Memory
    }
}

/// No load has so many files: 262,144 lines make at most four. The test is for the proof alone.
const MOST_FILES: usize = 1 << 31;

// Whether the place is one of an earlier file, or of an earlier row of the same file.
fn is_below(p: &Place, q: &Place) -> bool
    ensures { result ≡ is_below p.now q.now }
{
    p.segment < q.segment || (p.segment == q.segment && p.row < q.row)
}

// The places at which the index has keys, and then those of superseded rows.
fn places_to_die<S: Store>(
    alloc: Global,
    state: &State<S>,
    keys: &[PreparedKey],
    stale: &[Place],
    first: u64,
) -> Result<Vec<Place>, AllocError>
    requires fits { first < 2 ^ 62 }
    requires few { AllByRecursion (λ p. p.segment < 2 ^ 31) stale.now }
    ensures { IfOk result (λ places. places.items ≡ stored_places state.now.contents.codes (map made_move keys.now)
        ++ map (place_from first) stale.now) }
{
    let mut places = Vec::with_capacity(alloc, keys.len())?;
    for key in keys {
        if let Some(place) = state.place_of(&key.code) {
            places.push(place)?;
        }
    }
    for place in stale {
        places.push(Place {
            segment: place.segment + first,
            row: place.row,
        })?;
    }
    Ok(places)
}

// Where the index has keys and the superseded rows of the new files, rising.
fn dead_of<S: Store>(
    alloc: Global,
    state: &State<S>,
    keys: &[PreparedKey],
    stale: &[Place],
    first: u64,
) -> Result<Vec<Place>, UnreadyFault>
    requires fits { first < 2 ^ 62 }
    requires few { AllByRecursion (λ p. p.segment < 2 ^ 31) stale.now }
    ensures rise { IfOk result (λ places. PlacesRise places.items) }
    ensures found { IfOk result (λ places. HaveSame places.items
        (stored_places state.now.contents.codes (map made_move keys.now) ++ map (place_from first) stale.now)) }
    ensures twice { IfErr result (λ e. e ≡ fault.Index → StandsTwice
        (stored_places state.now.contents.codes (map made_move keys.now) ++ map (place_from first) stale.now)) }
{
    let mut places = places_to_die(alloc, state, keys, stale, first)?;
    places.sort_unstable_by_key(|p| (p.segment, p.row));
    if !places.is_sorted_by(|p, q| is_below(p, q)) {
        return Err(UnreadyFault::Index);
    }
    Ok(places)
}

// A place in files that are numbered from `first` on, where it was in files that are numbered from 0.
fn placed_from(place: Option<Place>, first: u64) -> Option<Place>
    requires few { IsBelow (2 ^ 31) place }
    requires fits { first < 2 ^ 63 }
    ensures { result ≡ placed_from first place }
{
    match place {
        None => None,
        Some(place) => Some(Place {
            segment: place.segment + first,
            row: place.row,
        }),
    }
}

// Where keys stand from then on: those that moved at the rows made again, whose files are numbered from `more` on.
fn moves_of(
    alloc: Global,
    keys: &[PreparedKey],
    moves: &[(KeyBytes, Option<Place>)],
    first: u64,
    more: u64,
) -> Result<Vec<(KeyBytes, Option<Place>)>, AllocError>
    requires few { AllByRecursion (λ k. IsBelow (2 ^ 31) k.made) keys.now }
    requires few_again { AllByRecursion (λ e. IsBelow (2 ^ 31) e.1) moves.now }
    requires fits { first < 2 ^ 63 }
    requires more_fits { more < 2 ^ 63 }
    ensures { IfOk result (λ index. index.items
        ≡ map (entry_from first) (map made_move keys.now) ++ map (entry_from more) moves.now) }
{
    let mut index = Vec::with_capacity(alloc, keys.len())?;
    for key in keys {
        index.push((key.code.copy(), placed_from(key.made, first)))?;
    }
    for entry in moves {
        index.push((entry.0.copy(), placed_from(entry.1, more)))?;
    }
    Ok(index)
}

/// Makes a prepared load and what was made again of it ready to be applied to a state that takes it, and takes all memory
/// for that. The load is then spent.
///
/// # Errors
/// `Memory` leaves the load as it was. `Index` uses it up; it never comes where the state has a book.
pub fn ready_of<S: Store>(
    alloc: Global,
    state: &mut State<S>,
    prepared: &mut PreparedPartial<S::Maker>,
    again: Again<S::Maker>,
) -> Result<Ready<S::Maker>, UnreadyFault>
    requires goes { refusal_of state.old ≡ None }
    requires unspent { prepared.old.spent ≡ false }
    requires schema { prepared.old.schema ≡ state.old.contents.schema }
    requires again { IsRemade state.old.contents state.old.segments prepared.old again }
    ensures made { IfOk result (λ ready. IsMade (S.view state.new.store) state.new.contents state.new.room
        (map (λ m. (S.Maker.sealed_bytes m.sealed, m.footer)) ready.change.files.items) ready.change.dead.items
        ready.change.index.items ready.body ready.current) }

    // Over a book that the state has, what is ready is the load's change.
    ensures change { IfOk result (λ ready. (b : Book) → Has S.view state.old b
        → IsOver state.old.contents b prepared.old again
        → IsChangeOf state.old.contents.schema (index_of state.old.contents) b prepared.old.load
        state.old.contents.next_file (map (λ m. (S.Maker.sealed_bytes m.sealed, m.footer)) ready.change.files.items)
        ready.change.dead.items ready.change.index.items) }

    ensures taken { IfOk result (λ ready. IsTakenOf state.old.contents prepared.old again
        (map (λ m. (S.Maker.sealed_bytes m.sealed, m.footer)) ready.change.files.items) ready.change.dead.items
        ready.change.index.items) }
    ensures wrong { IsErrOf result fault.Index → IsWrongFor state.old.contents state.old.segments prepared.old }
    ensures intact { (b : Book) → Has S.view state.old b
        → IsOver state.old.contents b prepared.old again → IfErr result (λ e. e ≡ fault.Memory) }
    ensures rests { Rests S.view state.old state.new }
    ensures faults { faults_of S.view state.new ≡ faults_of S.view state.old }
    ensures has { (b : Book) → Has S.view state.old b → Has S.view state.new b }
    ensures spent { OnOk result (prepared.new ≡ emptied prepared.old) }
    ensures kept { IsErrOf result fault.Memory → prepared.new ≡ prepared.old }
    ensures lost { IsErrOf result fault.Index → prepared.new ≡ emptied prepared.old }
{
    // No schema has a fault.
    let _columns = state.schema().columns();
    let first = state.next_file();
    let (moves, stale, files) = again.into_parts();
    let count = prepared.count();
    if count >= MOST_FILES || files.len() >= MOST_FILES {
        return Err(UnreadyFault::Memory);
    }
    let dead = match dead_of(alloc, state, prepared.keys().0, &stale, first) {
        Ok(dead) => dead,
        Err(UnreadyFault::Memory) => return Err(UnreadyFault::Memory),
        Err(UnreadyFault::Index) => {
            prepared.use_up(alloc);
            return Err(UnreadyFault::Index);
        }
    };
    let index = moves_of(
        alloc,
        prepared.keys().0,
        &moves,
        first,
        first + count as u64,
    )?;
    let files = prepared.take_with(alloc, files)?;
    match state.ready(alloc, Change { files, dead, index }) {
        Ok(ready) => {
            prepared.use_up(alloc);
            Ok(ready)
        }
        Err((change, ReadyFault::Memory)) => {
            prepared.put_back(change.files, count);
            Err(UnreadyFault::Memory)
        }
        Err((_, ReadyFault::NotLive)) => {
            prepared.use_up(alloc);
            Err(UnreadyFault::Index)
        }
    }
}
