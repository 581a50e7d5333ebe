ghost use Rattle.std.specs.Prelude.{◌≡◌, IfOk, IfErr, IsTrue, IsPermutation};
ghost use Rattle.kept_versions.specs.Files.{PlacesRise};
ghost use Rattle.rowsets.specs.Steps.{HaveSame};
ghost use Rattle.core_publish.specs.Publishing.{StandsTwice, is_below, stored_places};
ghost use Rattle.core_publish.specs.declared.places.PlacesFault.TheVariants as fault;

use dev_traits::{FileMaker, SealedReader, Store};
use index_level0::{KeyBytes, Place};
use std::alloc::{AllocError, Global};
use tablet_state::State;

/// Why the places of keys aren't told.
#[derive(Clone, Copy, Debug, PartialEq, Eq, Drop)]
pub enum PlacesFault {
    /// Memory is wanted.
    Memory,
    /// The index names one row for two keys.
    Twice,
}

impl From<AllocError> for PlacesFault {
    ghost from_gives = { λ _ e. e ≡ fault.Memory };

    fn from(_: AllocError) -> Self {
        PlacesFault::Memory
    }
}

// Whether the place is one of an earlier file, or of an earlier row of the same file.
fn is_below(p: &Place, q: &Place) -> bool
    ensures { result ≡ is_below p.now q.now }
{
    p.segment < q.segment || (p.segment == q.segment && p.row < q.row)
}

// The places of keys by their codes, in the order of the entries.
fn found_places<S: Store>(
    alloc: Global,
    state: &State<S>,
    entries: &[(KeyBytes, Option<Place>)],
) -> Result<Vec<Place>, AllocError>
    ensures { IfOk result (λ places. places.items ≡ stored_places state.now.contents.codes entries.now) }
{
    let mut places = Vec::with_capacity(alloc, entries.len())?;
    for entry in entries {
        if let Some(place) = state.place_of(&entry.0) {
            places.push(place)?;
        }
    }
    Ok(places)
}

/// The places at which a state has the keys of these codes, rising.
pub fn old_places<S: Store>(
    alloc: Global,
    state: &State<S>,
    entries: &[(KeyBytes, Option<Place>)],
) -> Result<Vec<Place>, PlacesFault>
    ensures rise { IfOk result (λ places. PlacesRise places.items) }
    ensures found { IfOk result (λ places. HaveSame places.items
        (stored_places state.now.contents.codes entries.now)) }
    ensures twice { IfErr result (λ e. e ≡ fault.Twice
        → StandsTwice (stored_places state.now.contents.codes entries.now)) }
{
    let mut places = found_places(alloc, state, entries)?;
    places.sort_unstable_by_key(|p| (p.segment, p.row));
    if !places.is_sorted_by(|p, q| is_below(p, q)) {
        return Err(PlacesFault::Twice);
    }
    Ok(places)
}
