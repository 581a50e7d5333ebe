ghost use Rattle.std.specs.Prelude.{◌≡◌, Bool, IfOk, ℕ, List, Option as Maybe, count_by, not};
ghost use Rattle.index_level0.specs.declared.place.Place.{Place as Spot};
ghost use Rattle.partial_loads.specs.Moves.{has_moved};
ghost use Rattle.partial_loads.specs.Standings.{standing_of, standings_of};

use index_level0::{KeyBytes, Place};
use std::alloc::{AllocError, Global};

/// What the turn that publishes a load can ask: where a key stands now, by its code, and whether a place is still live
/// in the version at which the load was located.
pub trait Placing {
    ghost stored: { Self → List ℕ → Maybe Spot };

    ghost stays: { Self → Spot → Bool };

    /// Where the key of this code stands in the current version.
    fn place_of(&self, code: &KeyBytes) -> Option<Place>
        ensures { result ≡ stored self.now code.now };

    /// Whether the place is live in the located version as it stands now, which it isn't where that version isn't kept.
    fn stays_live(&self, place: &Place) -> bool
        ensures { result ≡ stays self.now place.now };
}

/// Where a located key stands now, and whether it moved.
#[derive(Clone, Copy, Debug, Drop)]
pub struct Standing {
    pub place: Option<Place>,
    pub moved: bool,
}

/// Looks one key up, by its code. A key without a place when it was located moved exactly where it has a place now. One
/// with a place moved exactly where its place now is another one or none, or where the old place isn't a live one any
/// more in the located version.
pub fn stand<V: Placing>(view: &V, code: &KeyBytes, was: Option<Place>) -> Standing
    ensures { result ≡ standing_of (V.stored view.now) (V.stays view.now) (code.now, was) }
{
    let place = view.place_of(code);
    let moved = match was {
        None => place.is_some(),
        Some(old) => !is_still(view, &old, &place),
    };
    Standing { place, moved }
}

// Whether a key that stood at a place still does.
fn is_still<V: Placing>(view: &V, was: &Place, place: &Option<Place>) -> bool
    ensures { has_moved (V.stays view.now) (Some was.now) place.now ≡ not result }
{
    match place {
        None => false,
        Some(now) => { was.segment == now.segment && was.row == now.row && view.stays_live(was) }
    }
}

/// Looks each key up once, by its code.
///
/// # Errors
/// Want of memory.
pub fn stand_all<V: Placing>(
    alloc: Global,
    view: &V,
    located: &[(KeyBytes, Option<Place>)],
) -> Result<Vec<Standing>, AllocError>
    ensures { IfOk result (λ standings. standings.items
        ≡ standings_of (V.stored view.now) (V.stays view.now) located.now) }
{
    let mut standings = Vec::with_capacity(alloc, located.len())?;
    for entry in located {
        standings.push(stand(view, &entry.0, entry.1))?;
    }
    Ok(standings)
}

/// How many keys moved.
pub fn count_moved(standings: &[Standing]) -> usize
    ensures { result ≡ count_by (λ standing. standing.moved) standings.now }
{
    standings.iter().filter(|standing| standing.moved).count()
}
