ghost use Rattle.std.specs.Prelude.{◌≡◌, ◌<◌, ◌++◌, IfOk, OnOk, length, map};
ghost use Rattle.old_rows.specs.Wanted.{AreWanted, IsRun, PlacesInOrder, asked, place_wanted, same_block, wanted_at};

use index_level0::{KeyBytes, Place};
use partial_loads::Folded;
use std::alloc::{AllocError, Global};

/// An old row that is to be read: its place, and the number of its key among those of the load.
#[derive(Clone, Copy, Debug, Drop)]
pub struct Wanted {
    pub place: Place,
    pub key: usize,
}

// The place of the old row that a key's change asks for.
fn asked(key: &Folded, located: &(KeyBytes, Option<Place>)) -> Option<Place>
    ensures { result ≡ asked key.now located.now }
{
    if key.change.overlays() {
        located.1
    } else {
        None
    }
}

// Adds the row at a place, if there is one, as that of a key.
fn add_wanted(wanted: &mut Vec<Wanted>, place: Option<Place>, key: usize) -> Result<(), AllocError>
    ensures { OnOk result (wanted.new.items ≡ wanted.old.items ++ wanted_at key place) }
{
    match place {
        None => Ok(()),
        Some(place) => {
            wanted.push(Wanted { place, key })?;
            Ok(())
        }
    }
}

// The old rows that the changes of keys ask for, in the order of the keys.
fn asked_rows(
    alloc: Global,
    keys: &[Folded],
    located: &[(KeyBytes, Option<Place>)],
) -> Result<Vec<Wanted>, AllocError>
    requires { length located.now ≡ length keys.now }
    ensures { IfOk result (λ wanted. AreWanted keys.now located.now (length keys.now) wanted.items) }
{
    let mut wanted = Vec::with_capacity(alloc, keys.len())?;
    for i in 0..keys.len() {
        let place = asked(&keys[i], &located[i]);
        add_wanted(&mut wanted, place, i)?;
    }
    Ok(wanted)
}

/// The old rows that the changes of keys ask for, in the order of their places, so that those of one block stand one
/// after the other.
pub fn wanted_rows(
    alloc: Global,
    keys: &[Folded],
    located: &[(KeyBytes, Option<Place>)],
) -> Result<Vec<Wanted>, AllocError>
    requires { length located.now ≡ length keys.now }
    ensures wanted { IfOk result (λ wanted. AreWanted keys.now located.now (length keys.now) wanted.items) }
    ensures order { IfOk result (λ wanted. PlacesInOrder (map place_wanted wanted.items)) }
{
    let mut wanted = asked_rows(alloc, keys, located)?;
    wanted.sort_unstable_by_key(|w| (w.place.segment, w.place.row));
    Ok(wanted)
}

// Whether two rows stand in one block of one file.
fn same_block(a: &Place, b: &Place) -> bool
    ensures { result ≡ same_block a.now b.now }
{
    a.segment == b.segment && a.row / 1024 == b.row / 1024
}

/// How many rows at the front stand in one block.
pub fn run_length(wanted: &[Wanted]) -> usize
    requires { 0 < length wanted.now }
    ensures { IsRun result wanted.now }
{
    let first = wanted[0].place;
    let mut count = 1;
    while count < wanted.len() {
        if !same_block(&first, &wanted[count].place) {
            return count;
        }
        count += 1;
    }
    count
}
