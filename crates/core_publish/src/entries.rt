ghost use Rattle.std.specs.Prelude.{◌≡◌, ◌<◌, ◌^◌, map};
ghost use Rattle.std.specs.List.{AllByRecursion};
ghost use Rattle.core_publish.specs.Publication.{IsInFour, entry_from, placed_from};
ghost use Rattle.core_publish.specs.Publishing.{IsFrom, entry_back, placed_back};

use index_level0::{KeyBytes, Place};

fn place_from(place: &mut Option<Place>, first: u64)
    requires four { IsInFour place.old }
    requires fits { first < 2 ^ 62 }
    ensures { place.new ≡ placed_from first place.old }
{
    if let Some(place) = place {
        place.segment += first;
    }
}

fn place_back(place: &mut Option<Place>, first: u64)
    requires { IsFrom first place.old }
    ensures { place.new ≡ placed_back first place.old }
{
    if let Some(place) = place {
        place.segment -= first;
    }
}

// Files that were numbered from 0 are numbered from `first` on.
pub(crate) fn number_from(entries: &mut Vec<(KeyBytes, Option<Place>)>, first: u64)
    requires four { AllByRecursion (λ e. IsInFour e.1) entries.old.items }
    requires fits { first < 2 ^ 62 }
    ensures { entries.new.items ≡ map (entry_from first) entries.old.items }
{
    for entry in entries.iter_mut() {
        place_from(&mut entry.1, first);
    }
}

// Files that were numbered from `first` on are numbered from 0.
pub(crate) fn number_back(entries: &mut Vec<(KeyBytes, Option<Place>)>, first: u64)
    requires { AllByRecursion (λ e. IsFrom first e.1) entries.old.items }
    ensures { entries.new.items ≡ map (entry_back first) entries.old.items }
{
    for entry in entries.iter_mut() {
        place_back(&mut entry.1, first);
    }
}
