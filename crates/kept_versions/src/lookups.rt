ghost use Rattle.std.specs.Prelude.{◌≡◌, ◌==◌, ◌<◌, ◌≤◌, IfSome, IfNone, false, length, get_or};
ghost use Rattle.std.specs.List.{AllWithin, list_any};
ghost use Rattle.std.specs.Option.{option_copied};
ghost use Rattle.rowsets.specs.Marks.{Rises};
ghost use Rattle.journal_form.specs.Versions.{file_numbered};
ghost use Rattle.kept_versions.specs.Marking.{changed_numbers};

use crate::kept_file::KeptFile;
use journal_form::DeadRows;

// The first place of the changed files whose number isn't below one.
fn place_of(changed: &[DeadRows], file: u64) -> usize
    requires { Rises (changed_numbers changed.now) }
    ensures within { result ≤ length changed.now }
    ensures before { AllWithin (λ n. n < file) (changed_numbers changed.now) 0 result }
    ensures behind { AllWithin (λ n. file ≤ n) (changed_numbers changed.now) result (length changed.now) }
{
    let mut low = 0;
    let mut high = changed.len();
    while low < high {
        let middle = low + (high - low) / 2;
        if changed[middle].file < file {
            low = middle + 1;
        } else {
            high = middle;
        }
    }
    low
}

/// The place of a file among the changed ones, which rise, by a binary search.
pub fn group_of(changed: &[DeadRows], file: u64) -> Option<usize>
    requires { Rises (changed_numbers changed.now) }
    ensures within { IfSome result (λ g. g < length changed.now) }
    ensures there { IfSome result (λ g. get_or (changed_numbers changed.now) g 0 ≡ file) }
    ensures none { IfNone result (list_any (λ n. n == file) (changed_numbers changed.now) ≡ false) }
{
    let place = place_of(changed, file);
    if place < changed.len() && changed[place].file == file {
        Some(place)
    } else {
        None
    }
}

/// The first of these files with a number.
pub fn find_file(files: &[KeptFile], number: u64) -> Option<&KeptFile>
    ensures { option_copied result ≡ file_numbered number files.now }
{
    for file in files {
        if file.number() == number {
            return Some(file);
        }
    }
    None
}
