ghost use Rattle.std.specs.Prelude.{◌≡◌, ◌&&◌, ◌-◌, ◌^◌, ◌<◌, true};
ghost use Rattle.journal_form.specs.Versions.{above, all_below, bound, consecutive, files_fit, numbers_of};
ghost use Rattle.journal_replay.specs.Follow.{all_numbers, new_rowset_numbers, next_number, option_spans};

use crate::span::Span;
use journal_form::NewFile;

/// A new file's number is below this one, 2^63 - 1: one is left for the first index file.
const MOST_FILE: u64 = (1 << 63) - 1;

// Whether new files have consecutive numbers from `first` on, and leave one to the first index file.
fn are_numbered(first: u64, files: &[NewFile]) -> bool
    requires { first < 2 ^ 63 }
    ensures { result ≡ (consecutive first files.now && all_below (bound - 1) (numbers_of files.now)) }
{
    let mut due = first;
    let mut left = files;
    while let [file, more @ ..] = left {
        if file.file != due || file.file >= MOST_FILE {
            return false;
        }
        due += 1;
        left = more;
    }
    true
}

/// Whether new files have consecutive numbers above all before, and leave one to the first index file.
pub(crate) fn are_new(next: u64, files: &[NewFile]) -> bool
    ensures { result ≡ files_fit next (bound - 1) files.now }
{
    match files {
        [] => true,
        [file, ..] => next <= file.file && file.file < MOST_FILE && are_numbered(file.file, files),
    }
}

/// New files as a rowset; no file makes none.
pub(crate) fn span_of(next: u64, files: &[NewFile]) -> Option<Span>
    requires { files_fit next (bound - 1) files.now ≡ true }
    ensures span { all_numbers (option_spans result) ≡ new_rowset_numbers files.now }
    ensures above { next_number next result ≡ above next (numbers_of files.now) }
{
    match files {
        [] => None,
        [file, more @ ..] => Some(Span {
            first: file.file,
            count: more.len() as u64 + 1,
        }),
    }
}
