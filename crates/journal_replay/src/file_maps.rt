ghost use Rattle.std.specs.Prelude.{◌≡◌, ◌+◌, ◌^◌, ◌<◌, ℕ, IfOk, OnOk, true};
ghost use Rattle.std.specs.List.{flat_map};
ghost use Rattle.std.specs.BTreeMap.{get};
ghost use Rattle.std.specs.Ordering.{nat_cmp};
ghost use Rattle.journal_replay.specs.Lookups.{added, all_take, counted_from, dead_in, marks, span_numbers, takes, without};

use crate::current_files::{CurrentFile, is_behind, takes, with_dead};
use crate::span::Span;
use del_vector::DelVector;
use dev_traits::Memory;
use journal_form::{DeadRows, NewFile};
use std::alloc::Global;
use std::collections::BTreeMap;

/// New files come, with no dead row.
pub(crate) fn add_files(
    files: &mut BTreeMap<u64, CurrentFile>,
    new: &[NewFile],
) -> Result<(), Memory>
    ensures { OnOk result ((n : ℕ) → get nat_cmp files.new n ≡ added new.now (get nat_cmp files.old) n) }
{
    let mut left = new;
    while let [file, more @ ..] = left {
        let current = CurrentFile {
            rows: file.rows,
            dead: DelVector::empty(),
        };
        files.insert(file.file, current)?;
        left = more;
    }
    Ok(())
}

// Rows of one file die, where it takes them.
fn mark_file(
    alloc: Global,
    files: &mut BTreeMap<u64, CurrentFile>,
    change: &DeadRows,
) -> Result<bool, Memory>
    ensures fits { IfOk result (λ ok. ok ≡ takes (get nat_cmp files.old change.now.file) change.now.rows) }
    ensures marked { IfOk result (λ ok. ok ≡ true → (n : ℕ) → get nat_cmp files.new n
        ≡ dead_in change.now (get nat_cmp files.old) n) }
{
    let file = match files.remove(&change.file) {
        Some(file) => file,
        None => return Ok(false),
    };
    let rows = change.rows.as_slice();
    if !takes(&file, rows) {
        return Ok(false);
    }
    let marked = with_dead(alloc, &file, rows)?;
    files.insert(change.file, marked)?;
    Ok(true)
}

/// Changed rows die, where the files have rising numbers and each takes its rows.
pub(crate) fn mark_all(
    alloc: Global,
    files: &mut BTreeMap<u64, CurrentFile>,
    changed: &[DeadRows],
) -> Result<bool, Memory>
    ensures fits { IfOk result (λ ok. ok ≡ all_take 0 (get nat_cmp files.old) changed.now) }
    ensures marked { IfOk result (λ ok. ok ≡ true → (n : ℕ) → get nat_cmp files.new n
        ≡ marks changed.now (get nat_cmp files.old) n) }
{
    let mut last = None;
    let mut left = changed;
    while let [change, more @ ..] = left {
        if !is_behind(last, change.file) {
            return Ok(false);
        }
        if !mark_file(alloc, files, change)? {
            return Ok(false);
        }
        last = Some(change.file);
        left = more;
    }
    Ok(true)
}

// The files of a rowset go.
fn remove_span(files: &mut BTreeMap<u64, CurrentFile>, span: Span)
    ensures { (n : ℕ) → get nat_cmp files.new n ≡ without (span_numbers span) (get nat_cmp files.old) n }
{
    let mut number = span.first;
    let mut left = span.count;
    while left > 0 {
        files.remove(&number);
        number += 1;
        left -= 1;
    }
}

/// The files of some rowsets go.
pub(crate) fn remove_spans(files: &mut BTreeMap<u64, CurrentFile>, spans: &[Span])
    ensures { (n : ℕ) → get nat_cmp files.new n ≡ without (flat_map span_numbers spans.now) (get nat_cmp files.old) n }
{
    let mut left = spans;
    while let [span, more @ ..] = left {
        remove_span(files, *span);
        left = more;
    }
}
