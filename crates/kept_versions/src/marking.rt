ghost use Rattle.std.specs.Prelude.{◌≡◌, ◌∷◌, IfOk, length, map};
ghost use Rattle.std.specs.List.{list_all};
ghost use Rattle.rowsets.specs.Marks.{Rises};
ghost use Rattle.journal_form.specs.Versions.{files_of, marked, marked_file, whole_file};
ghost use Rattle.kept_versions.specs.Marking.{RowsRise, changed_numbers, lives_all, lives_at, noted, noted_all};

use crate::kept_file::KeptFile;
use crate::lookups::group_of;
use dev_traits::Memory;
use journal_form::{DeadRows, NewFile};
use pk_values::Items;
use std::alloc::Global;

/// New files as a rowset has them.
pub fn whole_files(alloc: Global, files: &[NewFile]) -> Result<Items<KeptFile>, Memory>
    ensures { IfOk result (λ whole. whole ≡ map whole_file files.now) }
{
    let mut whole = Items::with_capacity(alloc, files.len())?;
    for file in files {
        whole.push(KeptFile::whole(file))?;
    }
    Ok(whole)
}

// A file with its changed rows dead. Where none is changed, it shares its dead rows.
fn mark_file(alloc: Global, file: &KeptFile, changed: &[DeadRows]) -> Result<KeptFile, Memory>
    requires files { Rises (changed_numbers changed.now) }
    requires rows { RowsRise changed.now }
    ensures { IfOk result (λ marked. marked ≡ marked_file changed.now file.now) }
{
    match group_of(changed, file.number()) {
        Some(g) => file.with_dead(alloc, changed[g].rows.as_slice()),
        None => file.copy(),
    }
}

/// Files with their changed rows dead.
pub fn mark_files(
    alloc: Global,
    files: &[KeptFile],
    changed: &[DeadRows],
) -> Result<Items<KeptFile>, Memory>
    requires files { Rises (changed_numbers changed.now) }
    requires rows { RowsRise changed.now }
    ensures { IfOk result (λ marked. marked ≡ map (marked_file changed.now) files.now) }
{
    let mut marked = Items::with_capacity(alloc, files.len())?;
    for file in files {
        marked.push(mark_file(alloc, file, changed)?)?;
    }
    Ok(marked)
}

/// Rowsets with their changed rows dead, and room for one rowset more.
pub fn mark_rowsets(
    alloc: Global,
    rowsets: &[Items<KeptFile>],
    changed: &[DeadRows],
) -> Result<Items<Items<KeptFile>>, Memory>
    requires files { Rises (changed_numbers changed.now) }
    requires rows { RowsRise changed.now }
    ensures { IfOk result (λ all. all ≡ marked changed.now rowsets.now) }
{
    let mut marked = Items::with_capacity(alloc, rowsets.len().saturating_add(1))?;
    for files in rowsets {
        marked.push(mark_files(alloc, files.as_slice(), changed)?)?;
    }
    Ok(marked)
}

/// A rowset, and behind it rowsets with their changed rows dead.
pub fn mark_behind(
    alloc: Global,
    first: Items<KeptFile>,
    rowsets: &[Items<KeptFile>],
    changed: &[DeadRows],
) -> Result<Items<Items<KeptFile>>, Memory>
    requires files { Rises (changed_numbers changed.now) }
    requires rows { RowsRise changed.now }
    ensures { IfOk result (λ all. all ≡ first ∷ marked changed.now rowsets.now) }
{
    let mut marked = Items::with_capacity(alloc, rowsets.len().saturating_add(1))?;
    marked.push(first)?;
    for files in rowsets {
        marked.push(mark_files(alloc, files.as_slice(), changed)?)?;
    }
    Ok(marked)
}

// Notes that a file was found, and tells whether its changed rows are live, where it is the first of its number.
fn note(changed: &[DeadRows], found: &mut Vec<bool>, file: &KeptFile) -> bool
    requires files { Rises (changed_numbers changed.now) }
    requires each { length found.old.items ≡ length changed.now }
    ensures found { found.new.items ≡ noted file.now.file changed.now found.old.items }
    ensures lives { result ≡ lives_at file.now changed.now found.old.items }
{
    let Some(g) = group_of(changed, file.number()) else {
        return true;
    };
    let known = found[g];
    found[g] = true;
    known || file.are_live(changed[g].rows.as_slice())
}

/// The same for files, one after the other.
pub fn note_all(changed: &[DeadRows], found: &mut Vec<bool>, files: &[KeptFile]) -> bool
    requires files { Rises (changed_numbers changed.now) }
    requires each { length found.old.items ≡ length changed.now }
    ensures found { found.new.items ≡ noted_all files.now changed.now found.old.items }
    ensures each { length found.new.items ≡ length changed.now }
    ensures lives { result ≡ lives_all files.now changed.now found.old.items }
{
    let mut live = true;
    for file in files {
        let lives = note(changed, found, file);
        live = live && lives;
    }
    live
}

/// The same for rowsets.
pub fn note_rowsets(
    changed: &[DeadRows],
    found: &mut Vec<bool>,
    rowsets: &[Items<KeptFile>],
) -> bool
    requires files { Rises (changed_numbers changed.now) }
    requires each { length found.old.items ≡ length changed.now }
    ensures found { found.new.items ≡ noted_all (files_of rowsets.now) changed.now found.old.items }
    ensures each { length found.new.items ≡ length changed.now }
    ensures lives { result ≡ lives_all (files_of rowsets.now) changed.now found.old.items }
{
    let mut live = true;
    for files in rowsets {
        let lives = note_all(changed, found, files.as_slice());
        live = live && lives;
    }
    live
}
