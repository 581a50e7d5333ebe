ghost use Rattle.std.specs.Prelude.{◌≡◌, ◌-◌, ◌^◌, ◌≤◌, IfOk, [], length, min, true};
ghost use Rattle.std.specs.Option.{option_copied};
ghost use Rattle.journal_form.specs.Versions.{changes_fit, compacted_rowsets, file_numbered, files_of, marked, published_rowsets};
ghost use Rattle.kept_versions.specs.Files.{alive, is_live};

use crate::kept_file::KeptFile;
use crate::lookups::find_file;
use crate::marking::{mark_behind, mark_files, mark_rowsets, whole_files};
use dev_traits::Memory;
use index_level0::Place;
use journal_form::{DeadRows, NewFile};
use pk_values::Items;
use std::alloc::Global;
use std::marker::Model;

/// The files of a version, rowset by rowset, the oldest first. Contracts see them as the journal
/// lists them.
#[derive(Drop)]
pub struct KeptVersion {
    rowsets: Items<Items<KeptFile>>,
}

impl Model for KeptVersion {
    ghost use Rattle.std.specs.Prelude.{List};
    ghost use Rattle.journal_form.specs.declared.records.ListedFile.{ListedFile};

    ghost Value = { List (List ListedFile) };

    ghost view = { λ v. v.rowsets };
}

impl KeptVersion {
    /// A version without a rowset. It takes no memory.
    pub fn empty(alloc: Global) -> KeptVersion
        ensures { result ≡ [] }
    {
        KeptVersion {
            rowsets: Items::new(alloc),
        }
    }

    /// The version of these rowsets.
    pub fn of(rowsets: Items<Items<KeptFile>>) -> KeptVersion
        ensures { result ≡ rowsets }
    {
        KeptVersion { rowsets }
    }

    /// Its rowsets.
    pub fn rowsets(&self) -> &[Items<KeptFile>]
        ensures { result.now ≡ self.now }
    {
        self.rowsets.as_slice()
    }

    /// The same version once more: its own lists, with the same dead rows shared.
    pub fn copy(&self, alloc: Global) -> Result<KeptVersion, Memory>
        ensures { IfOk result (λ copy. copy ≡ self.now) }
    {
        Ok(KeptVersion {
            rowsets: mark_rowsets(alloc, self.rowsets.as_slice(), &[])?,
        })
    }

    /// How many rows of its files aren't dead, at most the last u64.
    pub fn rows_alive(&self) -> u64
        ensures { result ≡ min (alive (files_of self.now)) (2 ^ 64 - 1) }
    {
        let mut count = 0u64;
        for files in self.rowsets.as_slice() {
            count = count.saturating_add(rows_in(files.as_slice()));
        }
        count
    }

    /// The first file with this number, or None where no file has it.
    pub fn find(&self, number: u64) -> Option<&KeptFile>
        ensures { option_copied result ≡ file_numbered number (files_of self.now) }
    {
        for files in self.rowsets.as_slice() {
            if let Some(file) = find_file(files.as_slice(), number) {
                return Some(file);
            }
        }
        None
    }

    /// Whether a live row stands at a place.
    pub fn is_live(&self, place: &Place) -> bool
        ensures { result ≡ is_live self.now place.now }
    {
        match self.find(place.segment) {
            Some(file) => file.is_live(place.row),
            None => false,
        }
    }

    /// The next version, where the record that tells it fits: the changed rows are dead, and the new
    /// files are one rowset more. Files that aren't changed share their dead rows.
    pub fn after_publish(
        &self,
        alloc: Global,
        files: &[NewFile],
        changed: &[DeadRows],
    ) -> Result<KeptVersion, Memory>
        requires { changes_fit 0 (files_of (published_rowsets files.now self.now)) changed.now ≡ true }
        ensures { IfOk result (λ next. next ≡ marked changed.now (published_rowsets files.now self.now)) }
    {
        let mut rowsets = mark_rowsets(alloc, self.rowsets.as_slice(), changed)?;
        if files.is_empty() {
            return Ok(KeptVersion { rowsets });
        }
        let new = whole_files(alloc, files)?;
        rowsets.push(mark_files(alloc, new.as_slice(), changed)?)?;
        Ok(KeptVersion { rowsets })
    }

    /// The version after a compaction, where the record that tells it fits: the new files are its first
    /// rowset in place of so many, and the changed rows are dead.
    pub fn after_compact(
        &self,
        alloc: Global,
        replaced: usize,
        files: &[NewFile],
        changed: &[DeadRows],
    ) -> Result<KeptVersion, Memory>
        requires few { replaced ≤ length self.now }
        requires fit { changes_fit 0 (files_of (compacted_rowsets replaced files.now self.now)) changed.now ≡ true }
        ensures { IfOk result (λ next. next ≡ marked changed.now (compacted_rowsets replaced files.now self.now)) }
    {
        let left = &self.rowsets.as_slice()[replaced..];
        if files.is_empty() {
            let rowsets = mark_rowsets(alloc, left, changed)?;
            return Ok(KeptVersion { rowsets });
        }
        let new = whole_files(alloc, files)?;
        let first = mark_files(alloc, new.as_slice(), changed)?;
        let rowsets = mark_behind(alloc, first, left, changed)?;
        Ok(KeptVersion { rowsets })
    }
}

// How many rows of files aren't dead, at most the last u64.
fn rows_in(files: &[KeptFile]) -> u64
    ensures { result ≡ min (alive files.now) (2 ^ 64 - 1) }
{
    let mut count = 0u64;
    for file in files {
        count = count.saturating_add(u64::from(file.rows_alive()));
    }
    count
}
