ghost use Rattle.std.specs.Prelude.{◌≡◌, ◌+◌, ◌^◌, ◌<◌, ◌≤◌, ℕ, List, true, false, map, nat_le, length, min, vec_len, IfOk, IfErr};
ghost use Rattle.std.specs.List.{AllByRecursion, list_all};
ghost use Rattle.journal_form.specs.declared.records.DeadRows.{DeadRows};
ghost use Rattle.journal_form.specs.declared.records.Record.TheVariants as told;
ghost use Rattle.journal_form.specs.Versions.{changes_fit, files_of, marked, published_rowsets};
ghost use Rattle.journal_bytes.specs.Records.{RecordFits, record_bytes};
ghost use Rattle.kept_versions.specs.Changes.{places_of_changes};
ghost use Rattle.kept_versions.specs.Files.{PlacesRise, can_die};
ghost use Rattle.tablet_state.specs.State.{most_files};
ghost use Rattle.tablet_state.specs.Readies.{AreInFields, IsPublished, new_files};
ghost use Rattle.tablet_state.specs.declared.ready.ReadyFault.TheVariants as fault;

use dev_traits::{FileMaker, Memory};
use gated_log::{Framed, frame};
use index_level0::Place;
use journal_bytes::write_record;
use journal_form::{NewFile, Record};
use kept_versions::{ChangeFault, KeptVersion, Published, publish_change};
use pk_values::Items;
use segment_write::Made;
use std::alloc::Global;

/// Why a change isn't made ready.
#[derive(Clone, Copy, Debug, PartialEq, Eq, Drop)]
pub enum ReadyFault {
    /// Memory is wanted.
    Memory,
    /// A row that is to die isn't a live row of the current version or of a new file.
    NotLive,
}

impl From<Memory> for ReadyFault {
    ghost from_gives = { λ _ e. e ≡ fault.Memory };

    fn from(_: Memory) -> Self {
        ReadyFault::Memory
    }
}

// New files as a record tells them.
pub(crate) fn told_files<M: FileMaker>(
    alloc: Global,
    first: u64,
    files: &[Made<M>],
) -> Result<Vec<NewFile>, Memory>
    requires { first + length files.now < 2 ^ 64 }
    ensures { IfOk result (λ told. told.items ≡ new_files first (map (λ m. (M.sealed_bytes m.sealed, m.footer)) files.now)) }
{
    let mut told = Vec::with_capacity(alloc, files.len())?;
    let mut file = first;
    for made in files {
        told.push(NewFile {
            file,
            rows: made.footer.rows(),
        })?;
        file += 1;
    }
    Ok(told)
}

// The next version, and the body of the record that tells it.
#[derive(Drop)]
pub(crate) struct Next {
    pub(crate) current: KeptVersion,
    pub(crate) body: Framed,
}

pub(crate) fn next_version(
    alloc: Global,
    current: &KeptVersion,
    files: Vec<NewFile>,
    dead: &[Place],
    version: u64,
    edit: u64,
) -> Result<Next, ReadyFault>
    requires rise { PlacesRise dead.now }
    requires files { AreInFields files.items }
    ensures told { IfOk result (λ next. IsPublished current.now files.items dead.now version edit next.current next.body) }
    ensures live { IfErr result (λ e. e ≡ fault.NotLive
        → list_all (can_die (published_rowsets files.items current.now)) dead.now ≡ false) }
{
    let published = match publish_change(alloc, current, files.as_slice(), dead) {
        Ok(published) => published,
        Err(ChangeFault::Memory) => return Err(ReadyFault::Memory),
        Err(ChangeFault::NotLive) => return Err(ReadyFault::NotLive),
    };
    let Published { current, changed } = published;
    let told = Record::Publish {
        version,
        files: Items::from_vec(files),
        changed,
    };
    let bytes = write_record(alloc, edit, &told)?;
    let body = frame(alloc, bytes.as_slice())?;
    Ok(Next { current, body })
}

/// No version has so many files.
const MOST_FILES: u64 = 1 << 44;

// Whether a version has more files than may be.
pub(crate) fn has_many_files(version: &KeptVersion) -> bool
    ensures { result ≡ nat_le most_files (length (files_of version.now)) }
{
    let mut files = 0u64;
    for rowset in version.rowsets() {
        files = files.saturating_add(rowset.len() as u64);
    }
    files >= MOST_FILES
}
