ghost use Rattle.std.specs.Prelude.{◌≡◌, ◌≤◌, IfOk, IfErr, true, false, length};
ghost use Rattle.std.specs.List.{list_all, AllByRecursion};
ghost use Rattle.journal_form.specs.Versions.{changes_fit, files_of, marked, published_rowsets};
ghost use Rattle.kept_versions.specs.declared.publications.ChangeFault.TheVariants as fault;
ghost use Rattle.rowsets.specs.Marks.{Rises};
ghost use Rattle.kept_versions.specs.Changes.{AreInRange, places_of_changes};
ghost use Rattle.kept_versions.specs.Files.{PlacesRise, can_die, is_live};
ghost use Rattle.kept_versions.specs.Marking.{changed_numbers};

use crate::groups::group;
use crate::kept_version::KeptVersion;
use crate::marking::{note_all, note_rowsets, whole_files};
use dev_traits::Memory;
use index_level0::Place;
use journal_form::{DeadRows, NewFile};
use pk_values::Items;
use std::alloc::{AllocError, Global};
use thiserror::Error;

/// The next version, and the changed rows as a record tells them.
#[derive(Drop)]
pub struct Published {
    pub current: KeptVersion,
    pub changed: Items<DeadRows>,
}

/// Why a change isn't made.
#[derive(Clone, Copy, Debug, Drop, Error)]
pub enum ChangeFault {
    #[error("out of memory")]
    Memory,
    /// A row that is to be dead isn't a live row of the version or of a new file.
    #[error("a row that is to be dead isn't live")]
    NotLive,
}

impl From<AllocError> for ChangeFault {
    ghost use Rattle.std.specs.Prelude.{◌≡◌};
    ghost use Rattle.kept_versions.specs.declared.publications.ChangeFault.TheVariants as fault;

    ghost from_gives = { λ _ told. told ≡ fault.Memory };

    fn from(_: AllocError) -> ChangeFault {
        ChangeFault::Memory
    }
}

// Whether each is true.
fn are_all(found: &[bool]) -> bool
    ensures { result ≡ list_all (λ b. b) found.now }
{
    for here in found {
        if !*here {
            return false;
        }
    }
    true
}

// Whether all changed rows are live, in a version and the new files behind it.
fn all_live(
    alloc: Global,
    current: &KeptVersion,
    new_files: &[NewFile],
    changed: &[DeadRows],
) -> Result<bool, Memory>
    requires files { Rises (changed_numbers changed.now) }
    requires some { AllByRecursion (λ c. 1 ≤ length c.rows) changed.now }
    ensures { IfOk result (λ live. live ≡ list_all (is_live (published_rowsets new_files.now current.now)) (places_of_changes changed.now)) }
{
    let new = whole_files(alloc, new_files)?;
    let mut found = vec![in alloc; false; changed.len()]?;
    if !note_rowsets(changed, &mut found, current.rowsets()) {
        return Ok(false);
    }
    if !note_all(changed, &mut found, new.as_slice()) {
        return Ok(false);
    }
    Ok(are_all(found.as_slice()))
}

/// What a change makes of the current version: the rows at these places, which rise, are dead, and
/// the new files are one rowset more. The places are live rows of the current version, or rows of
/// the new files. It goes once over the places and once over the version's files, and files that
/// don't change share their dead rows with the version before.
pub fn publish_change(
    alloc: Global,
    current: &KeptVersion,
    new_files: &[NewFile],
    dead: &[Place],
) -> Result<Published, ChangeFault>
    requires { PlacesRise dead.now }
    ensures places { IfOk result (λ next. places_of_changes next.changed ≡ dead.now) }
    ensures fits { IfOk result (λ next. changes_fit 0 (files_of (published_rowsets new_files.now current.now)) next.changed ≡ true) }
    ensures range { IfOk result (λ next. AreInRange next.changed) }
    ensures current { IfOk result (λ next. next.current ≡ marked next.changed (published_rowsets new_files.now current.now)) }
    ensures live { IfOk result (λ _. list_all (can_die (published_rowsets new_files.now current.now)) dead.now ≡ true) }
    ensures not_live { IfErr result (λ told. told ≡ fault.NotLive → list_all (can_die (published_rowsets new_files.now current.now)) dead.now ≡ false) }
{
    let Some(changed) = group(alloc, dead)? else {
        return Err(ChangeFault::NotLive);
    };
    if !all_live(alloc, current, new_files, changed.as_slice())? {
        return Err(ChangeFault::NotLive);
    }
    let _count = changed.len();
    let next = current.after_publish(alloc, new_files, changed.as_slice())?;
    Ok(Published {
        current: next,
        changed,
    })
}
