ghost use Rattle.std.specs.Prelude.{◌≡◌, ◌⊎◌, ◌+◌, ◌<◌, ◌≤◌, ℕ, OnOk, IsTrue};
ghost use Rattle.dev_traits.specs.Causes.{HasCause};
ghost use Rattle.dev_traits.specs.Image.{Same, Blanked};
ghost use Rattle.dev_traits.specs.View.{EachImage, Told, Leaves, LeavesOnly, Spends, ReadsElsewhere};
ghost use Rattle.gated_log.specs.Log.{IsSynced};
ghost use Rattle.core_recover.specs.Areas.{BlanksEmpty, BlanksIn, IsEmptyOrBlank, IsLike, IsSyncedOrEmpty, SameFiles};

use crate::OpenFault;
use dev_traits::{Failed, Store};

// Syncs an area, where it isn't empty.
fn sync_written<S: Store>(store: &mut S, area: u32) -> Result<(), Failed>
    requires there { area < 3 }
    requires calls { 1 ≤ (S.view store.old).spare_calls }
    ensures synced { OnOk result (IsSyncedOrEmpty area (S.view store.new)) }
    ensures seen { (S.view store.new).seen ≡ (S.view store.old).seen }
    ensures crash { Leaves Same (S.view store.old) (S.view store.new) }
    ensures spends { Spends 1 0 (S.view store.old) (S.view store.new) }
    ensures cause { HasCause (S.view store.old).faults (S.view store.new).faults result }
{
    if store.length(area)? == 0 {
        return Ok(());
    }
    store.sync(area)
}

// Syncs each area that isn't empty.
fn sync_areas<S: Store>(store: &mut S) -> Result<(), Failed>
    requires calls { 3 ≤ (S.view store.old).spare_calls }
    ensures synced { OnOk result ((a : ℕ) → a < 3 → IsSyncedOrEmpty a (S.view store.new)) }
    ensures seen { (S.view store.new).seen ≡ (S.view store.old).seen }
    ensures crash { Leaves Same (S.view store.old) (S.view store.new) }
    ensures spends { Spends 3 0 (S.view store.old) (S.view store.new) }
    ensures cause { HasCause (S.view store.old).faults (S.view store.new).faults result }
{
    sync_written(store, 0)?;
    sync_written(store, 1)?;
    sync_written(store, 2)
}

// Blanks an area, where it is empty.
fn blank_empty<S: Store>(store: &mut S, area: u32) -> Result<(), Failed>
    requires there { area < 3 }
    requires calls { 1 ≤ (S.view store.old).spare_calls }
    ensures synced { OnOk result (IsSyncedOrEmpty area (S.view store.old) → IsSynced area (S.view store.new)) }
    ensures seen { OnOk result (Told (S.view store.old) (λ before. Told (S.view store.new) (BlanksEmpty before))) }
    ensures still { IsTrue (S.view store.old).is_honest → Told (S.view store.old) (λ before. Told (S.view store.new) (BlanksEmpty before)) }
    ensures elsewhere { ReadsElsewhere area (S.view store.old) (S.view store.new) }
    ensures crash { Leaves (Blanked area) (S.view store.old) (S.view store.new) }
    ensures moments { Told (S.view store.old) (λ image. Leaves (BlanksIn image) (S.view store.old) (S.view store.new)) }
    ensures spends { Spends 1 0 (S.view store.old) (S.view store.new) }
    ensures cause { HasCause (S.view store.old).faults (S.view store.new).faults result }
{
    if store.length(area)? == 0 {
        return store.blank(area);
    }
    Ok(())
}

// Blanks areas 0 and 1, where they are empty.
fn blank_journal<S: Store>(store: &mut S) -> Result<(), Failed>
    requires calls { 2 ≤ (S.view store.old).spare_calls }
    ensures synced { OnOk result (((a : ℕ) → a < 2 → IsSyncedOrEmpty a (S.view store.old)) → (a : ℕ) → a < 2 → IsSynced a (S.view store.new)) }
    ensures seen { OnOk result (Told (S.view store.old) (λ before. Told (S.view store.new) (BlanksEmpty before))) }
    ensures still { IsTrue (S.view store.old).is_honest → Told (S.view store.old) (λ before. Told (S.view store.new) (BlanksEmpty before)) }
    ensures files { Told (S.view store.old) (λ before. Told (S.view store.new) (SameFiles before)) }
    ensures moments { Told (S.view store.old) (λ image. Leaves (BlanksIn image) (S.view store.old) (S.view store.new)) }
    ensures spends { Spends 2 0 (S.view store.old) (S.view store.new) }
    ensures cause { HasCause (S.view store.old).faults (S.view store.new).faults result }
{
    blank_empty(store, 0)?;
    blank_empty(store, 1)
}

/// Syncs each area that isn't empty, and blanks areas 0 and 1 where they are empty, so that a crash from then on leaves
/// of these what is read. The store has room for five calls.
///
/// # Errors
/// The store failed, and counted it.
pub fn settle_areas<S: Store>(store: &mut S) -> Result<(), Failed>
    requires calls { 5 ≤ (S.view store.old).spare_calls }
    ensures synced { OnOk result ((a : ℕ) → a < 2 → IsSynced a (S.view store.new)) }
    ensures seen { OnOk result (Told (S.view store.old) (λ before. Told (S.view store.new) (BlanksEmpty before))) }

    // An honest store that failed reads so too.
    ensures still { IsTrue (S.view store.old).is_honest → Told (S.view store.old) (λ before. Told (S.view store.new) (BlanksEmpty before)) }

    // Its files are as they were, also where it failed and isn't honest.
    ensures files { Told (S.view store.old) (λ before. Told (S.view store.new) (SameFiles before)) }

    // Each image is then like the one that is read; and at every moment before, it is that or one that was there.
    ensures like { OnOk result (IsTrue (S.view store.old).is_honest → Told (S.view store.old) (λ image. EachImage (S.view store.new) (IsLike image))) }
    ensures any_moment { IsTrue (S.view store.old).is_honest → Told (S.view store.old) (λ image.
        LeavesOnly (λ left. (S.view store.old).may_leave left ⊎ IsLike image left) (S.view store.old) (S.view store.new)) }
    ensures spends { Spends 5 0 (S.view store.old) (S.view store.new) }
    ensures cause { HasCause (S.view store.old).faults (S.view store.new).faults result }
{
    sync_areas(store)?;
    blank_journal(store)
}

/// Blanks an area, where it isn't empty. The store has room for one call.
pub fn blank_written<S: Store>(store: &mut S, area: u32) -> Result<(), Failed>
    requires there { area < 3 }
    requires calls { 1 ≤ (S.view store.old).spare_calls }
    ensures read { OnOk result (Told (S.view store.new) (IsEmptyOrBlank area)) }
    ensures each { OnOk result (IsTrue (S.view store.old).is_honest → EachImage (S.view store.new) (IsEmptyOrBlank area)) }
    ensures elsewhere { ReadsElsewhere area (S.view store.old) (S.view store.new) }
    ensures crash { Leaves (Blanked area) (S.view store.old) (S.view store.new) }
    ensures spends { Spends 1 0 (S.view store.old) (S.view store.new) }
    ensures cause { HasCause (S.view store.old).faults (S.view store.new).faults result }
{
    if store.length(area)? == 0 {
        return Ok(());
    }
    store.blank(area)
}
