ghost use Rattle.std.specs.Prelude.{◌≡◌, ◌+◌, ◌^◌, ◌<◌, ◌≤◌, [], ◌∷◌, ℕ, List, Some, IsTrue, IfSome, IfOk, ◌≢◌, IfErr, IsErrOf, MatchOption};
ghost use Rattle.std.specs.List.{AllByRecursion};
ghost use Rattle.dev_traits.specs.Causes.{HasCauseOf};
ghost use Rattle.dev_traits.specs.Image.{area_of};
ghost use Rattle.dev_traits.specs.View.{Told, Calm};
ghost use Rattle.gated_log.specs.Log.{EndsAt, HasNone, IsNoLog, IsSynced};
ghost use Rattle.journal_form.specs.Meaning.{Standing};
ghost use Rattle.journal_form.specs.Standings.{is_built, records_mean};
ghost use Rattle.version_journal.specs.declared.fault.JournalFault.TheVariants as fault;
ghost use Rattle.version_journal.specs.Images.{HasNoRecord};
ghost use Rattle.dev_traits.specs.declared.faults.Damaged.{Damaged};
ghost use Rattle.version_journal.specs.Journals.{HasJournal, ReadsAs};
ghost use Rattle.version_journal.specs.Reading.{IsDamagedIn, IsReplayed, MeanNothing, damage_of};

use crate::fault::JournalFault;
use crate::journals::Journal;
use crate::replaying::{Replayed, replay};
use dev_traits::{Damaged, Part, Shown, Store};
use gated_log::{Contents, LogFault, first_body, log_in};
use journal_form::Record;
use std::alloc::Global;

/// A journal that was read, and its records in their order.
#[derive(Drop)]
pub struct ReadJournal {
    pub journal: Journal,
    pub records: Vec<Record>,
}

fn damaged(area: u32) -> JournalFault
    ensures { result ≡ fault.Damaged (damage_of area) }
{
    JournalFault::Damaged(Damaged {
        file: 0,
        part: Part::Area(area),
        shown: Shown::Form,
    })
}

// The log of area 0 and its bodies, or none where the area is empty.
fn log_in_force<S: Store>(alloc: Global, store: &mut S) -> Result<Option<Contents>, JournalFault>
    ensures found { IfOk result (λ found. Told (S.view store.old) (λ image.
        MatchOption found (area_of image 0 ≡ []) (λ contents. EndsAt contents.bodies.items contents.log.end
        (area_of image 0)))) }
    ensures area { IfOk result (λ found. IfSome found (λ contents. contents.log.area ≡ 0)) }
    ensures damaged { IfErr result (λ e. (d : Damaged) → e ≡ fault.Damaged d → (d ≡ damage_of 0)
        × Told (S.view store.old) (λ image. IsNoLog (area_of image 0))) }
    ensures not_empty { IsErrOf result fault.Empty → ⊥ }
    ensures calm { Calm (S.view store.old) (S.view store.new) }
    ensures cause { HasCauseOf fault.StoreFault (S.view store.old).faults (S.view store.new).faults result }
{
    match log_in(alloc, store, 0) {
        Ok(found) => Ok(found),
        Err(LogFault::NotALog) => Err(damaged(0)),
        Err(LogFault::StoreFault) => Err(JournalFault::StoreFault),
        Err(LogFault::Memory) => Err(JournalFault::Memory),
    }
}

// Area 1 has no body. A checkpoint would stand there, and isn't read as yet.
fn expect_no_other<S: Store>(alloc: Global, store: &mut S) -> Result<(), JournalFault>
    ensures none { IfOk result (λ _. Told (S.view store.old) (λ image. HasNone (area_of image 1))) }
    ensures damaged { IfErr result (λ e. (d : Damaged) → e ≡ fault.Damaged d → (d ≡ damage_of 1)
        × Told (S.view store.old) (λ image. HasNone (area_of image 1) → ⊥)) }
    ensures not_empty { IsErrOf result fault.Empty → ⊥ }
    ensures calm { Calm (S.view store.old) (S.view store.new) }
    ensures cause { HasCauseOf fault.StoreFault (S.view store.old).faults (S.view store.new).faults result }
{
    match first_body(alloc, store, 1) {
        Ok(None) => Ok(()),
        Ok(Some(_)) => Err(damaged(1)),
        Err(LogFault::NotALog) => Err(damaged(1)),
        Err(LogFault::StoreFault) => Err(JournalFault::StoreFault),
        Err(LogFault::Memory) => Err(JournalFault::Memory),
    }
}

// The journal of a log whose bodies were read.
fn journal_of(alloc: Global, contents: Contents) -> Result<ReadJournal, JournalFault>
    ensures read { IfOk result (λ found. (s : Standing) × IsReplayed contents.bodies.items found.records.items
        found.journal.edits s) }
    ensures built { IfOk result (λ found. AllByRecursion (λ r. IsTrue (is_built r)) found.records.items) }
    ensures log { IfOk result (λ found. found.journal.log ≡ contents.log) }
    ensures epoch { IfOk result (λ found. found.journal.epoch ≡ 0) }
    ensures empty { IsErrOf result fault.Empty → contents.bodies.items ≡ [] }
    ensures damaged { IfErr result (λ e. (d : Damaged) → e ≡ fault.Damaged d → d ≡ damage_of 0) }
    ensures nothing { IfErr result (λ e. (d : Damaged) → e ≡ fault.Damaged d → MeanNothing contents.bodies.items) }
    ensures some { IfErr result (λ e. (d : Damaged) → e ≡ fault.Damaged d → contents.bodies.items ≢ []) }
    ensures no_fault { IsErrOf result fault.StoreFault → ⊥ }
{
    let Contents { log, bodies } = contents;
    if bodies.is_empty() {
        return Err(JournalFault::Empty);
    }
    match replay(alloc, &bodies) {
        Ok(Some(Replayed { records, edits })) => Ok(ReadJournal {
            journal: Journal {
                log,
                epoch: 0,
                edits,
            },
            records,
        }),
        Ok(None) => Err(damaged(0)),
        Err(_) => Err(JournalFault::Memory),
    }
}

/// Reads the journal of a store: what its records mean stands in the area in force, in one pass. It writes nothing.
///
/// # Errors
/// `Empty` exactly where neither area has a body, `Damaged` exactly where what is read says nothing, each up to
/// `StoreFault` and want of memory.
pub fn read_records<S: Store>(alloc: Global, store: &mut S) -> Result<ReadJournal, JournalFault>
    // The records fit one after the other.
    ensures means { IfOk result (λ found. (s : Standing) × (records_mean found.records.items ≡ Some s)) }
    // None tells of index files or of a checkpoint.
    ensures built { IfOk result (λ found. AllByRecursion (λ r. IsTrue (is_built r)) found.records.items) }
    ensures read { IfOk result (λ found. (s : Standing) → records_mean found.records.items ≡ Some s
        → Told (S.view store.old) (λ image. ReadsAs found.journal (Some s) image)) }
    ensures edits { IfOk result (λ found. (s : Standing) → records_mean found.records.items ≡ Some s
        → found.journal.edits ≡ s.edit + 1) }
    // Where a crash leaves what is read, every image says it.
    ensures settled { IsTrue (S.view store.old).is_honest → IsSynced 0 (S.view store.old)
        → IsSynced 1 (S.view store.old) → IfOk result (λ found. (s : Standing)
        → records_mean found.records.items ≡ Some s → HasJournal found.journal (Some s) (S.view store.new)) }
    ensures empty { IsErrOf result fault.Empty → Told (S.view store.old) HasNoRecord }
    ensures damaged { IfErr result (λ e. (d : Damaged) → e ≡ fault.Damaged d → (a : ℕ) × (d ≡ damage_of a)
        × Told (S.view store.old) (IsDamagedIn a)) }
    ensures calm { Calm (S.view store.old) (S.view store.new) }
    ensures cause { HasCauseOf fault.StoreFault (S.view store.old).faults (S.view store.new).faults result }
{
    let found = log_in_force(alloc, store)?;
    expect_no_other(alloc, store)?;
    match found {
        None => Err(JournalFault::Empty),
        Some(contents) => journal_of(alloc, contents),
    }
}
