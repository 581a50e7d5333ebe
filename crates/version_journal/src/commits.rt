ghost use Rattle.std.specs.Prelude.{◌≡◌, ◌+◌, ◌^◌, ◌<◌, ◌≤◌, ℕ, List, Option, Some, IsTrue, length, OnOk, OnErr, IfOk, IfErr};
ghost use Rattle.dev_traits.specs.Causes.{HasCause};
ghost use Rattle.dev_traits.specs.Image.{area_of};
ghost use Rattle.dev_traits.specs.View.{Told, EachImage, Leaves, ReadsElsewhere, Spends};
ghost use Rattle.gated_log.specs.Log.{EndsAt, IsReady};
ghost use Rattle.journal_form.specs.Meaning.{Standing};
ghost use Rattle.journal_form.specs.Standings.{is_built};
ghost use Rattle.journal_bytes.specs.Records.{RecordFits, record_bytes};
ghost use Rattle.version_journal.specs.Commits.{IsDue, Joins};
ghost use Rattle.version_journal.specs.Journals.{HasJournal, ReadsAs};

use crate::journals::{Draft, Journal};
use dev_traits::{Memory, Store};
use gated_log::{LogFault, append, frame};
use journal_bytes::write_record;
use journal_form::Record;
use std::alloc::Global;

/// The body of a record with the edit that is due, in a frame. The record and its edit are of the journal's grammar.
/// Index files and checkpoints aren't written as yet.
pub fn draft(alloc: Global, journal: &Journal, entry: &Record) -> Result<Draft, Memory>
    requires edit { journal.now.edits < 2 ^ 63 }
    requires fits { RecordFits journal.now.edits entry.now }
    requires built { IsTrue (is_built entry.now) }
    ensures body { IfOk result (λ draft. draft.body ≡ record_bytes journal.now.edits entry.now) }
    ensures edit { IfOk result (λ draft. draft.edit ≡ journal.now.edits) }
{
    let edit = journal.edits;
    let bytes = write_record(alloc, edit, entry)?;
    let body = frame(alloc, &bytes)?;
    Ok(Draft { body, edit })
}

/// Writes a record into the journal, by four device calls, for which the store has room. It takes no memory. What the
/// clauses say of records holds where the record fits those before it, or is the first one of a store without any.
///
/// # Errors
/// `StoreFault`. A crash may then leave the journal with the record or without. The journal in hand isn't ready for
/// another commit before it was read again.
pub fn commit<S: Store>(store: &mut S, journal: &mut Journal, draft: &Draft) -> Result<(), LogFault>
    requires calls { 4 ≤ (S.view store.old).spare_calls }
    requires bytes { length draft.now.body + 10 ≤ (S.view store.old).spare_bytes }
    requires due { draft.now.edit ≡ journal.old.edits }
    requires log { Told (S.view store.old) (λ image. (bodies : List (List ℕ))
        × EndsAt bodies journal.old.log.end (area_of image journal.old.log.area)) }

    requires ready { IsReady journal.old.log.area journal.old.log.end (S.view store.old) }

    // What is read says what it did with the record.
    ensures committed { OnOk result (Told (S.view store.old) (λ before. Told (S.view store.new) (λ after.
        (s : Option Standing) (t : Standing) → ReadsAs journal.old s before → IsDue draft.now.body s t
        → ReadsAs journal.new (Some t) after))) }

    // A crash at any moment of the call leaves a journal that says what it did, or what it says with the record.
    ensures any_moment { (s : Option Standing) (t : Standing) → HasJournal journal.old s (S.view store.old)
        → IsDue draft.now.body s t → Leaves (Joins journal.old.log.area s t) (S.view store.old) (S.view store.new) }

    ensures acknowledged { OnOk result ((s : Option Standing) (t : Standing)
        → HasJournal journal.old s (S.view store.old) → IsDue draft.now.body s t
        → HasJournal journal.new (Some t) (S.view store.new)) }

    // A crash then leaves what is read.
    ensures durable { OnOk result (Told (S.view store.new) (λ after. EachImage (S.view store.new)
        (λ left. area_of left journal.new.log.area ≡ area_of after journal.new.log.area))) }

    ensures elsewhere { ReadsElsewhere journal.old.log.area (S.view store.old) (S.view store.new) }
    ensures end { OnOk result (journal.new.log.end ≡ journal.old.log.end + 9 + length draft.now.body) }
    ensures edits { OnOk result (journal.new.edits ≡ journal.old.edits + 1) }
    ensures unmoved { OnErr result ((journal.new.log.end ≡ journal.old.log.end)
        × (journal.new.edits ≡ journal.old.edits)) }
    ensures area { journal.new.log.area ≡ journal.old.log.area }
    ensures epoch { journal.new.epoch ≡ journal.old.epoch }
    ensures spends { Spends 4 (length draft.now.body + 10) (S.view store.old) (S.view store.new) }
    ensures only { IfErr result (λ e. e ≡ LogFault.StoreFault) }
    ensures cause { HasCause (S.view store.old).faults (S.view store.new).faults result }
{
    append(store, &mut journal.log, &draft.body)?;
    journal.edits = draft.edit + 1;
    Ok(())
}
