ghost use Rattle.std.specs.Prelude.{◌≡◌, IfOk, MatchOption, IsTrue};
ghost use Rattle.journal_form.specs.Meaning.{Standing};
ghost use Rattle.journal_form.specs.Standings.{is_built};
ghost use Rattle.journal_form.specs.declared.records.Record.{Record};
ghost use Rattle.journal_bytes.specs.ReadRecords.{IsBodyOf};
ghost use Rattle.version_journal.specs.Reading.{HasBegun, IsCreation, IsReplayed, MeanNothing, is_creation};

use dev_traits::Memory;
use journal_bytes::{ReadRecord, read_record};
use journal_form::Record;
use journal_replay::Replay;
use pk_values::Octets;
use std::alloc::{AllocError, Global};
use value_bytes::Unread;

/// The records of some bodies, and how many edits there are.
#[derive(Drop)]
pub(crate) struct Replayed {
    pub records: Vec<Record>,
    pub edits: u64,
}

// Whether a record is one that is read as yet.
fn is_read(told: &Record) -> bool
    ensures { result ≡ is_built told.now }
{
    match told {
        Record::Create { form, schema: _ } => *form == 1,
        Record::Compact {
            version: _,
            replaced: _,
            files: _,
            changed: _,
            levels,
        } => levels.is_none(),
        Record::Publish { .. } | Record::Floor { .. } => true,
        Record::Levels { .. } | Record::Checkpoint { .. } => false,
    }
}

fn is_creation(told: &Record) -> bool
    ensures { result ≡ is_creation told.now }
{
    matches!(told, Record::Create { .. })
}

// The record that was read of a body, where it has this edit and is one that is read as yet.
fn checked(edit: u64, read: ReadRecord, body: &Octets) -> Option<Record>
    requires { IsBodyOf read.edit read.told body.now }
    ensures { MatchOption result ((told : Record) → IsBodyOf edit told body.now → IsTrue (is_built told) → ⊥)
        (λ told. IsBodyOf edit told body.now × IsTrue (is_built told)) }
{
    if read.edit != edit {
        return None;
    }
    if !is_read(&read.told) {
        return None;
    }
    Some(read.told)
}

// The record of a body with this edit, where it is one that is read as yet.
fn read_body(alloc: Global, body: &Octets, edit: u64) -> Result<Option<Record>, Memory>
    ensures { IfOk result (λ found. MatchOption found ((told : Record) → IsBodyOf edit told body.now
        → IsTrue (is_built told) → ⊥) (λ told. IsBodyOf edit told body.now × IsTrue (is_built told))) }
{
    match read_record(alloc, body.as_slice()) {
        Ok(read) => Ok(checked(edit, read, body)),
        Err(Unread::NotOne) => Ok(None),
        Err(Unread::Memory) => Err(AllocError),
    }
}

// The creation whose body this is.
fn read_creation(alloc: Global, body: &Octets) -> Result<Option<Record>, Memory>
    ensures { IfOk result (λ found. MatchOption found (IsCreation body.now → ⊥) (λ told. (s : Standing)
        × HasBegun body.now told s)) }
{
    match read_body(alloc, body, 0)? {
        Some(told) => {
            if is_creation(&told) {
                Ok(Some(told))
            } else {
                Ok(None)
            }
        }
        None => Ok(None),
    }
}

/// The records of bodies, held against each other one by one, or none where the bodies mean nothing.
pub(crate) fn replay(alloc: Global, bodies: &[Octets]) -> Result<Option<Replayed>, Memory>
    ensures { IfOk result (λ found. MatchOption found (MeanNothing bodies.now) (λ replayed. (s : Standing)
        × IsReplayed bodies.now replayed.records.items replayed.edits s)) }
{
    let (first, rest) = match bodies {
        [] => return Ok(None),
        [first, rest @ ..] => (first, rest),
    };
    let creation = match read_creation(alloc, first)? {
        Some(creation) => creation,
        None => return Ok(None),
    };
    let mut records = Vec::with_capacity(alloc, bodies.len())?;
    records.push(creation)?;
    let mut replay = Replay::begin(alloc);
    let mut left = rest;
    while let [body, more @ ..] = left {
        let told = match read_body(alloc, body, replay.edit() + 1)? {
            Some(told) => told,
            None => return Ok(None),
        };
        if !replay.step(alloc, &told)? {
            return Ok(None);
        }
        records.push(told)?;
        left = more;
    }
    let edits = replay.edit() + 1;
    Ok(Some(Replayed { records, edits }))
}
