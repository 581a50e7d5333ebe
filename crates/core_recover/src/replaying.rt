ghost use Rattle.std.specs.Prelude.{◌≡◌, ◌+◌, ◌^◌, ◌<◌, ◌≤◌, ◌∷◌, [], ℕ, Some, IsSome, IsTrue, OnOk, IfOk, length, true};
ghost use Rattle.std.specs.List.{AllByRecursion};
ghost use Rattle.journal_form.specs.declared.records.Record.TheVariants as entry;
ghost use Rattle.journal_form.specs.Meaning.{Standing};
ghost use Rattle.journal_form.specs.Standings.{begun, is_built, records_mean};
ghost use Rattle.journal_form.specs.Versions.{above, all_below, bound, changes_fit, compacted_rowsets, files_of, numbers_of, published_rowsets};
ghost use Rattle.core_recover.specs.Replaying.{HasCompacted, HasFollowed, HasPublished, HasRaised, HasStepped, IsReplayed, Takes};

use dev_traits::Memory;
use journal_form::{DeadRows, NewFile, Record};
use kept_versions::KeptVersion;
use pk_values::Schema;
use std::alloc::Global;

/// What the records of a journal mean: the kept versions, and the numbers of what is next.
#[derive(Drop)]
pub struct Replayed {
    pub schema: Schema,
    /// The edit of the last record.
    pub edit: u64,
    /// A number above all file numbers that were told.
    pub next_file: u64,
    /// The number of the first version that is kept.
    pub floor: u64,
    /// The versions from the floor on, but for the current one.
    pub older: Vec<KeptVersion>,
    pub current: KeptVersion,
}

// A number above those of new files too.
fn next_after(next: u64, files: &[NewFile]) -> u64
    requires { all_below bound (numbers_of files.now) ≡ true }
    ensures { result ≡ above next (numbers_of files.now) }
{
    let mut least = next;
    let mut left = files;
    while let [file, more @ ..] = left {
        least = least.max(file.file + 1);
        left = more;
    }
    least
}

impl Replayed {
    // Version 0, without a rowset.
    fn begin(alloc: Global, schema: Schema) -> Replayed
        ensures { (s : Standing) → records_mean (entry.Create 1 schema ∷ []) ≡ Some s → IsReplayed result s }
    {
        Replayed {
            schema,
            edit: 0,
            next_file: 1,
            floor: 0,
            older: Vec::new(alloc),
            current: KeptVersion::empty(alloc),
        }
    }

    fn publish(
        &mut self,
        alloc: Global,
        files: &[NewFile],
        changed: &[DeadRows],
    ) -> Result<(), Memory>
        requires fit { changes_fit 0 (files_of (published_rowsets files.now self.old.current)) changed.now ≡ true }
        requires below { all_below bound (numbers_of files.now) ≡ true }
        ensures { OnOk result (HasPublished files.now changed.now self.old self.new) }
    {
        let current = self.current.after_publish(alloc, files, changed)?;
        let last = std::mem::replace(&mut self.current, current);
        self.older.push(last)?;
        self.next_file = next_after(self.next_file, files);
        Ok(())
    }

    fn compact(
        &mut self,
        alloc: Global,
        replaced: u64,
        files: &[NewFile],
        changed: &[DeadRows],
    ) -> Result<(), Memory>
        requires few { replaced ≤ length self.old.current }
        requires fit { changes_fit 0 (files_of (compacted_rowsets replaced files.now self.old.current)) changed.now ≡ true }
        requires below { all_below bound (numbers_of files.now) ≡ true }
        ensures { OnOk result (HasCompacted replaced files.now changed.now self.old self.new) }
    {
        self.current = self
            .current
            .after_compact(alloc, replaced as usize, files, changed)?;
        self.next_file = next_after(self.next_file, files);
        Ok(())
    }

    fn raise(&mut self, floor: u64)
        requires above { self.old.floor < floor }
        requires within { floor ≤ self.old.floor + length self.old.older.items }
        ensures { HasRaised floor self.old self.new }
    {
        let dropped = (floor - self.floor) as usize;
        let kept = self.older.len() - dropped;
        self.older.rotate_left(dropped);
        self.older.truncate(kept);
        self.floor = floor;
    }

    // One record more, but for its edit.
    fn follow(&mut self, alloc: Global, told: &Record) -> Result<(), Memory>
        requires fits { Takes self.old told.now }
        requires built { IsTrue (is_built told.now) }
        ensures { OnOk result (HasFollowed told.now self.old self.new) }
    {
        match told {
            Record::Publish {
                version: _,
                files,
                changed,
            } => self.publish(alloc, files.as_slice(), changed.as_slice()),
            Record::Compact {
                version: _,
                replaced,
                files,
                changed,
                levels: _,
            } => self.compact(alloc, *replaced, files.as_slice(), changed.as_slice()),
            Record::Floor { floor } => {
                self.raise(*floor);
                Ok(())
            }
            _ => unreachable!(),
        }
    }

    // One record more, which fits those before it.
    fn step(&mut self, alloc: Global, told: &Record) -> Result<(), Memory>
        requires fits { Takes self.old told.now }
        requires built { IsTrue (is_built told.now) }
        ensures { OnOk result (HasStepped told.now self.old self.new) }
    {
        self.follow(alloc, told)?;
        self.edit += 1;
        Ok(())
    }
}

// The columns of a first record.
fn schema_of(first: Record) -> Schema
    requires { IsSome (begun first) }
    ensures { (form : ℕ) × (first ≡ entry.Create form result) }
{
    match first {
        Record::Create { form: _, schema } => schema,
        _ => unreachable!(),
    }
}

/// What the records of a journal mean that fit one after the other, of which none tells of index files or of a checkpoint.
pub fn replay(alloc: Global, records: Vec<Record>) -> Result<Replayed, Memory>
    requires means { (s : Standing) × (records_mean records.items ≡ Some s) }
    requires built { AllByRecursion (λ r. IsTrue (is_built r)) records.items }
    ensures { IfOk result (λ replayed. (s : Standing) → records_mean records.items ≡ Some s → IsReplayed replayed s) }
{
    let mut left = records.into_iter();
    let first = match left.next() {
        Some(first) => first,
        None => unreachable!(),
    };
    let mut replayed = Replayed::begin(alloc, schema_of(first));
    while let Some(told) = left.next() {
        replayed.step(alloc, &told)?;
    }
    Ok(replayed)
}
