ghost use Rattle.std.specs.Prelude.{◌≡◌, ◌&&◌, ◌+◌, ◌-◌, ◌^◌, ◌<◌, ◌≤◌, ◌++◌, IfOk, IsTrue, None, Some, true, nat_le, nat_lt, length, ◌==◌};
ghost use Rattle.journal_form.specs.Versions.{above, bound, files_fit, numbers_of};
ghost use Rattle.journal_form.specs.Meaning.{Standing, created, opens, step, step_at};
ghost use Rattle.journal_form.specs.Standings.{is_built};
ghost use Rattle.journal_replay.specs.Follow.{Follows, Goes, HasCompacted, HasPublished, HasRaised, Moves, compact_takes, publish_takes};
ghost use Rattle.pk_values.specs.Schemas.{Layout};

use crate::file_maps::{add_files, mark_all, remove_spans};
use crate::new_files::{are_new, span_of};
use crate::replay::Replay;
use crate::spans::{led_by, next_after, push_span};
use dev_traits::Memory;
use journal_form::{DeadRows, NewFile, Record};
use std::alloc::Global;
use std::collections::BTreeMap;

/// A number in a record is below this one, 2^63.
const BOUND: u64 = 1 << 63;

/// So many versions are kept at most.
const MOST_VERSIONS: u64 = 1000;

impl Replay {
    /// What a first record means: version 0 with no rowset.
    pub fn begin(alloc: Global) -> Replay
        ensures { (schema : Layout) (s : Standing) → opens 0 (created 1 schema) ≡ Some s → Follows result s }
    {
        Replay {
            edit: 0,
            floor: 0,
            current: 0,
            next_file: 1,
            rowsets: Vec::new(alloc),
            files: BTreeMap::new(alloc),
        }
    }

    /// The edit of the last record.
    pub fn edit(&self) -> u64
        ensures edit { result ≡ self.now.edit }
        ensures range { result < 2 ^ 63 }
    {
        self.edit
    }

    /// Holds the next record against those before it, and goes on where it fits.
    pub fn step(&mut self, alloc: Global, told: &Record) -> Result<bool, Memory>
        requires { IsTrue (is_built told.now) }
        ensures { IfOk result (λ ok. (s : Standing) → Follows self.old s → Goes ok (step s told.now) self.new) }
    {
        if self.edit + 1 >= BOUND {
            return Ok(false);
        }
        let fits = self.follow(alloc, told)?;
        if fits {
            self.edit += 1;
        }
        Ok(fits)
    }

    // The same, but for the edits.
    fn follow(&mut self, alloc: Global, told: &Record) -> Result<bool, Memory>
        requires { IsTrue (is_built told.now) }
        ensures moves { IfOk result (λ ok. (s : Standing) → Follows self.old s
            → Moves ok (step_at (s.edit + 1) s told.now) self.new) }
        ensures edit { self.new.edit ≡ self.old.edit }
    {
        match told {
            Record::Publish {
                version,
                files,
                changed,
            } => self.publish(alloc, *version, files.as_slice(), changed.as_slice()),
            Record::Compact {
                version,
                replaced,
                files,
                changed,
                levels: _,
            } => self.compact(
                alloc,
                *version,
                *replaced,
                files.as_slice(),
                changed.as_slice(),
            ),
            Record::Floor { floor } => Ok(self.raise(*floor)),
            _ => Ok(false),
        }
    }

    fn publish(
        &mut self,
        alloc: Global,
        version: u64,
        files: &[NewFile],
        changed: &[DeadRows],
    ) -> Result<bool, Memory>
        ensures fits { IfOk result (λ ok. ok ≡ publish_takes self.old version files.now changed.now) }
        ensures made { IfOk result (λ ok. ok ≡ true → HasPublished version files.now changed.now self.old self.new) }
        ensures edit { self.new.edit ≡ self.old.edit }
    {
        let in_turn = version == self.current + 1
            && version < BOUND
            && self.current - self.floor + 1 < MOST_VERSIONS;
        if !in_turn || !are_new(self.next_file, files) {
            return Ok(false);
        }
        add_files(&mut self.files, files)?;
        if !mark_all(alloc, &mut self.files, changed)? {
            return Ok(false);
        }
        let span = span_of(self.next_file, files);
        push_span(&mut self.rowsets, span)?;
        self.next_file = next_after(self.next_file, span);
        self.current = version;
        Ok(true)
    }

    // Whether this is the current version, and it has so many rowsets.
    fn may_compact(&self, version: u64, replaced: u64) -> bool
        ensures { result ≡ ((version == self.now.current) && nat_le replaced (length self.now.rowsets.items)) }
    {
        version == self.current && replaced <= self.rowsets.len() as u64
    }

    fn compact(
        &mut self,
        alloc: Global,
        version: u64,
        replaced: u64,
        files: &[NewFile],
        changed: &[DeadRows],
    ) -> Result<bool, Memory>
        ensures fits { IfOk result (λ ok. ok ≡ compact_takes self.old version replaced files.now changed.now) }
        ensures made { IfOk result (λ ok. ok ≡ true → HasCompacted replaced files.now changed.now self.old self.new) }
        ensures edit { self.new.edit ≡ self.old.edit }
    {
        if !self.may_compact(version, replaced) {
            return Ok(false);
        }
        if !are_new(self.next_file, files) {
            return Ok(false);
        }
        let (gone, left) = self.rowsets.split_at(replaced as usize);
        let span = span_of(self.next_file, files);
        let rowsets = led_by(alloc, span, left)?;
        remove_spans(&mut self.files, gone);
        add_files(&mut self.files, files)?;
        if !mark_all(alloc, &mut self.files, changed)? {
            return Ok(false);
        }
        self.rowsets = rowsets;
        self.next_file = next_after(self.next_file, span);
        Ok(true)
    }

    fn raise(&mut self, floor: u64) -> bool
        ensures fits { result ≡ (nat_lt self.old.floor floor && nat_le floor self.old.current) }
        ensures raised { result ≡ true → HasRaised floor self.old self.new }
        ensures kept { self.new.edit ≡ self.old.edit }
    {
        if self.floor < floor && floor <= self.current {
            self.floor = floor;
            return true;
        }
        false
    }
}
