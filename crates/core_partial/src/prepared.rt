ghost use Rattle.std.specs.Prelude.{◌≡◌, ◌++◌, map, false, true, [], IfOk, OnErr, OnOk, length, take};
ghost use Rattle.core_partial.specs.Prepared.{IsPreparedPartial, nothing_again};
ghost use Rattle.core_partial.specs.Publishing.{emptied};

use crate::PreparedKey;
use crate::again::Remade;
use crate::results::Results;
use dev_traits::FileMaker;
use index_level0::{KeyBytes, Place};
use pk_model::Load;
use pk_values::{Items, Row, Schema};
use segment_write::Made;
use std::alloc::{AllocError, Global};
use std::marker::Model;
use std::mem;
use std::snapshot::Snapshot;

/// Rows that were made again in a turn, of the keys that moved: where each of these keys stands now, in files that are
/// numbered from 0; the places at which rows of them were made before; and their files. Contracts also see the rows.
#[derive(Drop)]
pub struct Again<M: FileMaker> {
    pub(crate) moves: Vec<(KeyBytes, Option<Place>)>,
    pub(crate) stale: Vec<Place>,
    pub(crate) rows: Snapshot<Vec<Row>>,
    pub(crate) files: Vec<Made<M>>,
}

impl<M: FileMaker> Model for Again<M> {
    ghost use Rattle.std.specs.Prelude.{map};
    ghost use Rattle.core_partial.specs.Prepared.{AgainView};

    ghost Value = { AgainView };

    ghost view = { λ a. record {
      moves = a.moves.items;
      stale = a.stale.items;
      rows = a.rows.value.items;
      files = map (λ f. (M.sealed_bytes f.sealed, f.footer)) a.files.items;
    } };
}

impl<M: FileMaker> Again<M> {
    // What was made again, and its files.
    pub(crate) fn of(remade: Remade, files: Vec<Made<M>>) -> Again<M>
        ensures moves { result.moves ≡ remade.results.moves.items }
        ensures stale { result.stale ≡ remade.stale.items }
        ensures rows { result.rows ≡ remade.results.rows.items }
        ensures files { result.files ≡ map (λ f. (M.sealed_bytes f.sealed, f.footer)) files.items }
    {
        let Remade { results, stale } = remade;
        let Results { rows, moves } = results;
        Again {
            moves,
            stale,
            rows: Snapshot::of(&rows),
            files,
        }
    }

    // The moves, the superseded rows and the files.
    pub(crate) fn into_parts(self) -> (Vec<(KeyBytes, Option<Place>)>, Vec<Place>, Vec<Made<M>>)
        ensures moves { result.0.items ≡ self.moves }
        ensures stale { result.1.items ≡ self.stale }
        ensures files { map (λ f. (M.sealed_bytes f.sealed, f.footer)) result.2.items ≡ self.files }
    {
        let Again {
            moves,
            stale,
            rows: _,
            files,
        } = self;
        (moves, stale, files)
    }

    // Of how many keys.
    pub(crate) fn moved(&self) -> u64
        ensures { result ≡ length self.now.moves }
    {
        self.moves.len() as u64
    }

    // Nothing was made again.
    pub(crate) fn nothing(alloc: Global) -> Again<M>
        ensures { result ≡ nothing_again }
    {
        let rows = Vec::new(alloc);
        Again {
            moves: Vec::new(alloc),
            stale: Vec::new(alloc),
            rows: Snapshot::of(&rows),
            files: Vec::new(alloc),
        }
    }
}

/// A partial load that is ready to be published: whole rows of its keys stand in sealed files, made over the rows of the
/// version at which it was located. It keeps what the lines of each key come to, since rows of keys that move are made
/// again. Contracts also see the load and the rows, which take no memory here.
#[derive(Drop)]
pub struct PreparedPartial<M: FileMaker> {
    pub(crate) schema: Snapshot<Schema>,
    pub(crate) load: Snapshot<Load>,
    pub(crate) version: u64,
    pub(crate) given: Vec<u32>,
    pub(crate) keys: Vec<PreparedKey>,
    pub(crate) rows: Snapshot<Vec<Row>>,
    pub(crate) files: Vec<Made<M>>,
    pub(crate) again: Again<M>,
    pub(crate) spent: bool,
}

impl<M: FileMaker> Model for PreparedPartial<M> {
    ghost use Rattle.std.specs.Prelude.{◌≡◌, map, false};
    ghost use Rattle.core_partial.specs.Prepared.{IsPreparedPartial, PreparedPartialView};

    ghost Value = { PreparedPartialView };

    ghost view = { λ p. record {
      schema = p.schema.value;
      load = p.load.value;
      version = p.version;
      keys = p.keys.items;
      rows = p.rows.value.items;
      files = map (λ f. (M.sealed_bytes f.sealed, f.footer)) p.files.items;
      again = p.again;
      spent = p.spent;
    } };

    ghost invariant = { λ p. (p.given.items ≡ p.load.value.given) × (p.spent ≡ false → IsPreparedPartial (record {
      schema = p.schema.value;
      load = p.load.value;
      version = p.version;
      keys = p.keys.items;
      rows = p.rows.value.items;
      files = map (λ f. (M.sealed_bytes f.sealed, f.footer)) p.files.items;
      again = p.again;
      spent = p.spent;
    })) };
}

impl<M: FileMaker> PreparedPartial<M> {
    /// Whether it was published, or its publishing met a fault that closed the tablet. It can't be published again.
    pub fn is_spent(&self) -> bool
        ensures { result ≡ self.now.spent }
    {
        self.spent
    }

    // The version at which it was located.
    pub(crate) fn version(&self) -> u64
        ensures { result ≡ self.now.version }
    {
        self.version
    }

    // Its keys, and the columns that its lines carry.
    pub(crate) fn keys(&self) -> (&[PreparedKey], &[u32])
        ensures keys { result.0.now ≡ self.now.keys }
        ensures given { result.1.now ≡ self.now.load.given }
        ensures prepared { self.now.spent ≡ false → IsPreparedPartial self.now }
    {
        (&self.keys, &self.given)
    }

    // What was made again takes the place of what was before.
    pub(crate) fn renew(&mut self, again: Again<M>)
        ensures { self.new ≡ record self.old { again = again } }
    {
        self.again = again;
    }

    // Lets all that it has go.
    pub(crate) fn use_up(&mut self, alloc: Global)
        ensures { self.new ≡ emptied self.old }
    {
        let rows = Vec::new(alloc);
        self.keys = Vec::new(alloc);
        self.rows = Snapshot::of(&rows);
        self.files = Vec::new(alloc);
        self.again = Again::nothing(alloc);
        self.spent = true;
    }

    // How many files it has.
    pub(crate) fn count(&self) -> usize
        ensures count { result ≡ length self.now.files }
    {
        self.files.len()
    }

    // Takes its files out, with others behind them. They have to come back, or it has to be used up.
    pub(crate) fn take_with(
        &mut self,
        alloc: Global,
        mut more: Vec<Made<M>>,
    ) -> Result<Vec<Made<M>>, AllocError>
        ensures files { IfOk result (λ files. map (λ m. (M.sealed_bytes m.sealed, m.footer)) files.items
            ≡ self.old.files ++ map (λ m. (M.sealed_bytes m.sealed, m.footer)) more.items) }
        ensures left { OnOk result (self.new ≡ record self.old { files = []; spent = true }) }
        ensures kept { OnErr result (self.new ≡ self.old) }
    {
        self.files.append(&mut more)?;
        self.spent = true;
        Ok(mem::replace(&mut self.files, Vec::new(alloc)))
    }

    // Puts its files back, which are the first ones of these.
    pub(crate) fn put_back(&mut self, mut files: Vec<Made<M>>, count: usize)
        requires kept { IsPreparedPartial (record self.old {
          files = take count (map (λ m. (M.sealed_bytes m.sealed, m.footer)) files.items);
          spent = false;
        }) }
        ensures { self.new ≡ record self.old {
          files = take count (map (λ m. (M.sealed_bytes m.sealed, m.footer)) files.items);
          spent = false;
        } }
    {
        files.truncate(count);
        self.files = files;
        self.spent = false;
    }
}
