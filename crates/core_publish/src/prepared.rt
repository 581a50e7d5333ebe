ghost use Rattle.std.specs.Prelude.{◌≡◌, ◌≤◌, ◌<◌, ◌^◌, All, IfOk, IsTrue, is_some, false, length, map};
ghost use Rattle.dev_traits.specs.Causes.{HasMakeCause};
ghost use Rattle.pk_values.specs.Schemas.{fits_row};
ghost use Rattle.segment_form.specs.Segments.{KeysRise};
ghost use Rattle.pk_model.specs.Lawful.{IsLawful};
ghost use Rattle.rowsets.specs.Loads.{IsWhole};
ghost use Rattle.std.specs.FinMap.{empty, values};
ghost use Rattle.pk_model.specs.Tables.{after};
ghost use Rattle.std.specs.List.{AllByRecursion};
ghost use Rattle.core_publish.specs.Prepared.{AreMovesOf, EachTells, IsPrepared};
ghost use Rattle.core_publish.specs.Publication.{entry_from};
ghost use Rattle.core_publish.specs.Publishing.{IsFrom, emptied, entry_back};

use crate::entries::{number_back, number_from};
use crate::files::write_files;
use crate::lines::{in_order, ranked};
use crate::results::{Results, results_of};
use dev_traits::{FileMaker, MakeFault};
use index_level0::{KeyBytes, Place};
use pk_model::Load;
use pk_values::Schema;
use segment_write::Made;
use std::alloc::{AllocError, Global};
use std::marker::Model;
use std::mem;
use std::snapshot::Snapshot;
use tablet_state::Change;

/// A load of all columns that is ready to be published: its rows stand in sealed files, and of each key that it
/// touches the code is at hand, and where its new row stands. Contracts also see the load itself, which takes no
/// memory here.
#[derive(Drop)]
pub struct Prepared<M: FileMaker> {
    schema: Snapshot<Schema>,
    load: Snapshot<Load>,
    files: Vec<Made<M>>,
    entries: Vec<(KeyBytes, Option<Place>)>,
    spent: bool,
}

impl<M: FileMaker> Model for Prepared<M> {
    ghost use Rattle.std.specs.Prelude.{◌≡◌, map, false};
    ghost use Rattle.core_publish.specs.Prepared.{IsPrepared, PreparedView};

    ghost Value = { PreparedView };

    ghost view = { λ p. record {
      schema = p.schema.value;
      load = p.load.value;
      files = map (λ f. (M.sealed_bytes f.sealed, f.footer)) p.files.items;
      entries = p.entries.items;
      spent = p.spent;
    } };

    ghost invariant = { λ p. p.spent ≡ false → IsPrepared p.schema.value p.load.value
        (map (λ f. (M.sealed_bytes f.sealed, f.footer)) p.files.items) p.entries.items };
}

impl<M: FileMaker> Prepared<M> {
    /// Whether it was published, or its publishing met a fault that closed the tablet. It can't be published again.
    pub fn is_spent(&self) -> bool
        ensures { result ≡ self.now.spent }
    {
        self.spent
    }

    // The codes of the keys that it touches, each with the place of its row, or none.
    pub(crate) fn entries(&self) -> &[(KeyBytes, Option<Place>)]
        ensures entries { result.now ≡ self.now.entries }
        ensures prepared { self.now.spent ≡ false
            → IsPrepared self.now.schema self.now.load self.now.files self.now.entries }
    {
        &self.entries
    }

    // Lets its files and entries go.
    pub(crate) fn use_up(&mut self, alloc: Global)
        ensures { self.new ≡ emptied self.old }
    {
        self.files = Vec::new(alloc);
        self.entries = Vec::new(alloc);
        self.spent = true;
    }

    // Takes its files and entries out, as a change whose files are numbered from `first` on.
    pub(crate) fn take_change(&mut self, alloc: Global, first: u64, dead: Vec<Place>) -> Change<M>
        requires unspent { self.old.spent ≡ false }
        requires fits { first < 2 ^ 62 }
        ensures files { map (λ m. (M.sealed_bytes m.sealed, m.footer)) result.files.items ≡ self.old.files }
        ensures dead { result.dead ≡ dead }
        ensures entries { result.index.items ≡ map (entry_from first) self.old.entries }
        ensures left { self.new ≡ emptied self.old }
    {
        let files = mem::replace(&mut self.files, Vec::new(alloc));
        let mut index = mem::replace(&mut self.entries, Vec::new(alloc));
        number_from(&mut index, first);
        self.spent = true;
        Change { files, dead, index }
    }

    // Puts the files and entries of such a change back.
    pub(crate) fn put_back(&mut self, first: u64, change: Change<M>)
        requires from { AllByRecursion (λ e. IsFrom first e.1) change.index.items }
        requires prepared { IsPrepared self.old.schema self.old.load
            (map (λ m. (M.sealed_bytes m.sealed, m.footer)) change.files.items)
            (map (entry_back first) change.index.items) }
        ensures { self.new ≡ record self.old {
          files = map (λ m. (M.sealed_bytes m.sealed, m.footer)) change.files.items;
          entries = map (entry_back first) change.index.items;
          spent = false;
        } }
    {
        let Change {
            files,
            dead: _,
            mut index,
        } = change;
        number_back(&mut index, first);
        self.files = files;
        self.entries = index;
        self.spent = false;
    }
}

// What a load of all columns leaves.
fn settled(alloc: Global, schema: &Schema, load: Load) -> Result<Results, AllocError>
    requires lawful { IsLawful schema.now load }
    requires whole { IsWhole schema.now load }
    ensures rows { IfOk result (λ r. r.rows.items ≡ values (after schema.now load empty)) }
    ensures entries { IfOk result (λ r. AreMovesOf schema.now load r.rows.items r.entries.items) }
    ensures fit { IfOk result (λ r. All (λ row. IsTrue (fits_row schema.now row)) r.rows.items) }
    ensures rise { IfOk result (λ r. KeysRise schema.now r.rows.items) }
    ensures few { IfOk result (λ r. length r.rows.items ≤ 262144) }
{
    // No schema has a fault.
    let _columns = schema.columns();
    let Load { given: _, ops } = load;
    let ops = ops.into_vec();
    let ranks = ranked(alloc, schema, &ops)?;
    let order = in_order(&ops, ranks)?;
    let results = results_of(alloc, schema, ops, &order)?;
    Ok(results)
}

/// Prepares a load of all columns, for any table of this schema. It sorts the places of the lines once, by the first
/// bytes of the codes of their keys and, where these are the same, by the keys, keeps one result a key, as its last
/// line leaves it, and writes the rows into files of 65,536 rows. No cell is copied. The lines' own memory, whose cells
/// went into rows, is let go when all rows are made.
///
/// # Errors
/// `StoreFault` exactly where the maker failed, which it counted once. `Memory` where this call or the maker wants
/// memory; nothing is counted then.
pub fn prepare<M: FileMaker>(
    alloc: Global,
    maker: &mut M,
    schema: &Schema,
    load: Load,
) -> Result<Prepared<M>, MakeFault>
    requires lawful { IsLawful schema.now load }
    requires whole { IsWhole schema.now load }
    ensures schema { IfOk result (λ p. p.schema ≡ schema.now) }
    ensures load { IfOk result (λ p. p.load ≡ load) }
    ensures unspent { IfOk result (λ p. p.spent ≡ false) }
    ensures prepared { IfOk result (λ p. IsPrepared schema.now load p.files p.entries) }

    // Where the maker tells its bytes, so does each file.
    ensures told { IfOk result (λ p. EachTells (is_some (M.view maker.old).made) p.files) }

    ensures tells { is_some (M.view maker.new).made ≡ is_some (M.view maker.old).made }
    ensures cause { HasMakeCause (M.view maker.old).faults (M.view maker.new).faults result }
{
    let whole = Snapshot::of(&load);
    let Results { rows, entries } = settled(alloc, schema, load)?;
    let files = write_files(alloc, maker, schema, &rows)?;
    Ok(Prepared {
        schema: Snapshot::of(schema),
        load: whole,
        files,
        entries,
        spent: false,
    })
}
