ghost use Rattle.std.specs.Prelude.{◌≡◌, ◌++◌, All, IfNone, IfOk, IfSome, None, ℕ, map};
ghost use Rattle.dev_traits.specs.View.{Calm};
ghost use Rattle.pk_model.specs.declared.books.Book.{Book};
ghost use Rattle.pk_model.specs.declared.calls.Call.TheVariants as call;
ghost use Rattle.pk_model.specs.declared.calls.Op.TheVariants as line;
ghost use Rattle.pk_model.specs.declared.calls.Reply.TheVariants as reply;
ghost use Rattle.pk_model.specs.declared.calls.Want.TheVariants as want;
ghost use Rattle.pk_model.specs.Books.{rows_at};
ghost use Rattle.pk_model.specs.Lawful.{IsLawful};
ghost use Rattle.pk_model.specs.Tables.{Rows, key_named};
ghost use Rattle.partial_loads.specs.Lines.{IsShortKey};
ghost use Rattle.journal_form.specs.Versions.{files_of};
ghost use Rattle.snapshot_scan.specs.Snapshots.{fault_count, read_count};
ghost use Rattle.tablet_state.specs.Contents.{current_number};
ghost use Rattle.tablet_state.specs.Snapshots.{ArePartsOf, Lends};
ghost use Rattle.tablet_state.specs.State.{Has, Steps, faults_of};
ghost use Rattle.core_publish.specs.Opening.{IsOpeningOf};
ghost use Rattle.core_publish.specs.Replies.{IsOpening, TellsShut};
ghost use Rattle.core_partial.specs.Found.{AreKeysOf, AreStored, IsFoundOf, codes_of};

use crate::Found;
use core_publish::open_version;
use dev_traits::Store;
use index_level0::{KeyBytes, Place};
use partial_loads::{Folded, fold_lines};
use pk_model::{Load, Op, Reply, Want};
use pk_values::{Key, Schema};
use std::alloc::{AllocError, Global};
use tablet_state::State;

// Deletes of the keys that lines name.
fn deletes(alloc: Global, ops: &[Op]) -> Result<Vec<Op>, AllocError>
    ensures { IfOk result (λ lines. lines.items ≡ map (λ op. line.Delete (key_named op)) ops.now) }
{
    let mut lines = Vec::with_capacity(alloc, ops.len())?;
    for op in ops {
        lines.push(Op::Delete {
            key: op.key().copy(alloc)?,
        })?;
    }
    Ok(lines)
}

// The keys that a load names, each once and in their order, with their codes.
fn keys_of(alloc: Global, schema: &Schema, load: &Load) -> Result<Vec<Folded>, AllocError>
    requires lawful { IsLawful schema.now load.now }
    ensures keys { IfOk result (λ keys. AreKeysOf schema.now load.now (map (λ f. f.code) keys.items)) }
{
    let lines = deletes(alloc, load.ops.as_slice())?;
    fold_lines(alloc, schema, &[], None, lines)
}

// The code of each key that a load names, with the place that the state has for it.
fn located<S: Store>(
    alloc: Global,
    state: &State<S>,
    load: &Load,
) -> Result<Vec<(KeyBytes, Option<Place>)>, AllocError>
    requires lawful { IsLawful state.now.contents.schema load.now }
    ensures keys { IfOk result (λ located. AreKeysOf state.now.contents.schema load.now (codes_of located.items)) }
    ensures stored { IfOk result (λ located. AreStored state.now.contents.codes located.items) }
{
    let keys = keys_of(alloc, state.schema(), load)?;
    let mut located = Vec::with_capacity(alloc, keys.len())?;
    for key in &keys {
        located.push((key.code.copy(), state.place_of(&key.code)))?;
    }
    Ok(located)
}

/// Opens the current version for a partial load, and finds the place of each of the load's keys in it: what was located,
/// exactly where the reply is `Opened`. Nothing is read or written. The state's readers are asked for others alone, one
/// for each of the version's files, and the index is asked once for each key, so it is a step of the book at any place.
///
/// The answer is `Closed` exactly where the state is closed, `Memory` where memory is wanted, else `Opened`.
pub fn locate<S: Store>(
    alloc: Global,
    state: &mut State<S>,
    load: &Load,
) -> (Reply, Option<Found<S::Reader>>)
    requires lawful { IsLawful state.old.contents.schema load.now }
    ensures turn { (b : Book) (seq : ℕ) → Has S.view state.old b
        → Steps S.view state.new b seq (call.Open want.Latest) result.0 }

    // What is located stands for the rows that the book has at this version: each key of the load has exactly the place
    // of its live row, if any.
    ensures stands { (b : Book) → Has S.view state.old b → IfSome result.1 (λ found. (m : Rows)
        → rows_at b found.snapshot.version ≡ Some m → IsFoundOf found m) }

    // It is this load that was located, at the current version.
    ensures load { IfSome result.1 (λ found. found.load ≡ load.now) }
    ensures current { IfSome result.1 (λ found. found.snapshot.version ≡ current_number state.old.contents) }
    ensures schema { IfSome result.1 (λ found. found.snapshot.schema ≡ state.old.contents.schema) }

    // With a book or without one, the places are those that the index has, and the files those of the version.
    ensures located { IfSome result.1 (λ found. AreStored state.old.contents.codes found.located) }
    ensures parts { IfSome result.1 (λ found.
        ArePartsOf state.old.segments (files_of state.old.contents.current) found.snapshot.parts) }
    ensures unfailed { IfSome result.1 (λ found. fault_count found.snapshot.parts ≡ 0) }
    ensures unread { IfSome result.1 (λ found. read_count found.snapshot.parts ≡ 0) }

    // The reply is told by what the state holds.
    ensures answer { IsOpeningOf state.old.closed state.old.contents want.Latest result.0 }
    ensures opened { IfSome result.1 (λ found. result.0 ≡ reply.Opened found.snapshot.version) }
    ensures none { IfNone result.1 ((v : ℕ) → result.0 ≡ reply.Opened v → ⊥) }
    ensures only { IsOpening result.0 }
    ensures tells { TellsShut state.old.closed result.0 }

    // What the state holds stays, but that its readers count one read more for each of these files.
    ensures lends { Lends S.view state.old state.new }
    ensures closed { state.new.closed ≡ state.old.closed }
    ensures contents { state.new.contents ≡ state.old.contents }
    ensures calm { Calm (S.view state.old.store) (S.view state.new.store) }
    ensures faults { faults_of S.view state.new ≡ faults_of S.view state.old }
{
    let (reply, opened) = open_version(alloc, state, Want::Latest);
    let Some(snapshot) = opened else {
        return (reply, None);
    };
    match located(alloc, state, load) {
        Ok(entries) => (reply, Some(Found::of(load, snapshot, entries))),
        Err(_) => {
            state.give_back_snapshot(snapshot);
            (Reply::Memory, None)
        }
    }
}
