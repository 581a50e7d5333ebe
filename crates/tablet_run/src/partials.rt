ghost use Rattle.std.specs.Prelude.{◌≡◌, ◌≤◌, ◌+◌, ℕ, List, length, Ok, None, IsSomeAnd};
ghost use Rattle.pk_model.specs.declared.books.Book.{Book};
ghost use Rattle.pk_model.specs.Books.{rows_at};
ghost use Rattle.pk_model.specs.Lawful.{IsLawful};
ghost use Rattle.reports.specs.Jobs.{load_in};
ghost use Rattle.snapshot_scan.specs.Snapshots.{fault_count};
ghost use Rattle.tablet_state.specs.State.{Has};
ghost use Rattle.core_partial.specs.Found.{IsFoundOf};
ghost use Rattle.tablet_run.specs.Doing.{Does, faults_beside};
ghost use Rattle.tablet_run.specs.Partials.{EndsFound};

use crate::done::{Done, Parts};
use core_partial::{Found, locate, prepare_partial, publish_partial};
use dev_traits::Store;
use load_csv::read_load;
use pk_model::Load;
use reports::FiledJob;
use script_text::{JobAct, Outcome};
use std::alloc::Global;
use tablet_state::State;

// Prepares a partial load whose keys were found, outside a turn, and publishes it in the turn at a place.
fn publish_found<S: Store>(
    alloc: Global,
    state: &mut State<S>,
    maker: &mut S::Maker,
    found: &mut Found<S::Reader>,
    load: Load,
    place: u64,
) -> Done
    requires load { found.old.load ≡ load }
    requires schema { found.old.snapshot.schema ≡ state.old.contents.schema }
    requires open { state.old.closed ≡ None }
    requires stands { (b : Book) → Has S.view state.old b
        → IsSomeAnd (rows_at b found.old.snapshot.version) (λ m. IsFoundOf found.old m) }
    ensures { EndsFound S.view state.old.contents.schema load place state.old state.new
        (faults_beside S.view state.old ((S.Maker.view maker.old).faults + fault_count found.old.snapshot.parts))
        (faults_beside S.view state.new ((S.Maker.view maker.new).faults + fault_count found.new.snapshot.parts))
        result }
{
    match prepare_partial(alloc, maker, found, load) {
        Ok(mut prepared) => Done {
            parts: Parts::FirstLast,
            outcome: Outcome::Turn(publish_partial(alloc, state, &mut prepared, place)),
        },
        Err(fault) => Done {
            parts: Parts::First,
            outcome: Outcome::Outside(fault),
        },
    }
}

// Looks up the keys of a partial load in the turn at a place, and publishes it in the next turn.
fn publish_partly<S: Store>(
    alloc: Global,
    state: &mut State<S>,
    maker: &mut S::Maker,
    load: Load,
    place: u64,
) -> Done
    requires lawful { IsLawful state.old.contents.schema load }
    requires few { place ≤ 12288 }
    ensures { (j : FiledJob) (name : List ℕ) → j.job.act ≡ JobAct.Partial name
        → load_in state.old.contents.schema j ≡ Ok load
        → Does S.view j place state.old state.new (faults_beside S.view state.old (S.Maker.view maker.old).faults)
        (faults_beside S.view state.new (S.Maker.view maker.new).faults) result }
{
    let (reply, found) = locate(alloc, state, &load);
    match found {
        Some(mut found) => {
            let done = publish_found(alloc, state, maker, &mut found, load, place + 1);
            state.give_back_snapshot(found.into_snapshot());
            done
        }
        None => Done {
            parts: Parts::First,
            outcome: Outcome::Turn(reply),
        },
    }
}

/// Loads the bytes of a file that may leave columns out, in two turns from a place on.
pub fn partial_file<S: Store>(
    alloc: Global,
    state: &mut State<S>,
    maker: &mut S::Maker,
    file: &[u8],
    place: u64,
) -> Done
    requires within { length file.now ≤ 67108864 }
    requires few { place ≤ 12288 }
    ensures { (j : FiledJob) (name : List ℕ) → j.job.act ≡ JobAct.Partial name → j.file ≡ file.now
        → Does S.view j place state.old state.new (faults_beside S.view state.old (S.Maker.view maker.old).faults)
        (faults_beside S.view state.new (S.Maker.view maker.new).faults) result }
{
    match read_load(alloc, state.schema(), file, true) {
        Ok(load) => publish_partly(alloc, state, maker, load, place),
        Err(fault) => Done {
            parts: Parts::None,
            outcome: Outcome::Load(fault),
        },
    }
}
