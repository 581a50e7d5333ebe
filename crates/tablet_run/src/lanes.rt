ghost use Rattle.std.specs.Prelude.{◌≡◌, ◌≤◌, ℕ, List, length, Ok, IfOk, OnErr, None, true};
ghost use Rattle.std.specs.FinMap.{len, values};
ghost use Rattle.std.specs.List.{AllByRecursion};
ghost use Rattle.dev_traits.specs.Causes.{RoseBy};
ghost use Rattle.pk_model.specs.Lawful.{IsLawful};
ghost use Rattle.pk_model.specs.Tables.{Rows};
ghost use Rattle.load_csv.specs.Loads.{load_of, others};
ghost use Rattle.reports.specs.Bearing.{told_by};
ghost use Rattle.reports.specs.Courses.{AreRowsOf};
ghost use Rattle.reports.specs.Jobs.{load_in};
ghost use Rattle.reports.specs.Plain.{HasFewBytes};
ghost use Rattle.snapshot_scan.specs.Scans.{AreToCome};
ghost use Rattle.snapshot_scan.specs.Snapshots.{IsSnapshotOf};
ghost use Rattle.tablet_state.specs.State.{faults_of};
ghost use Rattle.tablet_run.specs.Asks.{is_built};
ghost use Rattle.tablet_run.specs.Doing.{Does, HasDone, faults_beside};
ghost use Rattle.tablet_run.specs.Scanning.{IsIdle, RowsTold};

use crate::done::{Done, Parts, note};
use crate::partials::partial_file;
use crate::scanning::text_of_rows;
use core_compact::expire;
use core_publish::{open_version, prepare, publish, stat};
use dev_traits::{OutsideFault, Store};
use load_csv::read_load;
use pk_model::{Load, Want};
use pk_values::Items;
use reports::FiledJob;
use script_text::{Item, JobAct, Outcome};
use snapshot_scan::{Scan, Snapshot};
use std::alloc::{AllocError, Global};
use tablet_state::State;

// Prepares a load, and publishes it in the turn at a place.
fn publish_load<S: Store>(
    alloc: Global,
    state: &mut State<S>,
    maker: &mut S::Maker,
    load: Load,
    place: u64,
) -> Done
    requires lawful { IsLawful state.old.contents.schema load }
    requires whole { load.given ≡ others state.old.contents.schema }
    ensures { (j : FiledJob) (name : List ℕ) → j.job.act ≡ JobAct.Load name
        → load_in state.old.contents.schema j ≡ Ok load
        → Does S.view j place state.old state.new (faults_beside S.view state.old (S.Maker.view maker.old).faults)
        (faults_beside S.view state.new (S.Maker.view maker.new).faults) result }
{
    let _valid = state.schema().columns();
    match prepare(alloc, maker, state.schema(), load) {
        Ok(mut prepared) => Done {
            parts: Parts::Whole,
            outcome: Outcome::Turn(publish(alloc, state, &mut prepared, place)),
        },
        Err(fault) => Done {
            parts: Parts::None,
            outcome: Outcome::Outside(OutsideFault::from(fault)),
        },
    }
}

// Loads the bytes of a file.
fn load_file<S: Store>(
    alloc: Global,
    state: &mut State<S>,
    maker: &mut S::Maker,
    file: &[u8],
    place: u64,
) -> Done
    requires within { length file.now ≤ 67108864 }
    ensures { (j : FiledJob) (name : List ℕ) → j.job.act ≡ JobAct.Load name → j.file ≡ file.now
        → Does S.view j place state.old state.new (faults_beside S.view state.old (S.Maker.view maker.old).faults)
        (faults_beside S.view state.new (S.Maker.view maker.new).faults) result }
{
    match read_load(alloc, state.schema(), file, false) {
        Ok(load) => publish_load(alloc, state, maker, load, place),
        Err(fault) => Done {
            parts: Parts::None,
            outcome: Outcome::Load(fault),
        },
    }
}

// Reads the rows of a scan, so many of a version, and gives its readers back.
fn read_out<S: Store>(
    alloc: Global,
    state: &mut State<S>,
    mut scan: Scan<S::Reader>,
    version: u64,
    count: u64,
) -> Outcome
    requires unfailed { scan.fault ≡ None }
    ensures rows { (m : Rows) → AreToCome scan (values m) → count ≡ len m → RowsTold version m result }
    ensures of { AreRowsOf version result }
    ensures rose { RoseBy (told_by result) (faults_of S.view state.old) (faults_of S.view state.new) }
    ensures idle { IsIdle S.view state.old state.new }
{
    let read = text_of_rows(alloc, &mut scan, count);
    state.give_back_snapshot(scan.into_snapshot());
    match read {
        Ok(text) => Outcome::Rows {
            version,
            count,
            text,
        },
        Err(fault) => Outcome::Outside(fault),
    }
}

// The rows of a snapshot.
fn rows_told<S: Store>(
    alloc: Global,
    state: &mut State<S>,
    snapshot: Snapshot<S::Reader>,
) -> Outcome
    ensures rows { (m : Rows) → IsSnapshotOf snapshot m → RowsTold snapshot.version m result }
    ensures of { AreRowsOf snapshot.version result }
    ensures rose { RoseBy (told_by result) (faults_of S.view state.old) (faults_of S.view state.new) }
    ensures idle { IsIdle S.view state.old state.new }
{
    let version = snapshot.version();
    let count = snapshot.count();
    match snapshot.scan(alloc) {
        Ok(scan) => read_out(alloc, state, scan, version, count),
        Err((snapshot, fault)) => {
            state.give_back_snapshot(snapshot);
            Outcome::Outside(OutsideFault::from(fault))
        }
    }
}

// Scans a version.
fn scan_version<S: Store>(alloc: Global, state: &mut State<S>, want: Want, place: u64) -> Done
    ensures { (j : FiledJob) (n : ℕ) → j.job.act ≡ JobAct.Scan want
        → Does S.view j place state.old state.new (faults_beside S.view state.old n)
        (faults_beside S.view state.new n) result }
{
    let (reply, opened) = open_version(alloc, state, want);
    match opened {
        Some(snapshot) => Done {
            parts: Parts::Whole,
            outcome: rows_told(alloc, state, snapshot),
        },
        None => Done {
            parts: Parts::Whole,
            outcome: Outcome::Turn(reply),
        },
    }
}

// Drops the versions below one.
fn expire_versions<S: Store>(alloc: Global, state: &mut State<S>, v: u64, place: u64) -> Done
    ensures { (j : FiledJob) (n : ℕ) → j.job.act ≡ JobAct.Expire v
        → Does S.view j place state.old state.new (faults_beside S.view state.old n)
        (faults_beside S.view state.new n) result }
{
    Done {
        parts: Parts::Whole,
        outcome: Outcome::Turn(expire(alloc, state, v, place)),
    }
}

// Counts the rows of the current version.
fn count_rows<S: Store>(state: &State<S>) -> Done
    ensures { (j : FiledJob) (n place : ℕ) → j.job.act ≡ JobAct.Stat
        → Does S.view j place state.now state.now (faults_beside S.view state.now n)
        (faults_beside S.view state.now n) result }
{
    Done {
        parts: Parts::Whole,
        outcome: Outcome::Turn(stat(state)),
    }
}

// Does a job at the next place.
fn do_job<S: Store>(
    alloc: Global,
    state: &mut State<S>,
    maker: &mut S::Maker,
    job: &FiledJob,
    place: u64,
) -> Done
    requires built { is_built job.now.job ≡ true }
    requires within { HasFewBytes job.now }
    requires few { place ≤ 12288 }
    ensures { Does S.view job.now place state.old state.new
        (faults_beside S.view state.old (S.Maker.view maker.old).faults)
        (faults_beside S.view state.new (S.Maker.view maker.new).faults) result }
{
    match &job.job.act {
        JobAct::Load(_) => load_file(alloc, state, maker, job.file.as_slice(), place),
        JobAct::Partial(_) => partial_file(alloc, state, maker, job.file.as_slice(), place),
        JobAct::Scan(want) => scan_version(alloc, state, *want, place),
        JobAct::Expire(v) => expire_versions(alloc, state, *v, place),
        JobAct::Stat => count_rows(state),
        JobAct::Compact => unreachable!(),
    }
}

/// The most turns that a job has.
const MOST_TURNS: usize = 3;

/// What jobs told: the turns in their order, and what became of each job.
#[derive(Drop)]
pub struct Told {
    pub order: Items<Item>,
    pub outcomes: Items<Outcome>,
}

/// Does jobs in one lane, one after the other, with a maker of its own. A file that it makes and the tablet adopts
/// stays.
///
/// # Errors
/// `AllocError` where memory is wanting for what they tell: then none was begun.
pub fn run_lane<S: Store>(
    alloc: Global,
    state: &mut State<S>,
    maker: &mut S::Maker,
    jobs: &[FiledJob],
) -> Result<Told, AllocError>
    requires few { length jobs.now ≤ 4096 }
    requires built { AllByRecursion (λ j. is_built j.job ≡ true) jobs.now }
    requires within { AllByRecursion HasFewBytes jobs.now }
    requires open { state.old.closed ≡ None }
    ensures done { IfOk result (λ told. HasDone S.view state.old.contents.schema state.old state.new
        (faults_beside S.view state.old (S.Maker.view maker.old).faults)
        (faults_beside S.view state.new (S.Maker.view maker.new).faults)
        jobs.now told.order told.outcomes) }
    ensures state { OnErr result (state.new ≡ state.old) }
    ensures maker { OnErr result (maker.new ≡ maker.old) }
{
    let mut order = Vec::with_capacity(alloc, jobs.len() * MOST_TURNS)?;
    let mut outcomes = Vec::with_capacity(alloc, jobs.len())?;
    for i in 0..jobs.len() {
        let place = order.len() as u64 + 1;
        let done = do_job(alloc, state, maker, &jobs[i], place);
        note(&mut order, &mut outcomes, i as u32 + 1, done);
    }
    Ok(Told {
        order: Items::from_vec(order),
        outcomes: Items::from_vec(outcomes),
    })
}
