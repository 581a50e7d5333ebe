ghost use Rattle.std.specs.Prelude.{◌≡◌, ◌≤◌, ℕ, List, Option, Some, None, length, true, IfSome, IfNone};
ghost use Rattle.std.specs.List.{AllByRecursion};
ghost use Rattle.command_line.specs.Words.{texts};
ghost use Rattle.dev_traits.specs.Causes.{RoseBy};
ghost use Rattle.dev_traits.specs.Streams.{Files};
ghost use Rattle.dev_traits.specs.declared.faults.Damaged.{Damaged};
ghost use Rattle.dev_traits.specs.View.{EachImage};
ghost use Rattle.pk_model.specs.declared.books.Book.{Book};
ghost use Rattle.pk_model.specs.Durable.{durable};
ghost use Rattle.pk_values.specs.Schemas.{Layout};
ghost use Rattle.reports.specs.declared.jobs.FiledJob.{FiledJob};
ghost use Rattle.reports.specs.Plain.{HasFewBytes, PhasesRise};
ghost use Rattle.tablet_state.specs.Stands.{Stands};
ghost use Rattle.tablet_state.specs.State.{Has, faults_of};
ghost use Rattle.tablet_run.specs.Asks.{HasFiled, is_built};
ghost use Rattle.tablet_run.specs.Doing.{HadBy};
ghost use Rattle.tablet_run.specs.Puts.{ToldAs};
ghost use Rattle.tablet_run.specs.Runs.{Ends, InputCause, IsWell, SinkCause};
ghost use Rattle.tablet_run.specs.Statuses.{cause_status};
ghost use Rattle.tablet_run.specs.Steps.{PutAs};
ghost use Rattle.tablet_run.specs.Stores.{Opens, Runs, StandsForNone};

use crate::causes::{Cause, Ended, cause_of};
use crate::inputs::{Asked, find_jobs};
use crate::lanes::{Told, run_lane};
use crate::opening::open_tablet;
use crate::streams::put_whole;
use dev_traits::{Inputs, Sink, Store};
use reports::{Ending, FiledJob, ending_of};
use script_text::write_report;
use std::alloc::Global;
use tablet_state::State;

// Puts a report, and tells how its run ends.
fn put_report<O: Sink>(out: &mut O, text: &[u8], ending: Ending) -> Cause
    ensures put { PutAs (O.held out.old) (O.held out.new) text.now ending result }
    ensures inputs { (count : ℕ) → InputCause count count result }
    ensures sink { SinkCause (O.faults out.old) (O.faults out.new) result }
{
    match put_whole(out, text) {
        Ok(()) => cause_of(ending),
        Err(_) => Cause::Sink,
    }
}

// Tells what jobs told.
fn tell<O: Sink>(alloc: Global, out: &mut O, told: &Told) -> Cause
    ensures told { ToldAs (O.held out.old) (O.held out.new) told.now.order told.now.outcomes result }
    ensures inputs { (count : ℕ) → InputCause count count result }
    ensures sink { SinkCause (O.faults out.old) (O.faults out.new) result }
{
    let outcomes = told.outcomes.as_slice();
    match write_report(alloc, told.order.as_slice(), outcomes) {
        Ok(text) => put_report(out, text.as_slice(), ending_of(outcomes)),
        Err(_) => Cause::Memory,
    }
}

// A store behind its jobs, and what they told, unless memory was wanting before the first.
#[derive(Drop)]
struct Ran<S: Store> {
    store: S,
    told: Option<Told>,
}

// Does jobs over a tablet, and takes its store.
fn run_jobs<S: Store>(alloc: Global, mut state: State<S>, jobs: &[FiledJob]) -> Ran<S>
    requires few { length jobs.now ≤ 4096 }
    requires built { AllByRecursion (λ j. is_built j.job ≡ true) jobs.now }
    requires within { AllByRecursion HasFewBytes jobs.now }
    requires phases { PhasesRise jobs.now }
    requires open { state.closed ≡ None }
    ensures ran { IfSome result.told
        (λ told. Runs state.contents.schema (HadBy S.view state) (faults_of S.view state)
        (S.view result.store) jobs.now told.order told.outcomes) }
    ensures kept { IfNone result.told ((b : Book) → Has S.view state b
        → EachImage (S.view result.store) (Stands state.contents.schema (durable b))) }
    ensures honest { (S.view result.store).is_honest ≡ (S.view state.store).is_honest }
{
    let mut maker = match state.lane_maker() {
        Ok(maker) => maker,
        Err(_) => {
            return Ran {
                store: state.into_store(),
                told: None,
            };
        }
    };
    let told = run_lane(alloc, &mut state, &mut maker, jobs);
    state.give_back(maker);
    let left = state.into_store();
    match told {
        Ok(told) => Ran {
            store: left,
            told: Some(told),
        },
        Err(_) => Ran {
            store: left,
            told: None,
        },
    }
}

// Why a run ended, and the store that it left.
#[derive(Drop)]
struct Left<S: Store> {
    cause: Cause,
    store: S,
}

// Runs the jobs that were asked over a store, and tells how the run ends.
fn serve<O: Sink, S: Store>(alloc: Global, asked: &Asked, out: &mut O, store: S) -> Left<S>
    requires few { length asked.now.jobs.items ≤ 4096 }
    requires built { AllByRecursion (λ j. is_built j.job ≡ true) asked.now.jobs.items }
    requires within { AllByRecursion HasFewBytes asked.now.jobs.items }
    requires phases { PhasesRise asked.now.jobs.items }
    ensures ends { (files : Option Files) (words : List (List ℕ))
        → HasFiled files words asked.now.schema asked.now.jobs.items
        → Ends (record {
          files = files;
          words = words;
          before = O.held out.old;
          now = O.held out.new;
          store = S.view store;
          left = S.view result.store;
        }) result.cause }
    ensures inputs { (count : ℕ) → InputCause count count result.cause }
    ensures sink { SinkCause (O.faults out.old) (O.faults out.new) result.cause }
    ensures honest { (S.view result.store).is_honest ≡ (S.view store).is_honest }
{
    let state = match open_tablet(alloc, store, &asked.schema) {
        Ok(state) => state,
        Err((store, cause)) => return Left { cause, store },
    };
    let Ran { store, told } = run_jobs(alloc, state, asked.jobs.as_slice());
    match told {
        Some(told) => Left {
            cause: tell(alloc, out, &told),
            store,
        },
        None => Left {
            cause: Cause::Memory,
            store,
        },
    }
}

// Runs the script over a store, and tells how the run ends.
fn attempt<'a, I: Inputs, O: Sink, S: Store>(
    alloc: Global,
    words: &'a [&'a str],
    inputs: &mut I,
    out: &mut O,
    store: S,
) -> Left<S>
    ensures same { I.files inputs.new ≡ I.files inputs.old }
    ensures ends { Ends (record {
      files = I.files inputs.old;
      words = texts words.entry.now;
      before = O.held out.old;
      now = O.held out.new;
      store = S.view store;
      left = S.view result.store;
    }) result.cause }
    ensures inputs { InputCause (I.faults inputs.old) (I.faults inputs.new) result.cause }
    ensures sink { SinkCause (O.faults out.old) (O.faults out.new) result.cause }
    ensures honest { (S.view result.store).is_honest ≡ (S.view store).is_honest }
{
    match find_jobs(alloc, words, inputs) {
        Ok(asked) => serve(alloc, &asked, out, store),
        Err(cause) => Left { cause, store },
    }
}

/// Runs the jobs of a script over the tablet of a store: the words are `run TABLE SCRIPT`, which name the inputs of
/// the table and the script, and each load job names the input of its file. An empty store is made a tablet.
///
/// What is refused first decides: the words; the table's input, then the script's; the table's text, then the
/// script's; the first job that is not built; the files of loads, in the order of the jobs. Then the store is as it
/// was handed in. Next come the store's opening, and whether its table is the one that the words name; a run that is
/// refused there leaves an honest store standing for the book that it stood for. In all these cases nothing was put
/// into `out`. Where the jobs were done, their report was put; at `Sink` a prefix of it stands there, and at `Memory`
/// nothing, or the whole of it, in which a job wanted memory.
///
/// The inputs count one fault more exactly at `InputFault`, and the sink one more exactly at `Sink`. `Store` comes
/// only where the store counted a fault, and `Damaged` never of an honest store that is empty or stands for a book.
///
/// Limits: 1,048,576 bytes each of table and script, 67,108,864 bytes of a load file and 268,435,456 of all.
pub fn run<'a, I: Inputs, O: Sink, S: Store>(
    alloc: Global,
    words: &'a [&'a str],
    inputs: &mut I,
    out: &mut O,
    store: S,
) -> Ended<S>
    ensures same { I.files inputs.new ≡ I.files inputs.old }
    ensures status { result.status ≡ cause_status result.cause }
    ensures ends { Ends (record {
      files = I.files inputs.old;
      words = texts words.entry.now;
      before = O.held out.old;
      now = O.held out.new;
      store = S.view store;
      left = S.view result.store;
    }) result.cause }
    ensures inputs { InputCause (I.faults inputs.old) (I.faults inputs.new) result.cause }
    ensures sink { SinkCause (O.faults out.old) (O.faults out.new) result.cause }
    ensures honest { (S.view result.store).is_honest ≡ (S.view store).is_honest }
    ensures counted { result.cause ≡ Cause.Store → RoseBy 1 (S.view store).faults (S.view result.store).faults }
    ensures intact { (d : Damaged) → result.cause ≡ Cause.Damaged d → StandsForNone (S.view store) }

    // Where all is there and well, and no count rises, each job was done or refused, or memory was wanting.
    ensures complete { (files : Files) (s : Layout) (jobs : List FiledJob) → I.files inputs.old ≡ Some files
        → HasFiled (Some files) (texts words.entry.now) s jobs
        → (b : Book) → Opens (S.view store) s b
        → (RoseBy 1 (I.faults inputs.old) (I.faults inputs.new) → ⊥)
        → (RoseBy 1 (O.faults out.old) (O.faults out.new) → ⊥)
        → (RoseBy 1 (S.view store).faults (S.view result.store).faults → ⊥) → IsWell result.cause }
{
    let Left { cause, store } = attempt(alloc, words, inputs, out, store);
    Ended {
        status: cause.status(),
        cause,
        store,
    }
}
