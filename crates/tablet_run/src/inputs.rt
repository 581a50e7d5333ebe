ghost use Rattle.std.specs.Prelude.{◌≡◌, ◌<◌, ◌≤◌, ◌^◌, ◌+◌, ◌++◌, ◌∷◌, [], ℕ, Option, Ok, None, length, option_map, IfOk, IfErr, OnOk, true};
ghost use Rattle.std.specs.List.{AllByRecursion};
ghost use Rattle.command_line.specs.Words.{texts};
ghost use Rattle.dev_traits.specs.Streams.{Files};
ghost use Rattle.reports.specs.Filed.{AreFiled, AreHeld, bytes_in, file_name, most_files};
ghost use Rattle.reports.specs.Plain.{HasFewBytes, PhasesRise};
ghost use Rattle.schema_json.specs.Tables.{table_of};
ghost use Rattle.script_text.specs.Scripts.{script_of};
ghost use Rattle.script_text.specs.Answers.{AreJobs, IsScript};
ghost use Rattle.tablet_run.specs.Asks.{HasFiled, NamesTexts, first_unbuilt, is_built, is_built_act, limit_after, most_after};
ghost use Rattle.tablet_run.specs.Runs.{InputCause, Stops};
ghost use Rattle.tablet_run.specs.Steps.{FileStops, JobsStop, PlanStops, ScriptStops, StepCause, StopsAt, TableStops};
ghost use Rattle.tablet_run.specs.Streams.{Holds, StopCause, StopsInput};

use crate::causes::Cause;
use crate::streams::{InputStop, read_input};
use command_line::{WordsFault, read_words};
use dev_traits::Inputs;
use pk_values::{Items, Octets, Schema};
use reports::FiledJob;
use schema_json::{TableFault, read_table};
use script_text::{Job, JobAct, Script, ScriptCause, read_script};
use std::alloc::{AllocError, Global};

// The most bytes of a table, and of a script.
const MOST_TEXT: usize = 1_048_576;

// The most bytes of a load file.
const MOST_FILE: usize = 67_108_864;

// The most bytes of all load files of a script.
const MOST_FILES: usize = 268_435_456;

// Why the input of a name was not read, where it passes this limit past the bytes that it may hold.
fn stopped(name: Octets, limit: u64, stop: InputStop) -> Cause
    requires { limit < 2 ^ 32 }
    ensures stopped { (files : Option Files) (most : ℕ) → StopsInput files name most stop → StopsAt files name most limit result }
    ensures cause { (before now : ℕ) → StopCause before now stop → InputCause before now result }
{
    match stop {
        InputStop::Missing => Cause::Missing(name),
        InputStop::Fault => Cause::InputFault(name),
        InputStop::TooLarge { .. } => Cause::TooLarge {
            name,
            bytes: limit + 1,
        },
        InputStop::Memory => Cause::Memory,
    }
}

// Reads an input that may hold so many bytes, and passes this limit past them. The name is copied before the input is asked for, so that a fault can tell it.
fn input<I: Inputs>(
    alloc: Global,
    inputs: &mut I,
    name: &str,
    most: usize,
    limit: u64,
) -> Result<Vec<u8>, Cause>
    requires few { most < 2 ^ 32 }
    requires small { limit < 2 ^ 32 }
    ensures same { I.files inputs.new ≡ I.files inputs.old }
    ensures read { IfOk result (λ bytes. Holds (I.files inputs.old) name.now most bytes.items) }
    ensures stopped { IfErr result (StopsAt (I.files inputs.old) name.now most limit) }
    ensures cause { StepCause (I.faults inputs.old) (I.faults inputs.new) result }
{
    let Ok(kept) = Octets::from_slice(alloc, name.as_bytes()) else {
        return Err(Cause::Memory);
    };
    match read_input(alloc, inputs, name, most) {
        Ok(bytes) => Ok(bytes),
        Err(stop) => Err(stopped(kept, limit, stop)),
    }
}

// The texts of the table and the script that words name.
#[derive(Drop)]
struct Texts {
    table: Vec<u8>,
    script: Vec<u8>,
}

// Reads the table and the script that the words name.
fn find_texts<'a, I: Inputs>(
    alloc: Global,
    words: &'a [&'a str],
    inputs: &mut I,
) -> Result<Texts, Cause>
    ensures same { I.files inputs.new ≡ I.files inputs.old }
    ensures read { IfOk result (λ read. NamesTexts (I.files inputs.old) (texts words.entry.now) read.table.items read.script.items) }
    ensures stopped { IfErr result (Stops (I.files inputs.old) (texts words.entry.now)) }
    ensures cause { StepCause (I.faults inputs.old) (I.faults inputs.new) result }
{
    let named = match read_words(alloc, words) {
        Ok(named) => named,
        Err(WordsFault::Words) => return Err(Cause::Words),
        Err(WordsFault::Memory) => return Err(Cause::Memory),
    };
    let table = match input(alloc, inputs, named.table, MOST_TEXT, 1_048_576) {
        Ok(table) => table,
        Err(cause) => return Err(cause),
    };
    match input(alloc, inputs, named.script, MOST_TEXT, 1_048_576) {
        Ok(script) => Ok(Texts { table, script }),
        Err(cause) => Err(cause),
    }
}

// The table that a text describes.
fn table_from(alloc: Global, text: &[u8]) -> Result<Schema, Cause>
    ensures table { IfOk result (λ schema. table_of text.now ≡ Ok schema) }
    ensures stopped { IfErr result (TableStops text.now) }
{
    match read_table(alloc, text) {
        Ok(schema) => Ok(schema),
        Err(TableFault::Memory) => Err(Cause::Memory),
        Err(fault) => Err(Cause::Table(fault)),
    }
}

// The script that a text is.
fn script_from(alloc: Global, text: &[u8]) -> Result<Script, Cause>
    requires { length text.now < 2 ^ 31 }
    ensures script { IfOk result (λ script. script_of text.now ≡ Ok script) }
    ensures lawful { IfOk result (λ script. IsScript script) }
    ensures stopped { IfErr result (ScriptStops text.now) }
{
    match read_script(alloc, text) {
        Ok(script) => Ok(script),
        Err(fault) => match fault.cause {
            ScriptCause::Memory => Err(Cause::Memory),
            _ => Err(Cause::Script(fault)),
        },
    }
}

fn is_built_act(act: &JobAct) -> bool
    ensures { result ≡ is_built_act act.now }
{
    match act {
        JobAct::Load(_) | JobAct::Partial(_) | JobAct::Scan(_) | JobAct::Expire(_) | JobAct::Stat =>
            true,
        JobAct::Compact => false,
    }
}

fn is_built(job: &Job) -> bool
    ensures { result ≡ is_built job.now }
{
    job.lane == 1 && is_built_act(&job.act)
}

// The number of the first job that is not built.
fn first_unbuilt(jobs: &[Job]) -> Option<u64>
    ensures { result ≡ first_unbuilt 1 jobs.now }
{
    for i in 0..jobs.len() {
        if !is_built(&jobs[i]) {
            return Some(i as u64 + 1);
        }
    }
    None
}

// A table and the jobs of a script.
#[derive(Drop)]
struct TableAndJobs {
    schema: Schema,
    jobs: Items<Job>,
}

// The table and the jobs that texts say.
fn plan_from(alloc: Global, texts: &Texts) -> Result<TableAndJobs, Cause>
    requires { length texts.now.script.items < 2 ^ 31 }
    ensures table { IfOk result (λ plan. table_of texts.now.table.items ≡ Ok plan.schema) }
    ensures script { IfOk result (λ plan. script_of texts.now.script.items ≡ Ok (record { jobs = plan.jobs })) }
    ensures lawful { IfOk result (λ plan. AreJobs plan.jobs) }
    ensures built { IfOk result (λ plan. first_unbuilt 1 plan.jobs ≡ None) }
    ensures stopped { IfErr result (PlanStops texts.now.table.items texts.now.script.items) }
{
    let schema = match table_from(alloc, &texts.table) {
        Ok(schema) => schema,
        Err(cause) => return Err(cause),
    };
    let script = match script_from(alloc, &texts.script) {
        Ok(script) => script,
        Err(cause) => return Err(cause),
    };
    match first_unbuilt(script.jobs.as_slice()) {
        Some(number) => Err(Cause::Unbuilt(number)),
        None => Ok(TableAndJobs {
            schema,
            jobs: script.jobs,
        }),
    }
}

// Reads the file of a name, after files of so many bytes.
fn read_named<I: Inputs>(
    alloc: Global,
    inputs: &mut I,
    name: &str,
    read: usize,
) -> Result<Octets, Cause>
    requires { read ≤ most_files }
    ensures same { I.files inputs.new ≡ I.files inputs.old }
    ensures read { IfOk result (λ bytes. Holds (I.files inputs.old) name.now (most_after read) bytes) }
    ensures stopped { IfErr result (StopsAt (I.files inputs.old) name.now (most_after read) (limit_after read)) }
    ensures cause { StepCause (I.faults inputs.old) (I.faults inputs.new) result }
{
    let left = MOST_FILES - read;
    let (most, limit) = if MOST_FILE <= left {
        (MOST_FILE, 67_108_864)
    } else {
        (left, 268_435_456)
    };
    let bytes = input(alloc, inputs, name, most, limit)?;
    match Octets::from_vec(alloc, bytes) {
        Ok(bytes) => Ok(bytes),
        Err(_) => Err(Cause::Memory),
    }
}

// The name of a job's file, if it has one.
fn file_name(act: &JobAct) -> Option<&[u8]>
    ensures { option_map (λ name. name.now) result ≡ file_name act.now }
{
    match act {
        JobAct::Load(name) => Some(name.as_slice()),
        JobAct::Partial(name) => Some(name.as_slice()),
        JobAct::Scan(_) | JobAct::Compact | JobAct::Expire(_) | JobAct::Stat => None,
    }
}

// Reads the file of a job, if it has one, after files of so many bytes.
fn read_file<I: Inputs>(
    alloc: Global,
    inputs: &mut I,
    act: &JobAct,
    read: usize,
) -> Result<Octets, Cause>
    requires { read ≤ most_files }
    ensures same { I.files inputs.new ≡ I.files inputs.old }
    ensures held { IfOk result (AreHeld (I.files inputs.old) (file_name act.now)) }
    ensures within { IfOk result (λ bytes. read + length bytes ≤ most_files) }
    ensures stopped { IfErr result (FileStops (I.files inputs.old) (file_name act.now) read) }
    ensures cause { StepCause (I.faults inputs.old) (I.faults inputs.new) result }
{
    match file_name(act) {
        Some(name) => match std::str::from_utf8(name) {
            Ok(name) => read_named(alloc, inputs, name, read),
            Err(_) => Err(Cause::Memory),
        },
        None => match Octets::from_slice(alloc, b"") {
            Ok(none) => Ok(none),
            Err(_) => Err(Cause::Memory),
        },
    }
}

// What a job does, once more.
fn copy_act(alloc: Global, act: &JobAct) -> Result<JobAct, AllocError>
    ensures { IfOk result (λ copy. copy ≡ act.now) }
{
    match act {
        JobAct::Load(name) => Ok(JobAct::Load(Octets::from_slice(alloc, name.as_slice())?)),
        JobAct::Partial(name) => Ok(JobAct::Partial(Octets::from_slice(alloc, name.as_slice())?)),
        JobAct::Scan(want) => Ok(JobAct::Scan(*want)),
        JobAct::Compact => Ok(JobAct::Compact),
        JobAct::Expire(version) => Ok(JobAct::Expire(*version)),
        JobAct::Stat => Ok(JobAct::Stat),
    }
}

// Puts a job beside its file behind the others.
fn push(alloc: Global, filed: &mut Vec<FiledJob>, job: &Job, file: Octets) -> Result<(), AllocError>
    ensures { OnOk result (filed.new.items ≡ filed.old.items ++ (record { job = job.now; file = file }) ∷ []) }
{
    let job = Job {
        lane: job.lane,
        phase: job.phase,
        act: copy_act(alloc, &job.act)?,
    };
    filed.push(FiledJob { job, file })?;
    Ok(())
}

// Reads the file of each job that has one, in the order of the jobs.
fn read_files<I: Inputs>(
    alloc: Global,
    inputs: &mut I,
    jobs: &[Job],
) -> Result<Vec<FiledJob>, Cause>
    ensures same { I.files inputs.new ≡ I.files inputs.old }
    ensures filed { IfOk result (λ filed. AreFiled (I.files inputs.old) jobs.now filed.items) }
    ensures stopped { IfErr result (JobsStop (I.files inputs.old) jobs.now) }
    ensures cause { StepCause (I.faults inputs.old) (I.faults inputs.new) result }
{
    let mut filed = Vec::new(alloc);
    let mut read = 0;
    for i in 0..jobs.len() {
        let file = match read_file(alloc, inputs, &jobs[i].act, read) {
            Ok(file) => file,
            Err(cause) => return Err(cause),
        };
        read += file.as_slice().len();
        let Ok(()) = push(alloc, &mut filed, &jobs[i], file) else {
            return Err(Cause::Memory);
        };
    }
    Ok(filed)
}

/// A table, and the jobs that are asked of it, beside their files.
#[derive(Drop)]
pub struct Asked {
    pub schema: Schema,
    pub jobs: Vec<FiledJob>,
}

/// Reads what the words name: the table, the script, and the file of each job that has one.
pub fn find_jobs<'a, I: Inputs>(
    alloc: Global,
    words: &'a [&'a str],
    inputs: &mut I,
) -> Result<Asked, Cause>
    ensures same { I.files inputs.new ≡ I.files inputs.old }
    ensures asked { IfOk result (λ asked. HasFiled (I.files inputs.old) (texts words.entry.now) asked.schema asked.jobs.items) }
    ensures few { IfOk result (λ asked. length asked.jobs.items ≤ 4096) }
    ensures within { IfOk result (λ asked. AllByRecursion HasFewBytes asked.jobs.items) }
    ensures built { IfOk result (λ asked. AllByRecursion (λ j. is_built j.job ≡ true) asked.jobs.items) }
    ensures phases { IfOk result (λ asked. PhasesRise asked.jobs.items) }
    ensures stopped { IfErr result (Stops (I.files inputs.old) (texts words.entry.now)) }
    ensures cause { StepCause (I.faults inputs.old) (I.faults inputs.new) result }
{
    let texts = match find_texts(alloc, words, inputs) {
        Ok(texts) => texts,
        Err(cause) => return Err(cause),
    };
    let plan = match plan_from(alloc, &texts) {
        Ok(plan) => plan,
        Err(cause) => return Err(cause),
    };
    match read_files(alloc, inputs, plan.jobs.as_slice()) {
        Ok(jobs) => Ok(Asked {
            schema: plan.schema,
            jobs,
        }),
        Err(cause) => Err(cause),
    }
}
