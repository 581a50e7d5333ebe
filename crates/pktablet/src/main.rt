//! One tablet of a primary key table, run by a script of jobs.
#![tactic(auto)]

ghost use Rattle.std.specs.Prelude.{◌≡◌, ◌↔◌, ◌⊎◌, IfOk, IfSome, Ok, Some, None, map, option_map, string_bytes, true, false};
ghost use Rattle.std.specs.Process.{exit_status};
ghost use Rattle.command_line.specs.Words.{texts};
ghost use Rattle.tablet_run.specs.Statuses.{cause_status};
ghost use Rattle.pktablet.specs.Told.{EndsAs, EndsOnHost, IsNotBegun, IsPrinted, asks_alone, file_told};

use command_line::text_for;
use dev_host::{HostInputs, HostSink, HostStore};
use std::alloc::{AllocError, Global};
use std::env::Env;
use std::io::ErrorKind;
use std::process::ExitCode;
use std::{env, io};
use tablet_run::{Cause, Ended, run};

// The folder of the tablet, in the folder where the program runs.
const FOLDER: &str = "tablet";

// How the program ends, and why.
#[derive(Drop)]
struct Exit {
    status: u8,
    cause: Cause,
}

// The words after the program's name.
fn words_after_name(rt: &(impl Env + AllocGlobal)) -> io::Result<Vec<String>> {
    let mut words = Vec::new(rt.alloc());
    for word in env::args(rt)?.skip(1) {
        words.push(word)?;
    }
    Ok(words)
}

// Prints what a single word asks for, help or the version, and tells whether it did.
fn answer_word(rt: &HostRuntime, words: &[String]) -> io::Result<bool>
    ensures { IfOk result (λ did. did ≡ asks_alone (map string_bytes words.now)) }
{
    let alloc: Global = rt.alloc();
    let [word] = words else {
        return Ok(false);
    };
    match text_for(alloc, word.as_str())? {
        Some(text) => {
            print!(rt; "{text}")?;
            Ok(true)
        }
        None => Ok(false),
    }
}

// The words as texts.
fn texts_of(alloc: Global, words: &[String]) -> Result<Vec<&str>, AllocError>
    ensures { IfOk result (λ found. texts found.items ≡ map string_bytes words.now) }
{
    let mut found = Vec::new(alloc);
    for word in words {
        found.push(word.as_str())?;
    }
    Ok(found)
}

// Runs the words over the host's files, standard output and the tablet's folder, and removes the files that the tablet
// has no more.
fn run_on_host(rt: &HostRuntime, words: &[String]) -> io::Result<Exit>
    ensures status { IfOk result (λ ended. ended.status ≡ cause_status ended.cause) }
    ensures ends { IfOk result (λ ended. EndsOnHost (map string_bytes words.now) ended.cause) }
{
    let alloc: Global = rt.alloc();
    let texts = texts_of(alloc, words)?;
    let mut inputs = HostInputs::new(rt.clone()?);
    let mut out = HostSink::new(rt.clone()?);
    let store = HostStore::new(rt.clone()?, FOLDER)?;
    let Ended {
        status,
        cause,
        store,
    } = run(alloc, texts.as_slice(), &mut inputs, &mut out, store);
    store.sweep();
    Ok(Exit { status, cause })
}

// How a run ended that did not come to its words.
fn not_begun(error: &io::Error) -> Exit
    ensures status { result.status ≡ cause_status result.cause }
    ensures told { IsNotBegun result.cause }
{
    let cause = match error.kind() {
        ErrorKind::OutOfMemory => Cause::Memory,
        _ => Cause::Words,
    };
    Exit {
        status: cause.status(),
        cause,
    }
}

// The file that a cause speaks of, where it is the table or the script.
fn file_of<'a>(cause: &Cause, words: &'a [String]) -> Option<&'a str>
    ensures { option_map (λ file. file.now) result ≡ file_told cause.now (map string_bytes words.now) }
{
    let [_, table, script] = words else {
        return None;
    };
    match cause {
        Cause::Table(_) | Cause::OtherSchema(_) => Some(table.as_str()),
        Cause::Script(_) | Cause::Unbuilt(_) => Some(script.as_str()),
        _ => None,
    }
}

// Writes one line on standard error of why a run ended, where that can be written.
fn explain(rt: &HostRuntime, cause: &Cause, words: &[String]) {
    let told = match file_of(cause, words) {
        Some(file) => eprintln!(rt; "pktablet: {file}: {cause}"),
        None => eprintln!(rt; "pktablet: {cause}"),
    };
    // A line that can't be written leaves the status as it is.
    let _told = told.is_ok();
}

// How printing what a word asks for ended.
fn printed(answered: io::Result<bool>) -> Option<Cause>
    ensures done { answered ≡ Ok true ↔ result ≡ Some Cause.None }
    ensures unasked { answered ≡ Ok false ↔ result ≡ None }
    ensures told { IfSome result (λ cause. IsPrinted cause) }
{
    match answered {
        Ok(true) => Some(Cause::None),
        Ok(false) => None,
        Err(error) => match error.kind() {
            ErrorKind::OutOfMemory => Some(Cause::Memory),
            _ => Some(Cause::Sink),
        },
    }
}

// Does what the words ask for.
fn attempt(rt: &HostRuntime, words: &[String]) -> Exit
    ensures status { result.status ≡ cause_status result.cause }
    ensures ends { EndsAs (map string_bytes words.now) result.cause }
{
    match printed(answer_word(rt, words)) {
        Some(cause) => Exit {
            status: cause.status(),
            cause,
        },
        None => match run_on_host(rt, words) {
            Ok(ended) => ended,
            Err(error) => not_begun(&error),
        },
    }
}

// Explains why a run went wrong, and gives the exit status that it has.
fn end(rt: &HostRuntime, ended: &Exit, words: &[String]) -> ExitCode
    ensures { exit_status result ≡ ended.now.status }
{
    if ended.status > 1 {
        explain(rt, &ended.cause, words);
    }
    ExitCode::from(ended.status)
}

fn main(rt: HostRuntime) -> io::Result<ExitCode> {
    let (ended, words) = match words_after_name(&rt) {
        Ok(words) => (attempt(&rt, &words), words),
        Err(error) => (not_begun(&error), Vec::new(rt.alloc())),
    };
    Ok(end(&rt, &ended, &words))
}
