//! The words of the command line: `run TABLE SCRIPT`, read by `clap`.
#![tactic(auto)]

ghost use Rattle.std.specs.Prelude.{◌≡◌, ◌↔◌, Some, None, IsSome, IfOk, IfErr, IsErrOf, IsOk, false, is_some};
ghost use Rattle.clap.specs.Words.{app_of, rule_of};
ghost use Rattle.command_line.specs.Words.{asked_by, files_of, files_view, positional, texts};

use clap::error::ErrorKind;
use clap::{Arg, ArgAction, Command};
use std::alloc::{AllocError, Global};

/// Why words were not read.
#[derive(Clone, Copy, Debug, Drop, thiserror::Error)]
pub enum WordsFault {
    /// They are not `run` and two names, each of which is not empty and does not begin with `-`.
    #[error("the words are not `run TABLE SCRIPT`")]
    Words,
    /// Memory ran out.
    #[error("memory ran out")]
    Memory,
}

/// The names of a table's file and of a script's.
#[derive(Clone, Copy, Drop)]
pub struct Files<'a> {
    /// The name of the table's file: not empty, and not beginning with `-`.
    pub table: &'a str,
    /// The name of the script's file, likewise.
    pub script: &'a str,
}

// Whether a word isn't empty and doesn't begin with a hyphen.
fn is_plain(word: &str) -> bool
    ensures { result ≡ Rattle.command_line.specs.Words.is_plain word.now }
{
    match word.as_bytes() {
        [] => false,
        [first, ..] => *first != b'-',
    }
}

// A word that is required.
fn word<'a>(alloc: Global, id: &'a str) -> Arg<'a>
    ensures rule { rule_of result ≡ positional id.entry.now }
    ensures local { result.global ≡ false }
{
    Arg::new(alloc, id).required(true).action(ArgAction::Set)
}

// The command: three words, each of them required.
fn command<'a>(alloc: Global) -> Result<Command<'a>, AllocError>
    ensures { IfOk result (λ c. app_of c ≡ Rattle.command_line.specs.Words.command) }
{
    let job = word(alloc, "job");
    let table = word(alloc, "table");
    let script = word(alloc, "script");
    let bare = Command::new(alloc, "pktablet").no_binary_name(true);
    let made = bare.arg(job)?.arg(table)?.arg(script)?;
    Ok(made)
}

// The table and the script that the words name, as `clap` reads them.
fn parsed<'a>(alloc: Global, words: &'a [&'a str]) -> Result<Files<'a>, WordsFault>
    requires { IsSome (files_of (texts words.now)) }
    ensures files { IfOk result (λ f. files_of (texts words.entry.now) ≡ Some (files_view f)) }
    ensures memory { IfErr result (λ e. e ≡ WordsFault.Memory) }
{
    let command = match command(alloc) {
        Ok(command) => command,
        Err(_) => return Err(WordsFault::Memory),
    };
    match command.try_get_matches_from(words) {
        Ok(matches) => Ok(Files {
            table: matches.get_str("table").unwrap_or(""),
            script: matches.get_str("script").unwrap_or(""),
        }),
        Err(e) => {
            if e.kind() == ErrorKind::OutOfMemory {
                Err(WordsFault::Memory)
            } else {
                Err(WordsFault::Words)
            }
        }
    }
}

/// The files that the words name, without the program's name: `run`, the table's and the script's.
///
/// # Errors
/// `Words` exactly where the words are not `run` and two such names. `Memory` where they are, and
/// memory ran out.
pub fn read_words<'a>(alloc: Global, words: &'a [&'a str]) -> Result<Files<'a>, WordsFault>
    ensures files { IfOk result (λ f. files_of (texts words.entry.now) ≡ Some (files_view f)) }
    ensures words { IsErrOf result WordsFault.Words ↔ (files_of (texts words.entry.now) ≡ None) }
{
    if words.len() != 3 || words[0] != "run" || !is_plain(words[1]) || !is_plain(words[2]) {
        return Err(WordsFault::Words);
    }
    parsed(alloc, words)
}

// The command with its version and what it does.
fn about<'a>(alloc: Global) -> Command<'a> {
    Command::new(alloc, "pktablet")
        .version("0.1.0")
        .about(
            "Runs the jobs of a script over one tablet of a primary key table, and prints a report of what became of each.",
        )
        .after_help(AFTER)
}

// The command with what a person may want to know of it and of its words.
fn described<'a>(alloc: Global) -> Result<Command<'a>, AllocError> {
    let job = word(alloc, "run").help("The word `run`");
    let table = word(alloc, "TABLE").help("A file with the table's columns, as JSON");
    let script = word(alloc, "SCRIPT").help("A file with a job on each line");
    about(alloc).arg(job)?.arg(table)?.arg(script)
}

fn help_text(alloc: Global) -> Result<String, AllocError> {
    described(alloc)?.render_help()
}

fn version_text(alloc: Global) -> Result<String, AllocError> {
    about(alloc).render_version()
}

const AFTER: &str = "\
Jobs (the lines of a script; `#` begins a comment):
  @1 load FILE     load a CSV file: its rows replace those of their keys, and `__op` 1 deletes
  @1 scan latest   print the rows of the latest version
  @1 scan 3        print the rows of version 3
  @1 stat          count versions, rows and rowsets
  wait             begin a new phase";

// What a single word asks for.
#[derive(Clone, Copy, Drop)]
enum Asked {
    Help,
    Version,
}

fn asked_by(word: &str) -> Option<Asked>
    ensures { result ≡ asked_by word.now }
{
    if word == "--help" || word == "-h" {
        Some(Asked::Help)
    } else if word == "--version" || word == "-V" {
        Some(Asked::Version)
    } else {
        None
    }
}

/// The text that a word asks for when it stands alone: the help for `--help` and `-h`, the
/// program's name and version for `--version` and `-V`, as `clap` writes them. None for any other
/// word.
///
/// # Errors
/// `AllocError` where memory ran out.
pub fn text_for(alloc: Global, word: &str) -> Result<Option<String>, AllocError>
    ensures asked { IfOk result (λ text. is_some text ≡ is_some (asked_by word.now)) }
    ensures unasked { asked_by word.now ≡ None → IsOk result }
{
    match asked_by(word) {
        Some(Asked::Help) => Ok(Some(help_text(alloc)?)),
        Some(Asked::Version) => Ok(Some(version_text(alloc)?)),
        None => Ok(None),
    }
}
