ghost use Rattle.std.specs.Prelude.{◌≡◌, IfOk, Ok};
ghost use Rattle.std.specs.Bool.{OnTrue};
ghost use Rattle.std.specs.List.{list_all};
ghost use Rattle.std.specs.Str.{IsUtf8, is_utf8};
ghost use Rattle.load_csv.specs.Results.{◌and_then◌};
ghost use Rattle.script_text.specs.Scripts.{act_of, file_of, is_file_name, is_printed, job_of, no_word, one_word, version_of, want_of, words_of};
ghost use Rattle.script_text.specs.Answers.{HasTextName, IsTold};
ghost use Rattle.script_text.specs.declared.scripts.JobAct.TheVariants.{Load, Partial, Scan, Expire};

use crate::numbers::read_number;
use crate::scripts::{JobAct, ScriptCause};
use crate::words::{next_word, only_word};
use pk_model::Want;
use pk_values::Octets;
use std::alloc::Global;

fn is_printed(byte: u8) -> bool
    ensures { result ≡ is_printed byte }
{
    byte >= 32 && byte != 127
}

fn all_printed(word: &[u8]) -> bool
    ensures { result ≡ list_all is_printed word.now }
{
    word.iter().all(|byte| is_printed(*byte))
}

fn is_text(word: &[u8]) -> bool
    ensures exact { result ≡ is_utf8 word.now }
    ensures text { OnTrue result (IsUtf8 word.now) }
{
    match std::str::from_utf8(word) {
        Ok(_) => true,
        Err(_) => false,
    }
}

fn is_file_name(word: &[u8]) -> bool
    ensures exact { result ≡ is_file_name word.now }
    ensures text { OnTrue result (IsUtf8 word.now) }
{
    if !is_text(word) {
        return false;
    }
    all_printed(word)
}

// The name of a file.
fn read_name(alloc: Global, word: &[u8]) -> Result<Octets, ScriptCause>
    ensures told { IsTold (file_of word.now) result }
    ensures text { IfOk result (λ file. IsUtf8 file) }
{
    if !is_file_name(word) {
        return Err(ScriptCause::BadName);
    }
    match Octets::from_slice(alloc, word) {
        Ok(name) => Ok(name),
        Err(_) => Err(ScriptCause::Memory),
    }
}

// The one word of a text as the name of a file.
fn read_file(alloc: Global, after: &[u8]) -> Result<Octets, ScriptCause>
    ensures told { IsTold (one_word (words_of after.now) and_then file_of) result }
    ensures text { IfOk result (λ file. IsUtf8 file) }
{
    match only_word(after) {
        Some(word) => read_name(alloc, word),
        None => Err(ScriptCause::BadCount),
    }
}

fn read_load(alloc: Global, after: &[u8]) -> Result<JobAct, ScriptCause>
    ensures told { IsTold (one_word (words_of after.now) and_then file_of and_then (λ file. Ok (Load file))) result }
    ensures text { IfOk result (λ act. HasTextName act) }
{
    let file = read_file(alloc, after)?;
    Ok(JobAct::Load(file))
}

fn read_partial(alloc: Global, after: &[u8]) -> Result<JobAct, ScriptCause>
    ensures told { IsTold (one_word (words_of after.now) and_then file_of and_then (λ file. Ok (Partial file))) result }
    ensures text { IfOk result (λ act. HasTextName act) }
{
    let file = read_file(alloc, after)?;
    Ok(JobAct::Partial(file))
}

fn version(word: &[u8]) -> Result<u64, ScriptCause>
    ensures { result ≡ version_of word.now }
{
    match read_number(word) {
        Some(number) => Ok(number),
        None => Err(ScriptCause::BadVersion),
    }
}

fn want(word: &[u8]) -> Result<Want, ScriptCause>
    ensures { result ≡ want_of word.now }
{
    if word == b"latest".as_slice() {
        return Ok(Want::Latest);
    }
    Ok(Want::At(version(word)?))
}

fn read_scan(after: &[u8]) -> Result<JobAct, ScriptCause>
    ensures exact { result ≡ (one_word (words_of after.now) and_then want_of and_then (λ want. Ok (Scan want))) }
    ensures text { IfOk result (λ act. HasTextName act) }
{
    match only_word(after) {
        Some(word) => Ok(JobAct::Scan(want(word)?)),
        None => Err(ScriptCause::BadCount),
    }
}

fn read_expire(after: &[u8]) -> Result<JobAct, ScriptCause>
    ensures exact { result ≡ (one_word (words_of after.now) and_then version_of and_then (λ version. Ok (Expire version))) }
    ensures text { IfOk result (λ act. HasTextName act) }
{
    match only_word(after) {
        Some(word) => Ok(JobAct::Expire(version(word)?)),
        None => Err(ScriptCause::BadCount),
    }
}

// A job that takes no word.
fn alone(after: &[u8], act: JobAct) -> Result<JobAct, ScriptCause>
    requires { HasTextName act }
    ensures exact { result ≡ no_word (words_of after.now) act }
    ensures text { IfOk result (λ act. HasTextName act) }
{
    match next_word(after) {
        None => Ok(act),
        Some(_) => Err(ScriptCause::BadCount),
    }
}

fn read_act(alloc: Global, verb: &[u8], after: &[u8]) -> Result<JobAct, ScriptCause>
    ensures told { IsTold (act_of verb.now (words_of after.now)) result }
    ensures text { IfOk result (λ act. HasTextName act) }
{
    if verb == b"load".as_slice() {
        read_load(alloc, after)
    } else if verb == b"partial".as_slice() {
        read_partial(alloc, after)
    } else if verb == b"scan".as_slice() {
        read_scan(after)
    } else if verb == b"compact".as_slice() {
        alone(after, JobAct::Compact)
    } else if verb == b"expire".as_slice() {
        read_expire(after)
    } else if verb == b"stat".as_slice() {
        alone(after, JobAct::Stat)
    } else {
        Err(ScriptCause::UnknownJob)
    }
}

/// What a job does, from the words after its lane.
pub fn read_job(alloc: Global, words: &[u8]) -> Result<JobAct, ScriptCause>
    ensures told { IsTold (job_of (words_of words.now)) result }
    ensures text { IfOk result (λ act. HasTextName act) }
{
    match next_word(words) {
        Some((verb, after)) => read_act(alloc, verb, after),
        None => Err(ScriptCause::NoJob),
    }
}
