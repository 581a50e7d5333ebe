ghost use Rattle.std.specs.Prelude.{◌≡◌, ◌≤◌, ◌<◌, ◌+◌, ◌^◌, IfErr, IfOk, OnOk, Ok, length};
ghost use Rattle.script_text.specs.Scripts.{script_line_of, phase_after, script_of, with_job, with_line};
ghost use Rattle.script_text.specs.Answers.{AreJobs, AreWithin, IsAnswer, IsFault, IsJob, IsScript, line_told};
ghost use Rattle.script_text.specs.Lines.{IsLine};

use crate::lines::{ScriptLine, read_line};
use crate::scripts::{Job, Script, ScriptCause, ScriptFault};
use crate::words::next_line;
use pk_values::Items;
use std::alloc::Global;

// The most jobs of a script.
const MOST_JOBS: usize = 4096;

// The line of a fault, but 0 for want of memory.
fn line_told(number: u64, cause: ScriptCause) -> u64
    ensures { result ≡ line_told number cause }
{
    match cause {
        ScriptCause::Memory => 0,
        _ => number,
    }
}

// Puts a job, which a line of this number has, behind the others.
fn add_job(jobs: &mut Items<Job>, number: u64, job: Job) -> Result<(), ScriptFault>
    requires old { AreJobs jobs.old }
    requires job { IsJob job }
    requires within { AreWithin job.phase jobs.old }
    ensures ok { OnOk result (with_job number jobs.old job ≡ Ok jobs.new) }
    ensures lawful { OnOk result (AreJobs jobs.new) }
    ensures within { OnOk result (AreWithin job.phase jobs.new) }
    ensures err { IfErr result (λ fault. IsFault (with_job number jobs.old job) fault.line fault.cause) }
{
    if jobs.len() >= MOST_JOBS {
        return Err(ScriptFault {
            line: number,
            cause: ScriptCause::ManyJobs,
        });
    }
    match jobs.push(job) {
        Ok(()) => Ok(()),
        Err(_) => Err(ScriptFault {
            line: 0,
            cause: ScriptCause::Memory,
        }),
    }
}

// Puts the job of a line, if it has one, behind the others, and tells the phase after the line.
fn add(jobs: &mut Items<Job>, number: u64, phase: u32, line: ScriptLine) -> Result<u32, ScriptFault>
    requires from { 1 ≤ phase }
    requires to { phase + 1 < 2 ^ 32 }
    requires old { AreJobs jobs.old }
    requires within { AreWithin phase jobs.old }
    requires line { IsLine line }
    ensures ok { IfOk result (λ next. with_line number phase jobs.old (Ok line) ≡ Ok jobs.new) }
    ensures phase { IfOk result (λ next. next ≡ phase_after phase (Ok line)) }
    ensures lawful { OnOk result (AreJobs jobs.new) }
    ensures within { IfOk result (λ next. AreWithin next jobs.new) }
    ensures err { IfErr result (λ fault. IsFault (with_line number phase jobs.old (Ok line)) fault.line fault.cause) }
{
    match line {
        ScriptLine::Skipped => Ok(phase),
        ScriptLine::PhaseEnd => Ok(phase + 1),
        ScriptLine::Work(lane, act) => match add_job(jobs, number, Job { lane, phase, act }) {
            Ok(()) => Ok(phase),
            Err(fault) => Err(fault),
        },
    }
}

// Reads a line, puts its job, if it has one, behind the others, and tells the phase after it.
fn add_line(
    jobs: &mut Items<Job>,
    alloc: Global,
    number: u64,
    phase: u32,
    text: &[u8],
) -> Result<u32, ScriptFault>
    requires from { 1 ≤ phase }
    requires to { phase + 1 < 2 ^ 32 }
    requires old { AreJobs jobs.old }
    requires within { AreWithin phase jobs.old }
    ensures ok { IfOk result (λ next. with_line number phase jobs.old (script_line_of text.now) ≡ Ok jobs.new) }
    ensures phase { IfOk result (λ next. next ≡ phase_after phase (script_line_of text.now)) }
    ensures after { IfOk result (λ next. (1 ≤ next) × (next ≤ phase + 1)) }
    ensures lawful { OnOk result (AreJobs jobs.new) }
    ensures within { IfOk result (λ next. AreWithin next jobs.new) }
    ensures err { IfErr result (λ fault. IsFault (with_line number phase jobs.old (script_line_of text.now)) fault.line fault.cause) }
{
    match read_line(alloc, text) {
        Ok(line) => add(jobs, number, phase, line),
        Err(cause) => Err(ScriptFault {
            line: line_told(number, cause),
            cause,
        }),
    }
}

/// The script that bytes stand for, of which there are fewer than 2^31.
///
/// # Errors
/// The fault of the first line that has one, counted from 1 with skipped lines, and in that line the first cause in the order of `ScriptCause`; `Memory`, with line
/// 0, where memory ran out.
pub fn read_script(alloc: Global, bytes: &[u8]) -> Result<Script, ScriptFault>
    requires { length bytes.now < 2 ^ 31 }
    ensures told { IsAnswer (script_of bytes.now) result }
    ensures lawful { IfOk result (λ script. IsScript script) }
{
    let mut jobs = Items::new(alloc);
    let mut phase = 1;
    let mut number = 1;
    let mut rest = bytes;
    while let Some((text, more)) = next_line(rest) {
        phase = add_line(&mut jobs, alloc, number, phase, text)?;
        number += 1;
        rest = more;
    }
    Ok(Script { jobs })
}
