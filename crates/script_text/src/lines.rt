ghost use Rattle.std.specs.Prelude.{◌≡◌, ◌≤◌, IfOk};
ghost use Rattle.script_text.specs.Scripts.{is_wait, lane_number, lane_of, script_line_of, work_of, words_of};
ghost use Rattle.script_text.specs.Answers.{IsTold};
ghost use Rattle.script_text.specs.Lines.{IsLine};

use crate::acts::read_job;
use crate::scripts::{JobAct, ScriptCause};
use crate::words::{begins_with, next_word};
use std::alloc::Global;

/// What a line of a script is.
#[derive(Drop)]
pub enum ScriptLine {
    /// It has no word, or is a comment.
    Skipped,
    /// It ends a phase.
    PhaseEnd,
    /// A job in a lane.
    Work(u32, JobAct),
}

fn lane_number(number: &[u8]) -> Result<u32, ScriptCause>
    ensures exact { result ≡ lane_number number.now }
    ensures within { IfOk result (λ lane. (1 ≤ lane) × (lane ≤ 8)) }
{
    let [digit] = number else {
        return Err(ScriptCause::BadLane);
    };
    if *digit >= b'1' && *digit <= b'8' {
        Ok(u32::from(*digit - b'0'))
    } else {
        Err(ScriptCause::BadLane)
    }
}

fn lane(first: &[u8]) -> Result<u32, ScriptCause>
    ensures exact { result ≡ lane_of first.now }
    ensures within { IfOk result (λ lane. (1 ≤ lane) × (lane ≤ 8)) }
{
    match first {
        [] => Err(ScriptCause::NoLane),
        [byte, number @ ..] => {
            if *byte == b'@' {
                lane_number(number)
            } else {
                Err(ScriptCause::NoLane)
            }
        }
    }
}

fn is_wait(first: &[u8], after: &[u8]) -> bool
    ensures { result ≡ is_wait first.now (words_of after.now) }
{
    match next_word(after) {
        None => first == b"wait".as_slice(),
        Some(_) => false,
    }
}

// A job in a lane.
fn read_work(alloc: Global, first: &[u8], after: &[u8]) -> Result<ScriptLine, ScriptCause>
    ensures told { IsTold (work_of first.now (words_of after.now)) result }
    ensures lawful { IfOk result (λ line. IsLine line) }
{
    match lane(first) {
        Ok(lane) => {
            let act = read_job(alloc, after)?;
            Ok(ScriptLine::Work(lane, act))
        }
        Err(cause) => Err(cause),
    }
}

/// What a line is, without its end.
pub fn read_line(alloc: Global, line: &[u8]) -> Result<ScriptLine, ScriptCause>
    ensures told { IsTold (script_line_of line.now) result }
    ensures lawful { IfOk result (λ line. IsLine line) }
{
    let Some((first, after)) = next_word(line) else {
        return Ok(ScriptLine::Skipped);
    };
    if begins_with(b'#', first) {
        return Ok(ScriptLine::Skipped);
    }
    if is_wait(first, after) {
        return Ok(ScriptLine::PhaseEnd);
    }
    read_work(alloc, first, after)
}
