use case_texts::text_of;
use pk_model::Want;
use pk_values::Octets;
use script_text::{Job, JobAct, Script, read_script};
use std::alloc::{AllocError, Global};

fn named(alloc: Global, verb: &str, name: &Octets) -> Result<String, AllocError> {
    let name = text_of(alloc, name.as_slice())?;
    format!(in alloc; "{verb} {name}")
}

fn act_text(alloc: Global, act: &JobAct) -> Result<String, AllocError> {
    match act {
        JobAct::Load(name) => named(alloc, "load", name),
        JobAct::Partial(name) => named(alloc, "partial", name),
        JobAct::Scan(Want::Latest) => "scan latest".to_string(alloc),
        JobAct::Scan(Want::At(version)) => format!(in alloc; "scan {version}"),
        JobAct::Compact => "compact".to_string(alloc),
        JobAct::Expire(version) => format!(in alloc; "expire {version}"),
        JobAct::Stat => "stat".to_string(alloc),
    }
}

fn job_text(alloc: Global, job: &Job) -> Result<String, AllocError> {
    let act = act_text(alloc, &job.act)?;
    format!(in alloc; "; lane {} phase {} {act}", job.lane, job.phase)
}

// How many jobs there are, and each where there are fewer than ten.
fn jobs_text(alloc: Global, script: &Script) -> Result<String, AllocError> {
    let mut text = format!(in alloc; "{} jobs", script.jobs.len())?;
    if script.jobs.len() < 10 {
        for job in script.jobs.as_slice() {
            text.push_str(job_text(alloc, job)?.as_str())?;
        }
    }
    Ok(text)
}

/// `script BYTES`: the jobs of a script, or its first wrong line and the cause there.
pub fn script(alloc: Global, bytes: &[u8]) -> Result<String, AllocError> {
    if bytes.len() > 1_048_576 {
        return "too long".to_string(alloc);
    }
    match read_script(alloc, bytes) {
        Ok(script) => jobs_text(alloc, &script),
        Err(fault) => format!(in alloc; "line {} {:?}", fault.line, fault.cause),
    }
}
