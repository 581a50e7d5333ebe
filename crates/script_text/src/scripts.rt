use pk_model::Want;
use pk_values::{Items, Octets};
use thiserror::Error;

/// What a job does.
#[derive(Drop)]
pub enum JobAct {
    /// `load FILE`: loads a file of whole rows, of this name.
    Load(Octets),
    /// `partial FILE`: updates some columns from a file of this name.
    Partial(Octets),
    /// `scan VERSION`: reads the rows of a version, or of the latest one.
    Scan(Want),
    /// `compact`: rewrites the live rows of all rowsets as one.
    Compact,
    /// `expire VERSION`: drops the versions below this one.
    Expire(u64),
    /// `stat`: counts versions, rows and rowsets.
    Stat,
}

/// A job of a script.
#[derive(Drop)]
pub struct Job {
    /// The lane that does it, from 1 to 8.
    pub lane: u32,
    /// How many lines `wait` stand before it, and one more.
    pub phase: u32,
    /// What it does.
    pub act: JobAct,
}

/// The jobs of a script in the order of their lines, at most 4,096.
#[derive(Drop)]
pub struct Script {
    /// The jobs, which are numbered from 1 in this order.
    pub jobs: Items<Job>,
}

/// What is wrong with a line of a script.
#[derive(Clone, Copy, Debug, PartialEq, Eq, Error)]
pub enum ScriptCause {
    /// The first word does not begin with `@`, and the line is not the one word `wait`.
    #[error("a line is `@LANE` and a job, or `wait` alone")]
    NoLane,
    /// What follows `@` is not one digit from 1 to 8.
    #[error("a lane is `@1` to `@8`")]
    BadLane,
    /// No word follows the lane.
    #[error("a job is missing after the lane")]
    NoJob,
    /// The second word is no job's.
    #[error("a job is `load`, `partial`, `scan`, `compact`, `expire` or `stat`")]
    UnknownJob,
    /// The job has too few or too many words after it.
    #[error("the job has too few or too many words after it: `load` and `partial` take a file's name, `scan` and `expire` a version, `compact` and `stat` nothing")]
    BadCount,
    /// A file's name is not UTF-8, or has a control byte.
    #[error("a file's name is valid UTF-8 without control bytes")]
    BadName,
    /// A version is not 1 to 20 decimal digits whose number fits 64 bits, and not `latest` where that may stand.
    #[error("a version is 1 to 20 decimal digits, at most 18,446,744,073,709,551,615, and for a scan also `latest`")]
    BadVersion,
    /// It is the 4,097th job.
    #[error("a script has at most 4,096 jobs")]
    ManyJobs,
    /// Memory was wanting.
    #[error("there was not enough memory")]
    Memory,
}

/// The first line of a script that is wrong.
#[derive(Clone, Copy, Debug, Error)]
#[error("line {line}: {cause}")]
pub struct ScriptFault {
    /// The line's number, counted from 1 with empty lines and comments; 0 for want of memory.
    pub line: u64,
    /// What is wrong with it.
    pub cause: ScriptCause,
}
