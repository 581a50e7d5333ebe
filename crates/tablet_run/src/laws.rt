//! What holds of every run: a function that does nothing, which clauses give its laws.
ghost use Rattle.tablet_run.specs.Laws.{CausesExclude, JobsExclude};

/// Why a run stops before its jobs.
pub fn stops()
    ensures exclude { CausesExclude }
    ensures jobs { JobsExclude }
{}
