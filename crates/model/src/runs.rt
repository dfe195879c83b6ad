// What is proved of runs, for tasks over rows of any type. Each function states a theorem and does nothing.
ghost use Rattle.model.specs.RunLaws.{LateJobs, RunsDetermined, TicksCounted};
ghost use Rattle.model.specs.WorkedRun.{WorkedRun};

// Counts of ticks add up, and at most one level runs in a tick.
pub fn ticks_are_counted()
    ensures { TicksCounted }
{}

// For tasks with lawful rows, spaced releases and allowed patterns there is exactly one lawful run of each length.
pub fn runs_are_determined<R>()
    ensures { RunsDetermined R }
{}

// Every job of a task is finished in time exactly if none of them is late.
pub fn late_jobs_are_unfinished<R>()
    ensures { LateJobs R }
{}

// A run of two tasks with a preemption, two suspensions, a cost of 0 and a late job.
pub fn run_is_worked()
    ensures { WorkedRun }
{}
