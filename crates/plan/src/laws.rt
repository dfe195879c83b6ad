// Theorems on the calls of a plan and on sequences of them, for every type of rows.
ghost use Rattle.plan.specs.Laws.{ArrangedReadable, CallsDetermined, NothingWrittenPast, OnlyTasksMatter, Promises, SheetsRead, TablesMade};
ghost use Rattle.plan.specs.Returns.{ReopenMeans};
ghost use Rattle.plan.specs.WorkedCalls.{Worked};

// Each call on its stage has exactly one answer and one state after.
pub fn calls_are_determined<R>()
    ensures { CallsDetermined R }
{}

// The table is what the calls make of an empty one.
pub fn tables_are_made<R>()
    ensures { TablesMade R }
{}

// Entries past the tasks have no influence on any answer.
pub fn only_tasks_matter<R>()
    ensures { OnlyTasksMatter R }
{}

// Entries from place 32 on are never written.
pub fn nothing_is_written_past<R>()
    ensures { NothingWrittenPast R }
{}

// An arranged plan has a lawful table, and every level of it can be read.
pub fn arranged_plans_are_readable<R>()
    ensures { ArrangedReadable R }
{}

// Accepted orders hold, refusals are exact, and no sequence of calls reaches an order that does not hold.
pub fn promise_is_kept<R>()
    ensures { Promises R }
{}

// What reopen ensures is its relation.
pub fn reopening_is_exact<R>()
    ensures { ReopenMeans R }
{}

// The sheet language is a reading of sheets.
pub fn sheets_are_read<S, R>()
    ensures { SheetsRead S R }
{}

// A sequence of calls worked out, with every answer and every memory.
pub fn sequence_is_worked()
    ensures { Worked }
{}
