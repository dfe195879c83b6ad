// The calls on an open plan.
ghost use Rattle.std.specs.Prelude.{◌≡◌, ◌≤◌};
ghost use Rattle.plan.specs.Calls.{Amend, Enter, Withdraw};
ghost use Rattle.plan.specs.Promises.{Promise};
ghost use Rattle.plan.specs.Returns.{ArrangeReturns, Loads, OnRows, done_or_refused, letter_or_refused};

use super::{Arranged, NotArranged, Open};
use crate::memory::some_short;
use crate::order::find_order;
use feasibility::test::Test;
use model::row::Row;
use sheet::draft::SheetRow;
use sheet::sheet::parse_sheet;
use table::fault::{Fault, PlanFault};
use table::refusal::Refusal;
use table::rows::{CAPACITY, append, judge_rows, remove, replace};

impl Open {
    // A plan with no tasks.
    pub fn new() -> Open
        ensures { result.tasks ≡ 0 }
    {
        Open { tasks: 0 }
    }

    pub fn tasks(&self) -> usize
        ensures { result ≡ self.now.tasks }
    {
        self.tasks
    }

    // Adds a row at the end.
    pub fn enter<R: Row>(&mut self, rows: &mut [R], row: R) -> Result<(), Fault>
        ensures { OnRows (Enter R.Row.meaning row) self.old rows.old (done_or_refused result) self.new rows.new }
    {
        append(rows, self.tasks, row)?;
        self.tasks += 1;
        Ok(())
    }

    // Replaces the row that has the row's own id.
    pub fn amend<R: Row>(&mut self, rows: &mut [R], row: R) -> Result<(), Fault>
        ensures { OnRows (Amend R.Row.meaning row) self.old rows.old (done_or_refused result) self.new rows.new }
    {
        Ok(replace(rows, self.tasks, row)?)
    }

    // Removes the row with this id; later rows move down one.
    pub fn withdraw<R: Row>(&mut self, rows: &mut [R], id: u16) -> Result<(), Fault>
        ensures { OnRows (Withdraw R.Row.meaning id) self.old rows.old (done_or_refused result) self.new rows.new }
    {
        remove(rows, self.tasks, id)?;
        self.tasks -= 1;
        Ok(())
    }

    // Replaces the whole table by a sheet, and answers the sheet's letter. A refused sheet leaves no task.
    // The letter is a byte: by a rule of the project a sheet's letter is a byte of the language, and the kinds of tests are open.
    pub fn load<R: SheetRow>(&mut self, sheet: &[u8], rows: &mut [R]) -> Result<u8, Fault>
        ensures { Loads R.Row.meaning R.Draft.Draft.grammar R.Draft.Draft.mark R.Draft.Draft.letters sheet.now self.old rows.old (letter_or_refused result) self.new rows.new }
    {
        if rows.len() < CAPACITY {
            return Err(Fault::InSheet(Refusal::ShortMemory, 0));
        }
        self.tasks = 0;
        let (tasks, letter) = parse_sheet(sheet, rows)?;
        self.tasks = tasks;
        Ok(letter)
    }

    // Judges every row again, and finds an order and its bounds by the test. The arranged plan, or the open one back.
    pub fn arrange<R: Row, Q: Test<R>>(
        self,
        test: &Q,
        rows: &[R],
        order: &mut [u8],
        bounds: &mut [u32],
    ) -> Result<Arranged, NotArranged>
        ensures arranges { ArrangeReturns R.Row.meaning Q.Test.answers self rows.now order.old order.new bounds.old bounds.new result }
        ensures promise { Promise R.Row.meaning }
    {
        let Open { tasks } = self;
        if some_short(rows, order, bounds) {
            return Err(not_arranged(tasks, Refusal::ShortMemory.at(0)));
        }
        judge_rows(rows, tasks).map_err(|fault| not_arranged(tasks, fault))?;
        match find_order(test, &rows[..tasks], order, bounds) {
            Ok(questions) => Ok(Arranged { tasks, questions }),
            Err(left) => Err(NotArranged {
                plan: Open { tasks },
                fault: Fault::Assignment(left.tasks()),
                left: left.mask,
                questions: left.questions,
            }),
        }
    }
}

// The plan of so many tasks given back before any question is put, so the two numbers that a rule of the project puts beside each refusal are 0.
fn not_arranged(tasks: usize, fault: PlanFault) -> NotArranged
    requires { tasks ≤ CAPACITY }
    ensures { (result.plan.tasks ≡ tasks) × (result.fault ≡ Fault.Plan fault) × (result.left ≡ 0) × (result.questions ≡ 0) }
{
    NotArranged {
        plan: Open { tasks },
        fault: fault.into(),
        left: 0,
        questions: 0,
    }
}
