// From a sheet's bytes to its report's bytes: the sheet is read, its tasks are arranged by the test that its letter names, and the order or the
// refusal is reported.
#![tactic(auto)]

mod tested;

ghost use Rattle.std.specs.Prelude.{◌≤◌, length, IfOk};
ghost use Rattle.planning.specs.Planned.{Planned, Plans, PlansSheet};

use crate::tested::TestedRow;
use model::row::Row;
use model::segmented::Segmented;
use model::whole::Whole;
use plan::stage::Open;
use report::refused::report_refusal;
use sheet::bytes::WHOLE;
use table::fault::Fault;
use table::rows::CAPACITY;

// How many bytes of a sheet the programs take, by a rule of the project.
pub const SHEET_BYTES: usize = 4096;

// How many bytes a report's memory has at least.
pub const REPORT_BYTES: usize = report::fields::REPORT_BYTES;

// A sheet of one kind of row.
// The rows' memory is lent: the check does not know that an array of rows of any type fits in memory.
fn plan_rows<R: TestedRow>(
    sheet: &[u8],
    rows: &mut [R; CAPACITY],
    memory: &mut [u8],
) -> Result<usize, Fault>
    ensures { Plans (Planned R.Draft.Draft.grammar R.Row.meaning R.Draft.Draft.mark R.Draft.Draft.letters R.TestedRow.tests) sheet.now memory.old memory.new result }
{
    let mut plan = Open::new();
    match plan.load(sheet, rows) {
        Ok(letter) => R::report_by_letter(letter, plan, rows, memory),
        Err(fault) => report_refusal(fault, memory),
    }
}

// Writes the report of a sheet, and answers its length. Which kind of rows the sheet has, its first byte says.
pub fn plan_sheet(sheet: &[u8], memory: &mut [u8]) -> Result<usize, Fault>
    ensures planned { PlansSheet sheet.now memory.old memory.new result }
    ensures within { IfOk result (λ n. n ≤ length memory.old) }
{
    if sheet.first() == Some(&WHOLE) {
        plan_rows(sheet, &mut [Whole::blank(); CAPACITY], memory)
    } else {
        plan_rows(sheet, &mut [Segmented::blank(); CAPACITY], memory)
    }
}
