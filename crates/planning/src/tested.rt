// The kinds of rows whose sheets are planned, with the tests that their letters name.
ghost use Rattle.std.specs.Prelude.{ℕ, take};
ghost use Rattle.feasibility.specs.Tests.{Answers};
ghost use Rattle.model.specs.WholeRows.{whole_kind};
ghost use Rattle.table.specs.Tables.{LawfulTable};
ghost use Rattle.planning.specs.Planned.{ReportsArranged, segmented_test, test_j};

use curves::ceiling::Ceiling;
use curves::segment_curve::SegmentCurve;
use feasibility::better::Better;
use feasibility::letter::letter_of;
use feasibility::piecewise::Piecewise;
use feasibility::test::Test;
use feasibility::whole_job::WholeJob;
use model::row::Row;
use model::segmented::Segmented;
use model::whole::Whole;
use plan::stage::Open;
use report::order::report_plan;
use report::refused::report_refusal;
use sheet::draft::SheetRow;
use table::fault::Fault;
use table::rows::CAPACITY;

// Plan, rows and memory go one by one: with a struct of them under a bound the check proves no impl of this trait.
pub(crate) trait TestedRow: SheetRow {
    // What the test answers that a letter names.
    ghost tests: { ℕ → Answers Self };

    // Arranges a plan of a lawful table by that test, and reports the order or that none is found.
    fn report_by_letter(
        letter: u8,
        plan: Open,
        rows: &[Self; CAPACITY],
        memory: &mut [u8],
    ) -> Result<usize, Fault>
        requires { LawfulTable Self.meaning (take plan.tasks rows.now) }
        ensures { ReportsArranged Self.meaning (tests letter) (take plan.tasks rows.now) memory.old memory.new result };
}

// Arranges a plan of a lawful table by a test, and reports the order or that none is found.
fn report_arranged<R: Row, Q: Test<R>>(
    plan: Open,
    test: &Q,
    rows: &[R; CAPACITY],
    memory: &mut [u8],
) -> Result<usize, Fault>
    requires { LawfulTable R.Row.meaning (take plan.tasks rows.now) }
    ensures { ReportsArranged R.Row.meaning Q.Test.answers (take plan.tasks rows.now) memory.old memory.new result }
{
    // Fixed memory, by a rule of the project, here and for rows and report.
    let mut order = [0; CAPACITY];
    let mut bounds = [0; CAPACITY];
    match plan.arrange(test, rows, &mut order, &mut bounds) {
        Ok(arranged) => report_plan(&arranged, rows, &order, &bounds, memory),
        Err(refused) => report_refusal(refused.fault, memory),
    }
}

impl TestedRow for Segmented {
    ghost tests = { segmented_test };

    fn report_by_letter(
        letter: u8,
        plan: Open,
        rows: &[Segmented; CAPACITY],
        memory: &mut [u8],
    ) -> Result<usize, Fault> {
        // A switch of ifs: a trait's constant is no pattern yet, and what a test answers belongs to its type, which a dyn would hide.
        if letter == letter_of::<Segmented, WholeJob<SegmentCurve>>() {
            report_arranged(plan, &WholeJob(SegmentCurve), rows, memory)
        } else if letter == letter_of::<Segmented, Piecewise<SegmentCurve>>() {
            report_arranged(plan, &Piecewise(SegmentCurve), rows, memory)
        } else if letter == letter_of::<Segmented, WholeJob<Ceiling>>() {
            report_arranged(plan, &WholeJob(Ceiling), rows, memory)
        } else {
            let test = Better(WholeJob(SegmentCurve), Piecewise(SegmentCurve));
            report_arranged(plan, &test, rows, memory)
        }
    }
}

impl TestedRow for Whole {
    ghost tests = { λ letter. test_j whole_kind };

    fn report_by_letter(
        _letter: u8,
        plan: Open,
        rows: &[Whole; CAPACITY],
        memory: &mut [u8],
    ) -> Result<usize, Fault> {
        report_arranged(plan, &WholeJob(Ceiling), rows, memory)
    }
}
