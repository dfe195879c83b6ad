// Questions about the tasks of a sheet.
ghost use Rattle.std.specs.Prelude.{◌≡◌, ◌≢◌};
ghost use Rattle.answer_vectors.specs.declared.ask.Unasked.TheVariants.{NoSuchTest};
ghost use Rattle.model.specs.SegmentedRows.{segmented_kind};
ghost use Rattle.model.specs.WholeRows.{whole_kind};
ghost use Rattle.planning.specs.Planned.{test_a, test_b, test_c, test_j};
ghost use Rattle.answer_vectors.specs.Named.{Named};

use curves::ceiling::Ceiling;
use curves::segment_curve::SegmentCurve;
use feasibility::better::Better;
use feasibility::letter::letter_of;
use feasibility::piecewise::Piecewise;
use feasibility::test::Test;
use feasibility::whole_job::WholeJob;
use model::row::Row;
use model::segmented::Segmented;
use model::whole::Whole;
use sheet::bytes::WHOLE;
use sheet::draft::SheetRow;
use sheet::sheet::parse_sheet;
use table::fault::Fault;
use table::rows::CAPACITY;

// Why a question was not put.
#[derive(Clone, Copy, PartialEq)]
pub enum Unasked {
    SheetRefused,
    // No test for the sheet's rows has the letter.
    NoSuchTest,
}

impl From<Fault> for Unasked {
    fn from(_: Fault) -> Unasked {
        Unasked::SheetRefused
    }
}

// The letter of a test, the place that it is asked about, and the set of places above it.
#[derive(Clone, Copy)]
pub struct Question {
    pub letter: u8,
    pub place: usize,
    pub above: u32,
}

// Reads the sheet's table into the memory, and asks about it.
fn ask_table<R: SheetRow, F>(
    sheet: &[u8],
    memory: &mut [R; CAPACITY],
    ask: F,
) -> Result<Option<u32>, Unasked>
where
    F: FnOnce(&[R]) -> Result<Option<u32>, Unasked>,
    requires callable { F.IsAlwaysCallable ask }
{
    let (tasks, _) = parse_sheet(sheet, memory)?;
    ask(&memory[..tasks])
}

impl Question {
    // The answer of a test, if the letter names it.
    fn ask_named<R: Row, Q: Test<R>>(self, test: &Q, rows: &[R]) -> Result<Option<u32>, Unasked>
        ensures named { Named R.Row.meaning Q.Test.answers self.letter rows.now self.place self.above result }
        ensures other { Q.Test.answers.letter ≢ self.letter → result ≡ Err NoSuchTest }
    {
        if self.letter == letter_of::<R, Q>() {
            Ok(test.bound(rows, self.place, self.above))
        } else {
            Err(Unasked::NoSuchTest)
        }
    }

    // The answer of the test for segmented rows that the letter names.
    fn ask_segmented(self, rows: &[Segmented]) -> Result<Option<u32>, Unasked>
        ensures whole { Named segmented_kind test_c self.letter rows.now self.place self.above result }
        ensures pieces { Named segmented_kind test_a self.letter rows.now self.place self.above result }
        ensures ceiling { Named segmented_kind (test_j segmented_kind) self.letter rows.now self.place self.above result }
        ensures better { Named segmented_kind test_b self.letter rows.now self.place self.above result }
    {
        let better = Better(WholeJob(SegmentCurve), Piecewise(SegmentCurve));
        self.ask_named(&WholeJob(SegmentCurve), rows)
            .or_else(|_| self.ask_named(&Piecewise(SegmentCurve), rows))
            .or_else(|_| self.ask_named(&WholeJob(Ceiling), rows))
            .or_else(|_| self.ask_named(&better, rows))
    }

    // The answer of the test for whole rows that the letter names.
    fn ask_whole(self, rows: &[Whole]) -> Result<Option<u32>, Unasked>
        ensures { Named whole_kind (test_j whole_kind) self.letter rows.now self.place self.above result }
    {
        self.ask_named(&WholeJob(Ceiling), rows)
    }

    // The answer about the sheet's table.
    pub fn ask(self, sheet: &[u8]) -> Result<Option<u32>, Unasked> {
        if sheet.first() == Some(&WHOLE) {
            ask_table(sheet, &mut [Whole::blank(); CAPACITY], |rows| {
                self.ask_whole(rows)
            })
        } else {
            ask_table(sheet, &mut [Segmented::blank(); CAPACITY], |rows| {
                self.ask_segmented(rows)
            })
        }
    }
}
