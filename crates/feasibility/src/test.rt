// What every feasibility test offers.
ghost use Rattle.std.specs.Prelude.{◌≡◌, ℕ};
ghost use Rattle.feasibility.specs.Tests.{Answers, TestRules};
ghost use Rattle.feasibility.specs.Masks.{asked};

use model::row::Row;

pub trait Test<R: Row> {
    // The letter by which a sheet names the test.
    const LETTER: u8;

    ghost LETTER: { ℕ };

    // What the test answers, and that letter.
    ghost answers: { Answers R };

    // The bound of the task at a place of the table, with the tasks of the set above it. None too if a row asked about is not lawful, the
    // set holds the place, or a place names no task.
    fn bound(&self, rows: &[R], place: usize, above: u32) -> Option<u32>
        ensures { result ≡ asked R.Row.meaning answers rows.now place above };

    // What it answers keeps the rules of a test.
    ghost keeps: { TestRules R.Row.meaning answers };

    // The letter of the answers is the constant.
    ghost named: { answers.letter ≡ LETTER };
}
