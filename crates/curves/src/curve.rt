// What every workload curve offers.
ghost use Rattle.std.specs.Prelude.{◌≡◌, ℕ};
ghost use Rattle.curves.specs.Curves.{CurveEdges, CurveRules, Workload};

use model::row::Row;

pub trait Curve<R: Row> {
    // The letter of the whole-job test over this curve.
    const LETTER: u8;

    ghost LETTER: { ℕ };

    // What the curve gives, and that letter.
    ghost workload: { Workload R };

    // The ticks of the row's task in a window of t ticks.
    fn ticks(&self, row: &R, t: u32) -> u32
        ensures { result ≡ workload.ticks row.now t };

    // It never falls and stays small, and no task passes it in a lawful run.
    ghost keeps: { CurveRules R.Row.meaning workload };

    // What it gives for rows that are not lawful, and past the longest window.
    ghost edges: { CurveEdges R.Row.meaning workload };

    // The workload's letter is the constant.
    ghost named: { workload.letter ≡ LETTER };
}
