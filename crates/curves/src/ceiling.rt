// The ceiling curve, for every kind of row.
ghost use Rattle.std.specs.Prelude.{refl};
ghost use Rattle.curves.specs.CeilingCurve.{ceiling_workload};
ghost use Rattle.curves.specs.CeilingRules.{ceiling_keeps, ceiling_edges};

use crate::curve::Curve;
use model::limits::LIMIT;
use model::row::Row;

// (t + D − C) / T rounded up, times C.
#[derive(Clone, Copy)]
pub struct Ceiling;

impl<R: Row> Curve<R> for Ceiling {
    const LETTER: u8 = b'J';

    ghost LETTER = { 74 };

    ghost workload = { ceiling_workload R.Row.meaning };

    ghost keeps = { ceiling_keeps R.Row.meaning };

    ghost edges = { ceiling_edges R.Row.meaning };

    ghost named = { refl };

    fn ticks(&self, row: &R, t: u32) -> u32 {
        if !row.is_lawful() {
            return 0;
        }
        // In 32 bits, which hold all of a lawful row's: a division in 64 costs more, and this is asked for each window.
        let compute = row.compute() as u32;
        let span = t.min(LIMIT) + row.deadline() - compute;
        span.div_ceil(row.period()) * compute
    }
}
