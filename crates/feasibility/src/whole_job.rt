// The whole-job test over a curve.
ghost use Rattle.feasibility.specs.WholeJobs.{whole_job_answers};
ghost use Rattle.feasibility.specs.WholeJobsLemmas.{whole_job_test};

use crate::question::lawful_row;
use crate::smallest::Above;
use crate::test::Test;
use curves::curve::Curve;
use model::row::Row;

#[derive(Drop)]
pub struct WholeJob<C>(pub C);

impl<R: Row, C: Curve<R>> Test<R> for WholeJob<C> {
    const LETTER: u8 = C::LETTER;

    ghost LETTER = { C.Curve.LETTER };

    ghost answers = { whole_job_answers R.Row.meaning C.Curve.workload };

    ghost keeps = { whole_job_test R.Row.meaning C.Curve.workload C.Curve.keeps };

    ghost named = { C.Curve.named };

    // The smallest t up to the deadline with C + S + (curves of the set at t) ≤ t.
    fn bound(&self, rows: &[R], place: usize, above: u32) -> Option<u32> {
        let row = lawful_row(rows, place, above)?;
        let own = row.compute() + row.suspend();
        let above = Above {
            curve: &self.0,
            rows,
            set: above,
        };
        above.smallest(own, row.deadline())
    }
}
