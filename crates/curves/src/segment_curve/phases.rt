// The phases of a lawful row: its segments job after job, beginning with one of the first job.
ghost use Rattle.std.specs.Prelude.{◌≡◌, ℕ, ◌+◌, ◌-◌, ◌<◌, ◌≤◌, true};
ghost use Rattle.model.specs.Rows.{limit};
ghost use Rattle.model.specs.Segments.{all_ticks, least_gaps, segmented_lawful};
ghost use Rattle.model.specs.SegmentedRows.{segmented_shape, segments_of};
ghost use Rattle.curves.specs.SegmentCurve.{row_gap_after, row_work, row_work_from};

use model::row::Row;
use model::segmented::Segmented;

#[derive(Clone, Copy)]
pub(super) struct Phases<'a> {
    pub(super) row: &'a Segmented,
    ghost lawful: { segmented_lawful segmented_shape row.now ≡ true },
}

impl<'a> Phases<'a> {
    // The ticks of a job whose suspensions are all as short as they can be.
    #[tactic(auto, using(crate::proofs::RowSegments::shortest_fits))]
    fn shortest_job(&self) -> u32
        ensures { result ≡ all_ticks (segments_of self.now.row.now) + least_gaps (segments_of self.now.row.now) }
    {
        (self.row.compute() + self.row.least_suspend()) as u32
    }

    // The gap after segment j.
    #[tactic(auto, using(crate::proofs::RowSegments::gaps))]
    fn gap_after(&self, j: usize) -> u32
        ensures { result ≡ row_gap_after segmented_shape self.now.row.now j }
    {
        let count = self.row.count as usize;
        let place = j % count;
        if place + 1 != count {
            self.row.least[place]
        } else if j <= count {
            self.row.period - self.row.deadline
        } else {
            self.row.period - self.shortest_job()
        }
    }

    // The work of the segments `from` to `to` in some time, and the time left after them.
    #[tactic(auto, using(crate::proofs::RowSegments::one_more))]
    fn work_between(&self, from: usize, to: usize, time: u32) -> (u32, u32)
        requires { from ≤ to }
        ensures within { result.0 + result.1 ≤ time }
        ensures parts { (n : ℕ) → row_work_from segmented_shape self.now.row.now ((to - from) + n) from time ≡ result.0 + row_work_from segmented_shape self.now.row.now n to result.1 }
    {
        let mut work: u32 = 0;
        let mut left = time;
        // A fold would carry the two numbers as a pair, with the same three lines inside.
        for j in from..to {
            let cost = self.row.cost(j % self.row.count as usize);
            work += cost.min(left);
            left = left.saturating_sub(cost).saturating_sub(self.gap_after(j));
        }
        (work, left)
    }

    // The work of a phase in a window. From the third job on the jobs come one every period, so whole periods are not gone through one by one.
    pub(super) fn work_of(&self, phase: usize, window: u32) -> u32
        requires known { phase < self.now.row.now.count }
        requires short { window ≤ limit }
        ensures { result ≡ row_work segmented_shape self.now.row.now window phase }
    {
        let count = self.row.count as usize;
        let (first, left) = self.work_between(phase, 2 * count, window);
        let (last, _) = self.work_between(2 * count, 3 * count, left % self.row.period);
        first + (left / self.row.period) * self.row.compute() as u32 + last
    }
}
