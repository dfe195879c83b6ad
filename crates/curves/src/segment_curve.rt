// The segment curve, for segmented rows.
ghost use Rattle.std.specs.Prelude.{◌≡◌, refl};
ghost use Rattle.model.specs.SegmentedRows.{segmented_shape};
ghost use Rattle.curves.specs.SegmentCurve.{PeakOfPhases, segment_peak, segment_workload};
ghost use Rattle.curves.specs.SegmentRules.{segment_keeps, segment_edges};

use crate::curve::Curve;
use model::limits::LIMIT;
use model::row::Row;
use model::segmented::Segmented;
use phases::Phases;

mod phases;

// The greatest work that one of the row's phases does in a window.
#[derive(Clone, Copy)]
pub struct SegmentCurve;

impl SegmentCurve {
    // That work, and the lowest phase that does it.
    pub fn peak(&self, row: &Segmented, t: u32) -> (u32, usize)
        ensures computed { result ≡ segment_peak segmented_shape row.now t }
        ensures highest { PeakOfPhases segmented_shape row.now t result }
    {
        if !row.is_lawful() {
            return (0, 0);
        }
        let window = t.min(LIMIT);
        let phases = Phases { row };
        let mut best = (phases.work_of(0, window), 0);
        // `max_by_key` keeps the last of equals, so a chain would go through the phases backwards to answer the lowest.
        for phase in 1..row.count as usize {
            let work = phases.work_of(phase, window);
            if best.0 < work {
                best = (work, phase);
            }
        }
        best
    }
}

impl Curve<Segmented> for SegmentCurve {
    const LETTER: u8 = b'C';

    ghost LETTER = { 67 };

    ghost workload = { segment_workload segmented_shape };

    ghost keeps = { segment_keeps segmented_shape };

    ghost edges = { segment_edges segmented_shape };

    ghost named = { refl };

    fn ticks(&self, row: &Segmented, t: u32) -> u32 {
        self.peak(row, t).0
    }
}
