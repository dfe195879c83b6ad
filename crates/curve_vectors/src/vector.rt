// One line of known values.
ghost use Rattle.std.specs.Prelude.{◌≡◌, true};
ghost use Rattle.model.specs.SegmentedRows.{segmented_kind, segmented_shape};
ghost use Rattle.curves.specs.CeilingCurve.{ceiling as ceiling_of};
ghost use Rattle.curves.specs.SegmentCurve.{segment_peak};

use crate::task::read_task;
use curves::ceiling::Ceiling;
use curves::curve::Curve;
use curves::segment_curve::SegmentCurve;
use known_values::HeaplessVector;
use model::segmented::Segmented;

#[derive(Drop)]
pub struct CurveVector {
    row: Segmented,
    window: u32,
    work: u32,
    phase: usize,
    ceiling: u32,
}

impl CurveVector {
    // The numbers that follow the task.
    fn with_numbers(row: Segmented, fields: &str) -> Option<CurveVector> {
        let mut fields = fields.split('\t');
        let window = fields.next()?.parse::<u32>().ok()?;
        let work = fields.next()?.parse::<u32>().ok()?;
        let phase = fields.next()?.parse::<usize>().ok()?;
        let ceiling = fields.next()?.parse::<u32>().ok()?;
        Some(CurveVector {
            row,
            window,
            work,
            phase,
            ceiling,
        })
    }
}

impl HeaplessVector for CurveVector {
    fn read(line: &str) -> Option<CurveVector> {
        let (task, numbers) = line.split_once('\t')?;
        let row = read_task(task.as_bytes())?;
        CurveVector::with_numbers(row, numbers)
    }

    // Whether both curves give the known values.
    fn holds(&self) -> bool
        ensures segment { result ≡ true → segment_peak segmented_shape self.now.row self.now.window ≡ (self.now.work, self.now.phase) }
        ensures ceiling { result ≡ true → ceiling_of segmented_kind self.now.row self.now.window ≡ self.now.ceiling }
    {
        let peak = SegmentCurve.peak(&self.row, self.window);
        let ceiling = Ceiling.ticks(&self.row, self.window);
        peak == (self.work, self.phase) && ceiling == self.ceiling
    }
}
