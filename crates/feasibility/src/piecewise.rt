// The piecewise test for segmented rows, over a curve.
ghost use Rattle.std.specs.Prelude.{◌≡◌, ◌+◌, ◌^◌, ◌<◌, ◌≤◌, IfSome, Some, refl};
ghost use Rattle.feasibility.specs.Masks.{rows_in};
ghost use Rattle.feasibility.specs.Pieces.{part, piecewise_answers, sum_of, up_to};
ghost use Rattle.model.specs.SegmentedRows.{segmented_kind, segmented_shape, segments_of};
ghost use Rattle.feasibility.specs.PiecesLemmas.{piecewise_test};

use crate::question::lawful_row;
use crate::smallest::Above;
use crate::test::Test;
use curves::curve::Curve;
use model::row::Row;
use model::segmented::Segmented;

#[derive(Drop)]
pub struct Piecewise<C>(pub C);

impl<C: Curve<Segmented>> Above<'_, Segmented, C> {
    // The sum of r[j] over the segments of a row: none if one is missing.
    fn all_parts(&self, row: &Segmented) -> Option<u64>
        requires { 1 ≤ row.now.count }
        ensures small { IfSome result (λ n. n < 2 ^ 40) }
        ensures sum { result ≡ sum_of (part C.Curve.workload.ticks row.now.deadline (rows_in segmented_kind self.now.rows.now self.now.set)) (segments_of row.now) }
    {
        let mut total: u64 = 0;
        // A `for` with `?`: of a chain that sums Options the library does not say that it is none where one of them is.
        for j in 0..usize::from(row.count) {
            let own = u64::from(row.cost(j));
            total += u64::from(self.smallest(own, row.deadline)?);
        }
        Some(total)
    }
}

// S and the sum of all r[j] together, if that is at most the deadline.
fn within_deadline(suspend: u64, parts: u64, deadline: u32) -> Option<u32>
    requires { suspend + parts < 2 ^ 64 }
    ensures { result ≡ up_to deadline (Some (suspend + parts)) }
{
    u32::try_from(suspend + parts)
        .ok()
        .filter(|total| *total <= deadline)
}

impl<C: Curve<Segmented>> Test<Segmented> for Piecewise<C> {
    const LETTER: u8 = b'A';

    ghost LETTER = { 65 };

    ghost answers = { piecewise_answers segmented_shape C.Curve.workload };

    ghost keeps = { piecewise_test segmented_shape C.Curve.workload C.Curve.keeps };

    ghost named = { refl };

    // S plus all r[j], where r[j] is the smallest t up to the deadline with C[j] + (curves of the set at t) ≤ t.
    fn bound(&self, rows: &[Segmented], place: usize, above: u32) -> Option<u32> {
        let row = lawful_row(rows, place, above)?;
        let above = Above {
            curve: &self.0,
            rows,
            set: above,
        };
        let parts = above.all_parts(row)?;
        within_deadline(row.suspend(), parts, row.deadline)
    }
}
