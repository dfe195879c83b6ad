// What segmented rows mean: which are lawful, and their totals.
ghost use Rattle.std.specs.Prelude.{◌≡◌, ◌≤◌, ◌-◌, ◌==◌, cond, drop, length, nat_le, nat_lt, slice_index, sum, take};
ghost use Rattle.std.specs.List.{list_all, zip};
ghost use Rattle.model.specs.Segments.{least_gaps, ranged};
ghost use Rattle.model.specs.SegmentedRows.{segment_cost, segmented_kind, segments_of, suspension_most, well_formed};

use crate::limits::within_limits;
use crate::row::Row;
use crate::segmented::{SEGMENTS, Segmented};

// Whether each value from a place on is 0.
fn zero_from(values: &[u32], from: usize) -> bool
    ensures { result ≡ list_all (λ value. value == 0) (drop from values.now) }
{
    values.iter().skip(from).all(|value| *value == 0)
}

// The value at a place, of the first `used` places: 0 past them.
fn value_at(values: &[u32], used: usize, place: usize) -> u32
    ensures { result ≡ cond (nat_lt place used) (slice_index values.now place) 0 }
{
    if place < used {
        values.get(place).copied().unwrap_or(0)
    } else {
        0
    }
}

// Whether each of the first `used` values is at most the one beside it.
fn in_order(lows: &[u32], highs: &[u32], used: usize) -> bool
    ensures { result ≡ list_all (λ p. nat_le p.0 p.1) (take used (zip lows.now highs.now)) }
{
    lows.iter()
        .zip(highs)
        .take(used)
        .all(|(low, high)| low <= high)
}

// The values in the first `used` places together.
fn total(values: &[u32], used: usize) -> u64
    requires { length values.now ≤ SEGMENTS }
    ensures { result ≡ sum (take used values.now) }
{
    values
        .iter()
        .take(used)
        .map(|value| u64::from(*value))
        .sum()
}

impl Segmented {
    // How many suspensions there are: one between each segment and the next.
    fn suspensions(&self) -> usize
        ensures { result ≡ self.now.count - 1 }
    {
        (self.count as usize).saturating_sub(1)
    }

    // The most ticks of segment j: 0 if the row has no such segment.
    pub fn cost(&self, j: usize) -> u32
        ensures { result ≡ segment_cost self.now j }
    {
        value_at(&self.costs, self.count as usize, j)
    }

    // The most ticks of the suspension after segment j: 0 if no segment follows it.
    pub fn suspension(&self, j: usize) -> u32
        ensures { result ≡ suspension_most self.now j }
    {
        value_at(&self.most, self.suspensions(), j)
    }

    // The least that a job suspends itself in all.
    #[tactic(auto, using(crate::proofs::Places::least_are))]
    pub fn least_suspend(&self) -> u64
        ensures { result ≡ least_gaps (segments_of self.now) }
    {
        total(&self.least, self.suspensions())
    }

    // Whether there are 1 to 8 segments, and unused places are 0.
    #[tactic(auto, using(crate::proofs::Places::zeros))]
    fn is_well_formed(&self) -> bool
        ensures { result ≡ well_formed self.now }
    {
        let count = self.count as usize;
        (1..=SEGMENTS).contains(&count)
            && zero_from(&self.costs, count)
            && zero_from(&self.least, self.suspensions())
            && zero_from(&self.most, self.suspensions())
    }

    // Whether no suspension's least passes its most.
    fn is_ranged(&self) -> bool
        requires { self.now.count ≤ SEGMENTS }
        ensures { result ≡ ranged (segments_of self.now) }
    {
        in_order(&self.least, &self.most, self.suspensions())
    }
}

impl Row for Segmented {
    ghost meaning = { segmented_kind };

    fn is_lawful(&self) -> bool {
        self.is_well_formed()
            && self.is_ranged()
            && within_limits(self.period, self.deadline, self.compute(), self.suspend())
    }

    // Both kinds read `id`, `period`, `deadline`, each its own public field: a part of both would stand between a row and its fields.
    fn id(&self) -> u16 {
        self.id
    }

    fn period(&self) -> u32 {
        self.period
    }

    fn deadline(&self) -> u32 {
        self.deadline
    }

    #[tactic(auto, using(crate::proofs::Places::ticks_are))]
    fn compute(&self) -> u64 {
        total(&self.costs, self.count as usize)
    }

    #[tactic(auto, using(crate::proofs::Places::most_are))]
    fn suspend(&self) -> u64 {
        total(&self.most, self.suspensions())
    }

    fn blank() -> Segmented {
        Segmented::default()
    }
}
