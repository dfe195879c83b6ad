// The smallest window into which some ticks of a task fit, with what the tasks above it run there.
ghost use Rattle.std.specs.Prelude.{◌≡◌, ◌^◌, ◌<◌};
ghost use Rattle.feasibility.specs.Masks.{rows_in};
ghost use Rattle.feasibility.specs.Windows.{demand, fits, least};

use crate::mask::{PLACES, holds};
use curves::curve::Curve;
use model::row::Row;

// The tasks above a level: the rows of a table whose places are in the set, and the curve that says what each runs in a window.
#[derive(Drop)]
pub struct Above<'a, R, C> {
    pub curve: &'a C,
    pub rows: &'a [R],
    pub set: u32,
}

impl<R: Row, C: Curve<R>> Above<'_, R, C> {
    // What the curves of the rows in the set give together at t: 32 numbers of 32 bits at the most.
    pub fn demand(&self, t: u32) -> u64
        ensures small { result < 2 ^ 37 }
        ensures sum { result ≡ demand C.Curve.workload.ticks (rows_in R.Row.meaning self.now.rows.now self.now.set) t }
    {
        let set = self.set;
        // A cut slice, and 0 for each row outside the set: with `take` and `filter` a search over whole rows took up to 1.7 times as long.
        self.rows[..self.rows.len().min(PLACES)]
            .iter()
            .enumerate()
            .map(|(place, row)| {
                if holds(set, place) {
                    u64::from(self.curve.ticks(row, t))
                } else {
                    0
                }
            })
            .sum()
    }

    // The smallest t up to a limit such that `own` ticks and the curves of the rows in the set at t fit into t ticks. Where they do not
    // fit, no window shorter than what they ask for at t does, since curves never fall: so the search goes on there.
    pub fn smallest(&self, own: u64, limit: u32) -> Option<u32>
        ensures { result ≡ least (fits C.Curve.workload.ticks own (rows_in R.Row.meaning self.now.rows.now self.now.set)) limit }
    {
        let mut t = own;
        // No range counts t: it jumps to what is asked for there.
        while t <= u64::from(limit) {
            let next = own + self.demand(t as u32);
            if next <= t {
                return Some(t as u32);
            }
            t = next;
        }
        None
    }
}
