// The search for an order of rows, from the lowest level up.
ghost use Rattle.std.specs.Prelude.{◌≡◌, ◌-◌, ◌^◌, ◌≤◌};
ghost use Rattle.assign.specs.Search.{Means, Searched, StuckExactly, Tells};

use crate::candidate::Candidate;
use crate::order::{Left, NoOrder};
use feasibility::mask::{PLACES, holds};
use feasibility::test::Test;
use model::row::Row;

// The mask of all places below `count`.
fn full(count: usize) -> u32
    requires { count ≤ 32 }
    ensures { result ≡ 2 ^ count - 1 }
{
    ((1u64 << count) - 1) as u32
}

// Finds an order of the rows and their bounds, the highest level first, and answers the number of questions put to the test.
pub fn assign<R: Row, Q: Test<R>>(
    test: &Q,
    rows: &[R],
    order: &mut [u8],
    bounds: &mut [u32],
) -> Result<u32, NoOrder>
    ensures searched { Searched R.Row.meaning Q.Test.answers rows.now order.old order.new bounds.old bounds.new result }
    ensures tells { Tells R.Row.meaning Q.Test.answers rows.now order.old bounds.old result }
    ensures means { Means R.Row.meaning Q.Test.answers rows.now order.new bounds.new result }
    ensures exactly { StuckExactly R.Row.meaning Q.Test.answers rows.now order.old bounds.old result }
{
    let count = rows.len();
    if count > PLACES || order.len() < count || bounds.len() < count {
        return Err(NoOrder::NoRoom);
    }
    let mut pool = full(count);
    let mut questions: u32 = 0;
    'levels: for level in (0..count).rev() {
        let mut places = 0..count;
        // By a rule of the project, a loop over the candidates that yields the placed one by `break`.
        let (found, bound) = 'candidates: loop {
            let Some(place) = places.next() else {
                return Err(NoOrder::Stuck(Left {
                    mask: pool,
                    questions,
                }));
            };
            if holds(pool, place) {
                let mut candidate = Candidate::take(&mut pool, place);
                questions += 1;
                if let Some(bound) = test.bound(rows, place, candidate.rest()) {
                    candidate.place();
                    break 'candidates (place, bound);
                }
            }
        };
        order[level] = found as u8;
        bounds[level] = bound;
    }
    Ok(questions)
}
