// The assignment of priorities over the memories of a plan.
ghost use Rattle.std.specs.Prelude.{◌≤◌, length};
ghost use Rattle.plan.specs.Orders.{Ordered};

use assign::order::{Left, NoOrder};
use assign::search::assign;
use feasibility::test::Test;
use model::row::Row;
use table::rows::CAPACITY;

// Finds an order of the rows and its bounds. They stand in the first entries, and the rest of the 32 are 0; if there is none, all 32 are 0.
// Slices, as to arrange by a rule of the project: a struct of the three would be made there only to be taken apart here.
pub(crate) fn find_order<R: Row, Q: Test<R>>(
    test: &Q,
    rows: &[R],
    order: &mut [u8],
    bounds: &mut [u32],
) -> Result<u32, Left>
    requires few { length rows.now ≤ CAPACITY }
    requires ordered { CAPACITY ≤ length order.old }
    requires bounded { CAPACITY ≤ length bounds.old }
    ensures { Ordered R.Row.meaning Q.Test.answers rows.now order.old order.new bounds.old bounds.new result }
{
    match assign(test, rows, order, bounds) {
        Ok(questions) => {
            order[rows.len()..CAPACITY].fill(0);
            bounds[rows.len()..CAPACITY].fill(0);
            Ok(questions)
        }
        Err(NoOrder::Stuck(left)) => {
            order[0..CAPACITY].fill(0);
            bounds[0..CAPACITY].fill(0);
            Err(left)
        }
        Err(NoOrder::NoRoom) => unreachable(),
    }
}
