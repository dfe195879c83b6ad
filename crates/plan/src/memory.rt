// The memories that are lent to a plan.
ghost use Rattle.std.specs.Prelude.{◌≡◌};
ghost use Rattle.plan.specs.Calls.{some_short};

use table::rows::CAPACITY;

// Whether a memory has too few entries.
// Slices, as to each public call by a rule of the project: a struct of the three would be made at each call only to be taken apart again.
pub(crate) fn some_short<R>(rows: &[R], order: &[u8], bounds: &[u32]) -> bool
    ensures { result ≡ some_short rows.now order.now bounds.now }
{
    rows.len() < CAPACITY || order.len() < CAPACITY || bounds.len() < CAPACITY
}
