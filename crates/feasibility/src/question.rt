// Which questions a test may answer.
ghost use Rattle.std.specs.Prelude.{◌≡◌, true, false, MatchOption};
ghost use Rattle.feasibility.specs.Masks.{lawful_question, row_of, rows_in};
ghost use Rattle.model.specs.Rows.{all_lawful};

use crate::mask::{PLACES, holds, may_ask};
use model::row::Row;

// Whether every row of the set is lawful.
fn all_lawful<R: Row>(rows: &[R], above: u32) -> bool
    ensures { result ≡ all_lawful R.Row.meaning (rows_in R.Row.meaning rows.now above) }
{
    rows.iter()
        .take(PLACES)
        .enumerate()
        .filter(|(place, _)| holds(above, *place))
        .all(|(_, row)| row.is_lawful())
}

// Whether the place and the set are of the table, the set does not hold the place, and every row asked about is lawful.
pub fn is_lawful_question<R: Row>(rows: &[R], place: usize, above: u32) -> bool
    ensures { result ≡ lawful_question R.Row.meaning rows.now place above }
{
    may_ask(rows.len(), place, above) && rows[place].is_lawful() && all_lawful(rows, above)
}

// The row at the place, for a question that a test may answer.
pub(crate) fn lawful_row<R: Row>(rows: &[R], place: usize, above: u32) -> Option<&R>
    ensures { MatchOption result (lawful_question R.Row.meaning rows.now place above ≡ false) (λ row. (lawful_question R.Row.meaning rows.now place above ≡ true) × (row.now ≡ row_of R.Row.meaning rows.now place)) }
{
    rows.get(place)
        .filter(|_| is_lawful_question(rows, place, above))
}
