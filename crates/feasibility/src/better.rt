// The better of two tests for the same rows.
ghost use Rattle.std.specs.Prelude.{refl};
ghost use Rattle.feasibility.specs.Betters.{better_answers};
ghost use Rattle.feasibility.specs.BettersLemmas.{better_test};

use crate::test::Test;
use model::row::Row;

#[derive(Drop)]
pub struct Better<P, Q>(pub P, pub Q);

impl<R: Row, P: Test<R>, Q: Test<R>> Test<R> for Better<P, Q> {
    const LETTER: u8 = b'B';

    ghost LETTER = { 66 };

    ghost answers = { better_answers P.Test.answers Q.Test.answers };

    ghost keeps = { better_test R.Row.meaning P.Test.answers Q.Test.answers P.Test.keeps Q.Test.keeps };

    ghost named = { refl };

    // The smaller of the two bounds, and none only if both give none.
    fn bound(&self, rows: &[R], place: usize, above: u32) -> Option<u32> {
        let first = self.0.bound(rows, place, above);
        let second = self.1.bound(rows, place, above);
        first.into_iter().chain(second).min()
    }
}
