// The letter of a test, for those who have to rely on it.
ghost use Rattle.std.specs.Prelude.{◌≡◌};

use crate::test::Test;
use model::row::Row;

// The associated constant, which a law of the trait says is the letter of what the test answers.
pub fn letter_of<R: Row, Q: Test<R>>() -> u8
    ensures { result ≡ Q.Test.answers.letter }
{
    Q::LETTER
}
