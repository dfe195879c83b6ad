// Asks the feasibility tests and compares what they answer with known answers. Each line of the input has the letter of a test, a sheet in
// hexadecimal, the place asked about, the set of places above it as a number, and the bound or `none`, with a tab between each and the next.
// Lines that begin with # are comments.
#![tactic(auto)]

mod ask;
mod vector;

use known_values::compare_heapless;
use std::io;
use vector::AnswerVector;

fn main(rt: HostRuntime) -> io::Result<()> {
    compare_heapless::<AnswerVector>(rt, "answers")
}
