// Compares both curves with known values. Each line of the input has a task as its commands in a sheet, a window, the segment curve's work
// and lowest phase, and the ceiling curve's ticks, with a tab between each and the next. Lines that begin with # are comments.
#![tactic(auto)]

mod task;
mod vector;

use known_values::compare_heapless;
use std::io;
use vector::CurveVector;

fn main(rt: HostRuntime) -> io::Result<()> {
    compare_heapless::<CurveVector>(rt, "curves")
}
