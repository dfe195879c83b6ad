// Workload curves: how many ticks a task can run in a window of t ticks, whatever the run. The trait `Curve` says what every curve offers
// and which rules it keeps; a curve serves the rows of a kind, and a feasibility test is built over any curve. Two curves are here: the
// ceiling curve, for every kind of row, and the segment curve, for segmented rows.
#![tactic(auto)]

pub mod ceiling;
pub mod curve;
pub mod laws;
pub mod segment_curve;
#[cfg(test)]
mod tests;
