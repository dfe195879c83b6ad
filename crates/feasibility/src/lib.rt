// Feasibility tests: a response-time bound for a task under a set of tasks above it, or none. The trait `Test` says what every test offers
// and which rules it keeps. A test is asked with a table of rows, the place of the task, and the set of places above it as a 32-bit number.
// The whole-job test and the piecewise test are built over any curve, and the better of two over any two tests; each keeps the rules
// because the curve, or the two tests, do.
#![tactic(auto)]

pub mod better;
pub mod laws;
pub mod letter;
pub mod mask;
pub mod piecewise;
pub mod question;
pub mod smallest;
pub mod test;
pub mod whole_job;
