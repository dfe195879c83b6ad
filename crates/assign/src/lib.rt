// The assignment of priorities: levels are filled from the lowest up, each by the first unplaced task in table order that has a bound with
// all other unplaced tasks above it. Written once, for every kind of row and every feasibility test that keeps the rules.
#![tactic(auto)]

pub mod candidate;
pub mod laws;
pub mod order;
pub mod search;
