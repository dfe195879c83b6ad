// The report's bytes: an order with its bounds, or a refusal, as lines of decimal numbers in memory that the caller lends.
#![tactic(auto)]

pub mod fields;
pub mod order;
pub mod refused;
