// Refusals, and a table of rows in lent memory. Every refusal has its number, every layer its letter, and a fault says which refusal was met,
// in which layer and at which place. A table is the first rows of a memory that the caller lends; it takes at most 32 lawful rows, no id twice.
#![tactic(auto)]

pub mod fault;
pub mod refusal;
pub mod rows;
