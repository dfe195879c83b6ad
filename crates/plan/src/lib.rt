// Plans of tasks. Rows are entered into an open plan; arranging it gives an arranged plan, off which the order and its bounds are read, and
// reopening that one gives an open plan again. A plan is plain numbers: its rows, order and bounds lie in memory that is lent to each call.
#![tactic(auto)]

pub mod laws;
mod memory;
mod order;
pub mod stage;
