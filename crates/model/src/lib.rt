// What a task is. A row holds one task: an id, a period, a deadline, how long it computes and how long it suspends itself. The trait `Row`
// says what every kind of row offers and means, and two kinds are here: segmented rows, which list their segments and suspensions, and
// whole rows, which have only the totals. The patterns that a job may follow and the rules that every kind keeps stand in specs/.
#![tactic(auto)]

pub mod limits;
pub mod row;
pub mod runs;
pub mod segmented;
pub mod whole;
