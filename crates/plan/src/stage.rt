// The stages of a plan. Each call takes the stage that it needs, so a bound is never read off an open plan, and no row changes in an arranged one.
ghost use Rattle.std.specs.Prelude.{◌≤◌};

use table::fault::Fault;

pub mod arranged_calls;
pub mod open_calls;

// A plan whose rows may change.
// By a rule of the project each stage is a type of its own, of plain numbers, so the accessor `tasks` stands at both.
#[derive(Drop)]
pub struct Open {
    tasks: usize,
    ghost few: { tasks ≤ 32 },
}

// A plan whose order and bounds stand in memory, found with so many questions.
#[derive(Drop)]
pub struct Arranged {
    tasks: usize,
    questions: u32,
    ghost few: { tasks ≤ 32 },
}

// A refused arrange: the open plan again and the fault. Beside it stand the places of the tasks that are left, as a number with bit p set for
// each place p, and the number of questions put; both are 0 unless no task could take the next level.
#[derive(Drop)]
pub struct NotArranged {
    pub plan: Open,
    pub fault: Fault,
    pub left: u32,
    pub questions: u32,
}
