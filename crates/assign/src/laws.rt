// What is proved of the assignment, for every kind of row, every test that keeps the rules and every table.
ghost use Rattle.assign.specs.Laws.{AssignmentLaws};

pub fn assignment_stands<R>()
    ensures { AssignmentLaws R }
{}
