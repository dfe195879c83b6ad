// What one command does, and what can be wrong with it by itself.
ghost use Rattle.std.specs.Prelude.{◌≡◌};
ghost use Rattle.sheet.specs.Commands.{fault_at};

use table::fault::Fault;
use table::refusal::Refusal;

// What a command does besides changing the draft.
// No Result: by a rule of the project the language counts the ninth segment among a command's effects, met after its operands: four outcomes.
#[derive(Clone, Copy, Drop)]
pub enum Effect<R> {
    Continues,
    // A row is complete.
    Completes(R),
    Ends,
    // A suspension follows the eighth segment.
    TooManySegments,
}

// What is wrong with a command before its operands are looked at.
#[derive(Clone, Copy)]
pub enum CommandFault {
    NotAllowed,
    Cut,
}

impl CommandFault {
    // The sheet's fault, with the place of the command.
    // No From: the place is needed too, and a pair of both to convert from would be no plainer.
    pub fn at(self, place: usize) -> Fault
        ensures { result ≡ fault_at self place }
    {
        match self {
            CommandFault::NotAllowed => Fault::InSheet(Refusal::ByteNotAllowed, place),
            CommandFault::Cut => Fault::InSheet(Refusal::SheetCut, place),
        }
    }
}
