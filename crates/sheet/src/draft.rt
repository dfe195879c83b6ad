// What each kind of row with a sheet offers: a draft of a row, which commands change.
ghost use Rattle.std.specs.Prelude.{◌≡◌, ℕ, Bool};
ghost use Rattle.sheet.specs.Commands.{command_answer, command_left};
ghost use Rattle.sheet.specs.Language.{Grammar};

use crate::command::{CommandFault, Effect};
use model::row::Row;

pub trait Draft<R> {
    // Which commands may stand where, and what they do.
    ghost grammar: { Grammar Self R };

    // The sheet's first byte, and the letters that may follow it.
    ghost mark: { ℕ };

    ghost letters: { ℕ → Bool };

    fn kind_byte() -> u8
        ensures { result ≡ mark };

    fn takes_letter(letter: u8) -> bool
        ensures { result ≡ letters letter };

    // The draft before the first command.
    fn start() -> Self
        ensures { result ≡ grammar.start };

    // One command, by its byte and the bytes after it: its effect and the number of its operand bytes.
    fn command(&mut self, byte: u8, rest: &[u8]) -> Result<(Effect<R>, usize), CommandFault>
        ensures does { result ≡ command_answer grammar self.old byte rest.now }
        ensures leaves { self.new ≡ command_left grammar self.old byte rest.now };
}

// A kind of row with a sheet.
pub trait SheetRow: Row {
    // The draft in which its rows are read.
    type Draft: Draft<Self> + Drop;
}
