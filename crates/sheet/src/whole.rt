// The commands of whole rows.
ghost use Rattle.sheet.specs.WholeSheets.{whole_grammar, whole_letters};
ghost use Rattle.sheet.specs.Bytes.{whole_byte};

use crate::bytes::{END, WHOLE, WHOLE_TASK};
use crate::command::{CommandFault, Effect};
use crate::draft::{Draft, SheetRow};
use crate::operands::{four, operands, two};
use curves::ceiling::Ceiling;
use feasibility::letter::letter_of;
use feasibility::whole_job::WholeJob;
use model::whole::Whole;

// A whole row is one command, so nothing is left over between commands.
#[derive(Clone, Copy)]
pub struct WholeDraft;

impl Draft<Whole> for WholeDraft {
    ghost grammar = { whole_grammar };

    ghost mark = { whole_byte };

    ghost letters = { whole_letters };

    fn kind_byte() -> u8 {
        WHOLE
    }

    fn takes_letter(letter: u8) -> bool {
        letter == letter_of::<Whole, WholeJob<Ceiling>>()
    }

    fn start() -> WholeDraft {
        WholeDraft
    }

    fn command(&mut self, byte: u8, rest: &[u8]) -> Result<(Effect<Whole>, usize), CommandFault> {
        match byte {
            WHOLE_TASK => {
                let operands = operands(rest, 18)?;
                let row = Whole {
                    id: two(operands, 0),
                    period: four(operands, 2),
                    deadline: four(operands, 6),
                    compute: four(operands, 10),
                    suspend: four(operands, 14),
                };
                Ok((Effect::Completes(row), operands.len()))
            }
            END => Ok((Effect::Ends, 0)),
            _ => Err(CommandFault::NotAllowed),
        }
    }
}

impl SheetRow for Whole {
    type Draft = WholeDraft;
}
