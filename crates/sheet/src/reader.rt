// The reader of sheets: command by command.
ghost use Rattle.std.specs.Prelude.{◌+◌, ◌^◌, ◌<◌, ◌≤◌, [], length, IfOk};
ghost use Rattle.table.specs.Tables.{append_refusal};
ghost use Rattle.sheet.specs.Language.{Parses};
ghost use Rattle.sheet.specs.Readers.{outcome_of};

use crate::command::Effect;
use crate::draft::{Draft, SheetRow};
use table::fault::Fault;
use table::refusal::Refusal;
use table::rows::{CAPACITY, append};

// Reads commands into the first rows of a memory of 32; `place` is the first one's place in the sheet. How many rows there are.
pub(crate) fn parse_commands<R: SheetRow>(
    mut commands: &[u8],
    mut place: usize,
    rows: &mut [R],
) -> Result<usize, Fault>
    requires within { place + length commands.now < 2 ^ 64 }
    requires room { CAPACITY ≤ length rows.old }
    ensures parses { Parses R.Draft.Draft.grammar (append_refusal R.Row.meaning) R.Draft.Draft.grammar.start [] place commands.entry.now (outcome_of rows.new result) }
    ensures few { IfOk result (λ n. n ≤ CAPACITY) }
{
    let mut draft = R::Draft::start();
    // How many rows are complete. Beside the lent rows, since the product has no heap for a Vec.
    let mut count = 0;
    // No iterator: how far a command reaches, only the draft says.
    loop {
        let Some((byte, rest)) = commands.split_first() else {
            return Err(Fault::InSheet(Refusal::SheetCut, place));
        };
        let answer = draft.command(*byte, rest);
        let (effect, width) = answer.map_err(|fault| fault.at(place))?;
        let next = place + 1 + width;
        commands = &rest[width..];
        match effect {
            Effect::Continues => {}
            Effect::Completes(row) => {
                append(rows, count, row).map_err(|fault| Fault::RowInSheet(fault, place))?;
                count += 1;
            }
            Effect::Ends if commands.is_empty() => return Ok(count),
            Effect::Ends => return Err(Fault::InSheet(Refusal::BytesAfterEnd, next)),
            Effect::TooManySegments => {
                return Err(Fault::InSheet(Refusal::TooManySegments, place));
            }
        }
        place = next;
    }
}
