// Whole sheets.
ghost use Rattle.std.specs.Prelude.{◌≤◌, length, IfOk};
ghost use Rattle.table.specs.Tables.{append_refusal};
ghost use Rattle.sheet.specs.Readers.{verdict_of};
ghost use Rattle.sheet.specs.Sheets.{Replaces, Sheet};

use crate::draft::{Draft, SheetRow};
use crate::reader::parse_commands;
use table::fault::Fault;
use table::refusal::Refusal;
use table::rows::{CAPACITY, blank_from};

// The kind, the letter and the commands, into the first rows of a memory of 32. How many rows there are, and the letter.
fn parse<R: SheetRow>(bytes: &[u8], rows: &mut [R]) -> Result<(usize, u8), Fault>
    requires room { CAPACITY ≤ length rows.old }
    ensures parses { Sheet R.Draft.Draft.grammar (append_refusal R.Row.meaning) R.Draft.Draft.mark R.Draft.Draft.letters bytes.now (verdict_of rows.new result) }
    ensures few { IfOk result (λ x. x.0 ≤ CAPACITY) }
{
    let Some((kind, rest)) = bytes.split_first() else {
        return Err(Fault::InSheet(Refusal::SheetCut, 0));
    };
    if *kind != R::Draft::kind_byte() {
        return Err(Fault::InSheet(Refusal::ByteNotAllowed, 0));
    }
    let Some((letter, commands)) = rest.split_first() else {
        return Err(Fault::InSheet(Refusal::SheetCut, 1));
    };
    if !R::Draft::takes_letter(*letter) {
        return Err(Fault::InSheet(Refusal::ByteNotAllowed, 1));
    }
    let count = parse_commands::<R>(commands, 2, rows)?;
    Ok((count, *letter))
}

// Replaces a table by the sheet's: how many rows it has, and the sheet's letter. Blank rows stand after the rows up to place 32, and there is
// no row if the sheet is refused. If the memory is too short, nothing is written.
pub fn parse_sheet<R: SheetRow>(bytes: &[u8], rows: &mut [R]) -> Result<(usize, u8), Fault>
    ensures { Replaces R.Draft.Draft.grammar (append_refusal R.Row.meaning) R.Draft.Draft.mark R.Draft.Draft.letters R.Row.meaning.blank bytes.now rows.old rows.new result }
{
    if rows.len() < CAPACITY {
        return Err(Fault::InSheet(Refusal::ShortMemory, 0));
    }
    let read = parse::<R>(bytes, &mut rows[..CAPACITY]);
    blank_from(rows, read.map_or(0, |(count, _)| count));
    read
}
