// A segmented task as its commands in a sheet, in hexadecimal.
use arrayvec::ArrayVec;
use hexadecimal::decoded;
use model::row::Row;
use model::segmented::Segmented;
use sheet::bytes::{END, SEGMENTED};
use sheet::sheet::parse_sheet;
use table::rows::CAPACITY;

// Enough for a kind, a letter, a task of eight segments and the closing command.
const SHEET_BYTES: usize = 128;

// A sheet that has this task alone, if the text spells bytes and no more than a task has.
fn sheet_of(text: &[u8]) -> Option<ArrayVec<u8, SHEET_BYTES>> {
    let commands = decoded::<SHEET_BYTES>(text)?;
    let mut sheet = ArrayVec::new();
    sheet.try_extend_from_slice(&[SEGMENTED, b'C']).ok()?;
    sheet.try_extend_from_slice(&commands).ok()?;
    sheet.try_push(END).ok()?;
    Some(sheet)
}

// The row of the task.
pub fn read_task(text: &[u8]) -> Option<Segmented> {
    let sheet = sheet_of(text)?;
    let mut rows = [Segmented::blank(); CAPACITY];
    match parse_sheet::<Segmented>(&sheet, &mut rows) {
        Ok((1, _)) => Some(rows[0]),
        _ => None,
    }
}
