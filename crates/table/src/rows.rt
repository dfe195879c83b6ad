// A table of rows in lent memory. It is no struct, since its count lives in the plan and its memory is lent anew to each call.
ghost use Rattle.std.specs.Prelude.{◌≡◌, ◌≤◌, ◌<◌, length, MatchResult};
ghost use Rattle.table.specs.declared.refusal.Refusal.TheVariants.{ShortMemory};
ghost use Rattle.table.specs.Tables.{Appended, Found, Judged, Removed, Replaced, blanked, capacity, has_id, place_with_id, plan_fault, table_of};

use crate::fault::PlanFault;
use crate::refusal::Refusal;
use model::row::Row;

// How many tasks a table holds at most, and how many entries a memory has at least.
pub const CAPACITY: usize = 32;

// The table of `count` rows: no more than 32, and no more than there are.
fn table<R>(rows: &[R], count: usize) -> &[R]
    ensures { result.now ≡ table_of count rows.now }
{
    &rows[..count.min(CAPACITY).min(rows.len())]
}

// Whether a memory has enough entries for a full table; it is refused if not.
fn long_enough<R>(rows: &[R]) -> Result<(), PlanFault>
    ensures { MatchResult result (λ _. capacity ≤ length rows.now) (λ fault. (length rows.now < capacity) × (fault ≡ plan_fault ShortMemory 0)) }
{
    if rows.len() < CAPACITY {
        return Err(Refusal::ShortMemory.at(0));
    }
    Ok(())
}

// The place of the first row with this id.
fn place_of<R: Row>(rows: &[R], id: u16) -> Option<usize>
    ensures { result ≡ place_with_id R.Row.meaning id rows.now }
{
    rows.iter().position(|row| row.id() == id)
}

// Whether a row has this id.
fn holds_id<R: Row>(rows: &[R], id: u16) -> bool
    ensures { result ≡ has_id R.Row.meaning id rows.now }
{
    place_of(rows, id).is_some()
}

// The place of the first row of the table of `count` rows with this id. The memory is tested before, since `replace` judges its row in between.
fn place_in_table<R: Row>(rows: &[R], count: usize, id: u16) -> Result<usize, PlanFault>
    ensures { Found R.Row.meaning id (table_of count rows.now) result }
{
    place_of(table(rows, count), id).ok_or(Refusal::NoSuchTask.at(0))
}

// Adds a row at the end of the table of the first `count` rows. It is refused, and nothing is written, if the memory is short, the table is
// full, the row is not lawful or its id stands in the table.
pub fn append<R: Row>(rows: &mut [R], count: usize, row: R) -> Result<(), PlanFault>
    ensures { Appended R.Row.meaning rows.old count row rows.new result }
{
    long_enough(rows)?;
    if count >= CAPACITY {
        return Err(Refusal::TableFull.at(count));
    }
    if !row.is_lawful() {
        return Err(Refusal::RowUnlawful.at(count));
    }
    if holds_id(&rows[..count], row.id()) {
        return Err(Refusal::IdTaken.at(count));
    }
    rows[count] = row;
    Ok(())
}

// Makes the rows from a place up to place 32 blank; nothing is written if the memory is short or the place is past 32.
pub fn blank_from<R: Row>(rows: &mut [R], from: usize)
    ensures { rows.new ≡ blanked R.Row.meaning.blank from rows.old }
{
    if rows.len() < CAPACITY || from > CAPACITY {
        return;
    }
    rows[from..CAPACITY].fill_with(|| R::blank());
}

// Replaces the first row of the table of `count` rows that has the row's own id. It is refused, and nothing is written, if the memory is
// short, the row is not lawful or no row has its id.
pub fn replace<R: Row>(rows: &mut [R], count: usize, row: R) -> Result<(), PlanFault>
    ensures { Replaced R.Row.meaning rows.old count row rows.new result }
{
    long_enough(rows)?;
    if !row.is_lawful() {
        return Err(Refusal::RowUnlawful.at(0));
    }
    let place = place_in_table(rows, count, row.id())?;
    rows[place] = row;
    Ok(())
}

// Removes the first row of the table of `count` rows that has this id: later rows move down one, and the freed place is blank. It is
// refused, and nothing is written, if the memory is short or no row has the id.
pub fn remove<R: Row>(rows: &mut [R], count: usize, id: u16) -> Result<(), PlanFault>
    ensures { Removed R.Row.meaning rows.old count id rows.new result }
{
    long_enough(rows)?;
    let place = place_in_table(rows, count, id)?;
    rows[place] = R::blank();
    rows[place..count.min(CAPACITY)].rotate_left(1);
    Ok(())
}

// Judges the rows of the table of `count` rows one by one: whether each is lawful and its id stands at no lower place. The fault is that of
// the first row that fails, with its place.
pub fn judge_rows<R: Row>(rows: &[R], count: usize) -> Result<(), PlanFault>
    ensures { Judged R.Row.meaning (table_of count rows.now) result }
{
    let rows = table(rows, count);
    // A `for` over the rows with their places, which the project fixes as the form of this judgement.
    for (place, row) in rows.iter().enumerate() {
        if !row.is_lawful() {
            return Err(Refusal::RowUnlawful.at(place));
        }
        if holds_id(&rows[..place], row.id()) {
            return Err(Refusal::IdTaken.at(place));
        }
    }
    Ok(())
}
