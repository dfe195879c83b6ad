// The report of an order.
ghost use Rattle.std.specs.Prelude.{◌≡◌, ◌+◌, ◌≤◌, length, IfOk};
ghost use Rattle.report.specs.Memory.{Appends};
ghost use Rattle.report.specs.Reports.{OrderReported, each_once, order_head, order_line};

use crate::fields::{NEWLINE, REPORT_BYTES, SPACE, Writer};
use model::row::Row;
use plan::stage::Arranged;
use table::fault::Fault;
use table::refusal::Refusal;
use table::rows::CAPACITY;

// Whether each entry names one of the tasks, and none is named twice.
// The recursion is that of the definition `each_once`; a chain over the places was not proved by the check alone.
fn names_each_once(entries: &[u8], tasks: usize) -> bool
    ensures { result ≡ each_once tasks entries.now }
{
    match entries {
        [] => true,
        [place, rest @ ..] => {
            (*place as usize) < tasks && !rest.contains(place) && names_each_once(rest, tasks)
        }
    }
}

// The first line: the number of tasks and of questions.
fn put_head(writer: &mut Writer<'_>, tasks: u8, questions: u32)
    requires few { tasks ≤ CAPACITY }
    requires room { writer.old.at + 21 ≤ length writer.old.memory.now }
    ensures appends { Appends writer.old (order_head tasks questions) writer.new }
    ensures short { writer.new.at ≤ writer.old.at + 20 }
{
    writer.text(b"ORDER ");
    writer.field(tasks, SPACE);
    writer.field(questions, NEWLINE);
}

// The line of a level: the level, and the id, bound and deadline of its task.
fn put_line(writer: &mut Writer<'_>, level: u8, id: u16, bound: u32, deadline: u32)
    requires few { level ≤ CAPACITY }
    requires room { writer.old.at + 32 ≤ length writer.old.memory.now }
    ensures appends { Appends writer.old (order_line level id bound deadline) writer.new }
    ensures short { writer.new.at ≤ writer.old.at + 31 }
{
    writer.field(level, SPACE);
    writer.field(id, SPACE);
    writer.field(bound, SPACE);
    writer.field(deadline, NEWLINE);
}

// Writes the report of an arranged plan, and answers its length. It is refused, and nothing is written, if a memory is short, or an entry of the
// order names no task or a task twice.
// Rows, order and bounds are slices beside each other, since each public call is lent them so.
pub fn report_plan<R: Row>(
    plan: &Arranged,
    rows: &[R],
    order: &[u8],
    bounds: &[u32],
    memory: &mut [u8],
) -> Result<usize, Fault>
    ensures reported { OrderReported R.Row.meaning plan.now.tasks plan.now.questions rows.now order.now bounds.now memory.old memory.new result }
    ensures within { IfOk result (λ n. n ≤ length memory.old) }
{
    // Plan has the first three of these as a private function of its own; here they are judged together with the report's memory.
    if rows.len() < CAPACITY
        || order.len() < CAPACITY
        || bounds.len() < CAPACITY
        || memory.len() < REPORT_BYTES
    {
        return Err(Refusal::ShortMemory.at(0).into());
    }
    let tasks = plan.tasks();
    let places = &order[..tasks];
    if !names_each_once(places, tasks) {
        return Err(Refusal::NoSuchTask.at(0).into());
    }
    let mut writer = Writer { memory, at: 0 };
    put_head(&mut writer, tasks as u8, plan.questions());
    for (i, (place, bound)) in places.iter().zip(bounds).enumerate() {
        let row = rows[*place as usize];
        put_line(&mut writer, i as u8 + 1, row.id(), *bound, row.deadline());
    }
    Ok(writer.at)
}
