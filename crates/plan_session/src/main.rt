// A session with the library, to learn it by: rows are entered, amended and withdrawn, plans are arranged, read and reopened, sheets are loaded,
// and calls are refused on the way. Each call prints a line with its answer.
#![tactic(auto)]

mod transcript;

use curves::ceiling::Ceiling;
use feasibility::whole_job::WholeJob;
use model::row::Row;
use model::whole::Whole;
use plan::stage::{Arranged, NotArranged, Open};
use report::fields::REPORT_BYTES;
use report::order::report_plan;
use sheet::bytes::{END, WHOLE, WHOLE_TASK};
use std::io;
use std::io::Write;
use table::rows::CAPACITY;
use transcript::print_answer;

// What is lent to each call: the rows, and the order and bounds that arrange writes. 32 entries each are enough for every plan.
#[derive(Drop)]
struct Memory {
    rows: [Whole; CAPACITY],
    order: [u8; CAPACITY],
    bounds: [u32; CAPACITY],
}

impl Memory {
    fn new() -> Memory {
        Memory {
            rows: [Whole::blank(); CAPACITY],
            order: [0; CAPACITY],
            bounds: [0; CAPACITY],
        }
    }
}

// A task with its deadline at the end of its period.
fn task(id: u16, period: u32, compute: u32, suspend: u32) -> Whole {
    Whole {
        id,
        period,
        deadline: period,
        compute,
        suspend,
    }
}

// Rows change only in an open plan.
fn enter_tasks(rt: HostRuntime, plan: &mut Open, rows: &mut [Whole]) -> io::Result<()> {
    print_answer(rt, "enter 7", plan.enter(rows, task(7, 8, 2, 6)))?;
    print_answer(rt, "enter 9", plan.enter(rows, task(9, 40, 14, 4)))?;
    print_answer(rt, "enter 9 again", plan.enter(rows, task(9, 50, 1, 0)))?;
    print_answer(
        rt,
        "enter 11 with no ticks",
        plan.enter(rows, task(11, 50, 0, 0)),
    )?;
    print_answer(rt, "amend 11", plan.amend(rows, task(11, 50, 1, 0)))?;
    print_answer(rt, "withdraw 11", plan.withdraw(rows, 11))?;
    let mut few = [Whole::blank(); CAPACITY - 1];
    print_answer(
        rt,
        "enter 11 into 31 entries",
        plan.enter(&mut few, task(11, 50, 1, 0)),
    )
}

// An order is read only off an arranged plan. Past its tasks there is no level.
fn read_levels(rt: HostRuntime, plan: &Arranged, memory: &Memory) -> io::Result<()> {
    for level in 1..=plan.tasks() + 1 {
        print_answer(
            rt,
            format_args!("read level {level}"),
            plan.read(&memory.rows, &memory.order, &memory.bounds, level),
        )?;
    }
    Ok(())
}

// The report is built in memory of at least 1,024 bytes; its length is answered.
fn print_report(rt: HostRuntime, plan: &Arranged, memory: &Memory) -> io::Result<()> {
    let mut report = [0; REPORT_BYTES];
    match report_plan(
        plan,
        &memory.rows,
        &memory.order,
        &memory.bounds,
        &mut report,
    ) {
        Ok(length) => {
            println!(rt; "report: {length} bytes")?;
            rt.stdout().write_all(&report[..length])
        }
        Err(fault) => println!(rt; "report: refused {fault}"),
    }
}

// Arranging takes the open plan and gives an arranged one, or the open one back. Reopening takes the arranged plan.
fn arrange(rt: HostRuntime, plan: Open, memory: &mut Memory) -> io::Result<Open> {
    let test = WholeJob(Ceiling);
    match plan.arrange(&test, &memory.rows, &mut memory.order, &mut memory.bounds) {
        Ok(arranged) => {
            let questions = arranged.questions();
            println!(rt; "arrange: done, questions: {questions}")?;
            read_levels(rt, &arranged, memory)?;
            print_report(rt, &arranged, memory)?;
            println!(rt; "reopen: done")?;
            Ok(arranged.reopen())
        }
        Err(
            NotArranged {
                plan,
                fault,
                left,
                questions,
            },
        ) => {
            println!(rt; "arrange: refused {fault}")?;
            println!(rt; "places left: {left:#b}, questions: {questions}")?;
            Ok(plan)
        }
    }
}

// Loading replaces the whole table; what is refused leaves none.
fn load_sheets(rt: HostRuntime, plan: &mut Open, rows: &mut [Whole]) -> io::Result<()> {
    // The kind, the letter, one task and the end: id 3, T = D = 10, C = 4, S = 5.
    let sheet = [
        WHOLE, b'J', WHOLE_TASK, 0, 3, 0, 0, 0, 10, 0, 0, 0, 10, 0, 0, 0, 4, 0, 0, 0, 5, END,
    ];
    print_answer(rt, "load a sheet cut short", plan.load(&sheet[..21], rows))?;
    println!(rt; "tasks: {}", plan.tasks())?;
    print_answer(rt, "load the whole sheet", plan.load(&sheet, rows))?;
    println!(rt; "tasks: {}", plan.tasks())
}

fn main(rt: HostRuntime) -> io::Result<()> {
    let mut memory = Memory::new();
    let mut plan = Open::new();
    enter_tasks(rt, &mut plan, &mut memory.rows)?;
    let mut plan = arrange(rt, plan, &mut memory)?;
    print_answer(
        rt,
        "amend 9",
        plan.amend(&mut memory.rows, task(9, 20, 14, 4)),
    )?;
    let mut plan = arrange(rt, plan, &mut memory)?;
    print_answer(rt, "withdraw 7", plan.withdraw(&mut memory.rows, 7))?;
    let mut plan = arrange(rt, plan, &mut memory)?;
    load_sheets(rt, &mut plan, &mut memory.rows)?;
    arrange(rt, plan, &mut memory)?;
    Ok(())
}
