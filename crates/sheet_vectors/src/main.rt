// Plans every sheet of data/sheets and compares its report with the expected one. The names stand in data/names, one to a line.
#![tactic(auto)]

use known_values::Tally;
use planning::{REPORT_BYTES, SHEET_BYTES, plan_sheet};
use std::fs;

// Whether the report of a sheet is the expected one.
fn agrees(rt: &HostRuntime, name: &str) -> anyhow::Result<bool> {
    let heap = rt.alloc();
    let sheet = fs::read(rt, format!(in heap; "sheets/{name}.bin")?)?;
    let expected = fs::read(rt, format!(in heap; "sheets/{name}.out")?)?;
    let mut report = [0; REPORT_BYTES];
    let taken = sheet.len().min(SHEET_BYTES);
    Ok(plan_sheet(&sheet[..taken], &mut report).is_ok_and(|length| &report[..length]
        == expected.as_slice()))
}

fn main(rt: HostRuntime) -> anyhow::Result<()> {
    let names = fs::read_to_string(&rt, "names")?;
    let mut tally = Tally::default();
    for name in names.lines() {
        let agrees = agrees(&rt, name)?;
        tally.count(agrees);
        if !agrees {
            println!(rt; "{name} differs")?;
        }
    }
    tally.print(rt, "sheets")?;
    Ok(())
}
