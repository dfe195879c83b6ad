// The program: a sheet on standard input, its order with bounds or its refusal on standard output.
#![tactic(auto)]

use anyhow::anyhow;
use planning::{REPORT_BYTES, SHEET_BYTES, plan_sheet};
use std::io::{Read, Write};

fn main(rt: HostRuntime) -> anyhow::Result<()> {
    let mut sheet = Vec::new(rt.alloc());
    rt.stdin().take(SHEET_BYTES as u64).read_to_end(&mut sheet)?;
    // By a rule of the project the program takes no more of a sheet and keeps no more of a report.
    let mut report = [0; REPORT_BYTES];
    let written = plan_sheet(&sheet, &mut report).map_err(|_| anyhow!("the report does not fit"))?;
    rt.stdout().write_all(&report[..written])?;
    Ok(())
}
