// Plans damaged sheets: every proper prefix of long sheets, and short sheets with every change of one byte. Each damaged sheet must have one
// well-formed report; that of a prefix must be the refusal of a sheet that is cut.
#![tactic(auto)]

ghost use Rattle.std.specs.Prelude.{◌≡◌, ◌<◌, length};

mod read_back;

use planning::{REPORT_BYTES, plan_sheet};
use read_back::{Report, read_report};
use std::str::from_utf8;
use std::{fmt, fs};

// How many changed sheets had which report.
#[derive(Clone, Copy, Default)]
struct Tally {
    orders: u32,
    refusals: u32,
    malformed: u32,
}

impl Tally {
    fn count(&mut self, report: Option<Report>) {
        match report {
            Some(Report::Order(_)) => self.orders = self.orders.saturating_add(1),
            Some(Report::Refused(_)) => self.refusals = self.refusals.saturating_add(1),
            None => self.malformed = self.malformed.saturating_add(1),
        }
    }
}

impl fmt::Display for Tally {
    fn fmt<W: fmt::Write>(&self, f: &mut fmt::Formatter<W>) -> fmt::Result {
        let Tally {
            orders,
            refusals,
            malformed,
        } = *self;
        write!(
            f,
            "{orders} orders, {refusals} refusals, {malformed} without a well-formed report"
        )
    }
}

// The report of a sheet, if it is well-formed.
fn plan(sheet: &[u8]) -> Option<Report> {
    let mut memory = [0; REPORT_BYTES];
    let length = plan_sheet(sheet, &mut memory).ok()?;
    read_report(from_utf8(&memory[..length]).ok()?)
}

fn is_refused_as_cut(sheet: &[u8]) -> bool {
    matches!(plan(sheet), Some(Report::Refused(refused)) if refused.is_cut(sheet.len()))
}

// How many proper prefixes of a sheet are refused as cut. The others are named.
fn cut_prefixes(rt: &HostRuntime, name: &str) -> anyhow::Result<u32> {
    let sheet = fs::read(rt, format!(in rt.alloc(); "prefixes/{name}.bin")?)?;
    let mut cut: u32 = 0;
    for length in 0..sheet.len() {
        if is_refused_as_cut(&sheet[..length]) {
            cut = cut.saturating_add(1);
        } else {
            println!(rt; "{name}: the first {length} bytes are not refused as cut")?;
        }
    }
    Ok(cut)
}

// Counts the reports of the sheet with every other byte at a place. The sheet is left as it was.
fn count_changes(sheet: &mut [u8], place: usize, tally: &mut Tally)
    requires { place < length sheet.old }
    ensures { sheet.new ≡ sheet.old }
{
    let original = sheet[place];
    for step in 1..=u8::MAX {
        sheet[place] = original.wrapping_add(step);
        tally.count(plan(sheet));
    }
    sheet[place] = original;
}

// Counts the reports of a sheet with every change of one byte.
fn changes(rt: &HostRuntime, name: &str, tally: &mut Tally) -> anyhow::Result<()> {
    let mut sheet = fs::read(rt, format!(in rt.alloc(); "changes/{name}.bin")?)?;
    for place in 0..sheet.len() {
        count_changes(&mut sheet, place, tally);
    }
    Ok(())
}

fn main(rt: HostRuntime) -> anyhow::Result<()> {
    let mut cut: u32 = 0;
    for name in ["32_seg_eight_53", "32_seg_B", "32_whole_J"] {
        cut = cut.saturating_add(cut_prefixes(&rt, name)?);
    }
    println!(rt; "{cut} prefixes refused with 3")?;
    let mut tally = Tally::default();
    for name in ["D_less_T", "whole_J"] {
        changes(&rt, name, &mut tally)?;
    }
    println!(rt; "changes: {tally}")?;
    Ok(())
}
