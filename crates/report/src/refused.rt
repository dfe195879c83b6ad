// The report of a refusal.
ghost use Rattle.std.specs.Prelude.{◌+◌, ◌≤◌, length, IfOk};
ghost use Rattle.report.specs.Memory.{Appends};
ghost use Rattle.report.specs.Reports.{Writes, refused_bytes};
ghost use Rattle.table.specs.Faults.{inner_text, site_text};

use crate::fields::{NEWLINE, REPORT_BYTES, SPACE, Writer};
use table::fault::{Fault, PlanFault};
use table::refusal::{Layer, Refusal};

// A layer's letter and the place in that layer, each after a space.
fn put_site(writer: &mut Writer<'_>, layer: Layer, place: usize)
    requires { writer.old.at + 23 ≤ length writer.old.memory.now }
    ensures appends { Appends writer.old (site_text layer place) writer.new }
    ensures short { writer.new.at ≤ writer.old.at + 23 }
{
    writer.text(&[SPACE, layer.letter(), SPACE]);
    writer.number(place);
}

// The plan's fault inside a sheet's, if there is one.
fn put_inner(writer: &mut Writer<'_>, inner: Option<PlanFault>)
    requires { writer.old.at + 23 ≤ length writer.old.memory.now }
    ensures appends { Appends writer.old (inner_text inner) writer.new }
    ensures short { writer.new.at ≤ writer.old.at + 23 }
{
    if let Some(fault) = inner {
        put_site(writer, Layer::Plan, fault.place);
    }
}

// Writes the line of a refusal, and answers its length. It is refused, and nothing is written, if the memory is short.
pub fn report_refusal(fault: Fault, memory: &mut [u8]) -> Result<usize, Fault>
    ensures reported { Writes (refused_bytes fault) memory.old memory.new result }
    ensures within { IfOk result (λ n. n ≤ length memory.old) }
{
    if memory.len() < REPORT_BYTES {
        return Err(Refusal::ShortMemory.at(0).into());
    }
    let mut writer = Writer { memory, at: 0 };
    writer.text(b"REFUSED ");
    writer.number(fault.refusal().number());
    put_inner(&mut writer, fault.inner());
    put_site(&mut writer, fault.layer(), fault.place());
    writer.text(&[NEWLINE]);
    Ok(writer.at)
}
