// Reports as they are read back.
ghost use Rattle.std.specs.Prelude.{◌≡◌, ◌↔◌, ℕ, ◌^◌, ◌<◌, ◌≤◌, [], ◌∷◌, ◌==◌, count_by, decimal, IfSome, IsTrue, MatchOption, None, ◌≢◌};
ghost use Rattle.sheet_damage.specs.Lines.{line_count};
ghost use Rattle.table.specs.Refusals.{layer_letter, refusal_number};
ghost use Rattle.table.specs.declared.refusal.Layer.TheVariants.{Sheet};
ghost use Rattle.table.specs.declared.refusal.Refusal.TheVariants.{SheetCut};

use table::refusal::{Layer, Refusal};

// A layer and a place in it.
#[derive(Clone, Copy)]
pub struct LayerPlace {
    pub layer: Layer,
    pub place: u32,
}

#[derive(Clone, Copy)]
pub struct Refused {
    pub refusal: Refusal,
    pub outer: LayerPlace,
    pub inner: Option<LayerPlace>,
}

impl Refused {
    // Whether a sheet of this length is refused as cut, in the sheet, at a place that it has or ends at.
    pub fn is_cut(&self, length: usize) -> bool
        ensures { IsTrue result ↔ (self.now.refusal ≡ SheetCut) × (self.now.outer.layer ≡ Sheet) × (self.now.outer.place ≤ length) × (self.now.inner ≡ None) }
    {
        let LayerPlace { layer, place } = self.outer;
        self.refusal == Refusal::SheetCut
            && layer == Layer::Sheet
            && place as usize <= length
            && self.inner.is_none()
    }
}

#[derive(Clone, Copy)]
pub enum Report {
    // How many tasks are in order.
    Order(u32),
    Refused(Refused),
}

// A decimal number without leading zeros.
fn read_number(field: &str) -> Option<u32>
    ensures { MatchOption result ((n : ℕ) → n < 2 ^ 32 → decimal n ≢ field.now) (λ n. decimal n ≡ field.now) }
{
    // No slice pattern: under one the check finds no facts of the bytes.
    let text = field.as_bytes();
    if text.is_empty() || text[0] == b'+' {
        return None;
    }
    if text[0] == b'0' && text.len() > 1 {
        return None;
    }
    field.parse::<u32>().ok()
}

fn read_refusal(field: &str) -> Option<Refusal>
    ensures { IfSome result (λ refusal. decimal (refusal_number refusal) ≡ field.now) }
{
    let number = u8::try_from(read_number(field)?).ok()?;
    Refusal::try_from(number).ok()
}

fn read_layer(field: &str) -> Option<Layer>
    ensures { IfSome result (λ layer. layer_letter layer ∷ [] ≡ field.now) }
{
    match field.as_bytes() {
        [letter] => Layer::try_from(*letter).ok(),
        _ => None,
    }
}

fn read_layer_place(layer: &str, place: &str) -> Option<LayerPlace>
    ensures { IfSome result (λ met. (layer_letter met.layer ∷ [] ≡ layer.now) × (decimal met.place ≡ place.now)) }
{
    let layer = read_layer(layer)?;
    let place = read_number(place)?;
    Some(LayerPlace { layer, place })
}

// `REFUSED`, a number from 1 to 10, and a layer and a place, or two of them, the inner first.
fn read_refused(line: &str) -> Option<Refused> {
    let mut fields = line.strip_prefix("REFUSED ")?.split(' ');
    let refusal = read_refusal(fields.next()?)?;
    let first = read_layer_place(fields.next()?, fields.next()?)?;
    let (outer, inner) = match fields.next() {
        None => (first, None),
        Some(layer) => (read_layer_place(layer, fields.next()?)?, Some(first)),
    };
    if fields.next().is_some() {
        return None;
    }
    Some(Refused {
        refusal,
        outer,
        inner,
    })
}

// `ORDER` and the numbers of tasks and questions: the number of tasks.
fn read_head(line: &str) -> Option<u32> {
    let mut fields = line.strip_prefix("ORDER ")?.split(' ');
    let tasks = read_number(fields.next()?)?;
    let _questions = read_number(fields.next()?)?;
    if fields.next().is_some() {
        return None;
    }
    Some(tasks)
}

// A level, an id, and a bound from 1 to the deadline: the level.
fn read_level(line: &str) -> Option<u32> {
    let mut fields = line.split(' ');
    let level = read_number(fields.next()?)?;
    let id = read_number(fields.next()?)?;
    let bound = read_number(fields.next()?)?;
    let deadline = read_number(fields.next()?)?;
    if fields.next().is_some() || id > 0xFFFF || bound < 1 || bound > deadline {
        return None;
    }
    Some(level)
}

// The report, if the text is that of one: lines that each end in a newline, a refusal alone or a head with a line for each level.
pub fn read_report(text: &str) -> Option<Report>
    ensures { IfSome result (λ report. count_by (λ b. b == 10) text.now ≡ line_count report) }
{
    let mut lines = text.strip_suffix('\n')?.split('\n');
    let head = lines.next()?;
    if head.starts_with("REFUSED") {
        let refused = read_refused(head)?;
        return lines.next().is_none().then_some(Report::Refused(refused));
    }
    let tasks = read_head(head)?;
    for level in 1..=tasks {
        if read_level(lines.next()?)? != level {
            return None;
        }
    }
    lines.next().is_none().then_some(Report::Order(tasks))
}
