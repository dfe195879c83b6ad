// Rows that list their segments, with a suspension between each and the next.
pub mod rules;

// The most segments that a row can have, and the most suspensions between them.
pub const SEGMENTS: usize = 8;

pub const SUSPENSIONS: usize = SEGMENTS - 1;

// The segments are numbered from 0, and `count` says how many there are. Segment j takes up to costs[j] ticks, and the suspension after it
// least[j] to most[j] ticks. Unused places are 0 in a lawful row: segments from `count` on, and suspensions from one less on.
// Rows are copied in memory that callers lend, with no heap: so each list is an array of one size, with the count of them all beside.
#[derive(Clone, Copy, Default)]
pub struct Segmented {
    pub id: u16,
    pub period: u32,
    pub deadline: u32,
    pub count: u8,
    pub costs: [u32; SEGMENTS],
    pub least: [u32; SUSPENSIONS],
    pub most: [u32; SUSPENSIONS],
}
