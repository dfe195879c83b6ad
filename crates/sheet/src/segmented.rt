// A segmented row as it is read from a sheet.
ghost use Rattle.std.specs.Prelude.{◌≡◌, cond, nat_le};
ghost use Rattle.sheet.specs.SegmentedSheets.{opened, with_segment, with_suspension};
ghost use Rattle.sheet.specs.declared.command.Effect.TheVariants.{Continues, TooManySegments};

pub mod commands;

use crate::command::Effect;
use model::row::Row;
use model::segmented::{SEGMENTS, Segmented};

// What the commands before allow next.
#[derive(Clone, Copy)]
pub enum Stage {
    BetweenTasks,
    // After an opening or a suspension.
    BeforeSegment,
    AfterSegment,
}

// The row's `count` says how many segments have been read. No invariant ties the two: what `command` promises, it promises of every draft.
#[derive(Clone, Copy)]
pub struct SegmentedDraft {
    pub stage: Stage,
    pub row: Segmented,
}

impl SegmentedDraft {
    // Begins a row, with no segment yet.
    fn open(&mut self, id: u16, period: u32, deadline: u32)
        ensures { self.new ≡ opened id period deadline }
    {
        self.row = Segmented {
            id,
            period,
            deadline,
            ..Segmented::blank()
        };
        self.stage = Stage::BeforeSegment;
    }

    // Whether the row has eight segments.
    fn is_full(&self) -> bool
        ensures { result ≡ nat_le SEGMENTS self.now.row.count }
    {
        usize::from(self.row.count) >= SEGMENTS
    }

    // One segment more, unless the row has eight.
    fn add_segment(&mut self, ticks: u32) -> Effect<Segmented>
        ensures does { result ≡ cond (nat_le SEGMENTS self.old.row.count) TooManySegments Continues }
        ensures leaves { self.new ≡ cond (nat_le SEGMENTS self.old.row.count) self.old (with_segment self.old ticks) }
    {
        if self.is_full() {
            return Effect::TooManySegments;
        }
        self.row.costs[self.row.count as usize] = ticks;
        self.row.count += 1;
        self.stage = Stage::AfterSegment;
        Effect::Continues
    }

    // A suspension after the last segment, unless that is the eighth.
    fn suspend(&mut self, least: u32, most: u32) -> Effect<Segmented>
        ensures does { result ≡ cond (nat_le SEGMENTS self.old.row.count) TooManySegments Continues }
        ensures leaves { self.new ≡ cond (nat_le SEGMENTS self.old.row.count) self.old (with_suspension self.old least most) }
    {
        if self.is_full() {
            return Effect::TooManySegments;
        }
        let place = self.row.count.saturating_sub(1) as usize;
        self.row.least[place] = least;
        self.row.most[place] = most;
        self.stage = Stage::BeforeSegment;
        Effect::Continues
    }
}
