// The commands of segmented rows.
ghost use Rattle.sheet.specs.SegmentedSheets.{segmented_grammar, segmented_letters};
ghost use Rattle.sheet.specs.Bytes.{segmented_byte};

use crate::bytes::{
    END, OPEN, OPEN_SHORT, SEGMENT, SEGMENTED, SUSPENSION, SUSPENSION_SHORT, TASK_END,
};
use crate::command::{CommandFault, Effect};
use crate::draft::{Draft, SheetRow};
use crate::operands::{four, operands, two};
use crate::segmented::{SegmentedDraft, Stage};
use curves::ceiling::Ceiling;
use curves::segment_curve::SegmentCurve;
use feasibility::better::Better;
use feasibility::letter::letter_of;
use feasibility::piecewise::Piecewise;
use feasibility::whole_job::WholeJob;
use model::row::Row;
use model::segmented::Segmented;

impl Draft<Segmented> for SegmentedDraft {
    ghost grammar = { segmented_grammar };

    ghost mark = { segmented_byte };

    ghost letters = { segmented_letters };

    fn kind_byte() -> u8 {
        SEGMENTED
    }

    fn takes_letter(letter: u8) -> bool {
        [
            letter_of::<Segmented, WholeJob<SegmentCurve>>(),
            letter_of::<Segmented, Piecewise<SegmentCurve>>(),
            letter_of::<Segmented, WholeJob<Ceiling>>(),
            letter_of::<Segmented, Better<WholeJob<SegmentCurve>, Piecewise<SegmentCurve>>>(),
        ]
        .contains(&letter)
    }

    fn start() -> SegmentedDraft {
        SegmentedDraft {
            stage: Stage::BetweenTasks,
            row: Segmented::blank(),
        }
    }

    // Inlined by force: where it is called, its answer has room for a whole row, and each command would pass that through memory.
    #[inline(always)]
    fn command(
        &mut self,
        byte: u8,
        rest: &[u8],
    ) -> Result<(Effect<Segmented>, usize), CommandFault> {
        match (self.stage, byte) {
            (Stage::BetweenTasks, OPEN) => {
                let operands = operands(rest, 10)?;
                self.open(two(operands, 0), four(operands, 2), four(operands, 6));
                Ok((Effect::Continues, operands.len()))
            }
            (Stage::BetweenTasks, OPEN_SHORT) => {
                let operands = operands(rest, 6)?;
                let period = four(operands, 2);
                self.open(two(operands, 0), period, period);
                Ok((Effect::Continues, operands.len()))
            }
            (Stage::BetweenTasks, END) => Ok((Effect::Ends, 0)),
            (Stage::BeforeSegment, SEGMENT) => {
                let operands = operands(rest, 4)?;
                Ok((self.add_segment(four(operands, 0)), operands.len()))
            }
            (Stage::AfterSegment, SUSPENSION) => {
                let operands = operands(rest, 8)?;
                Ok((
                    self.suspend(four(operands, 0), four(operands, 4)),
                    operands.len(),
                ))
            }
            (Stage::AfterSegment, SUSPENSION_SHORT) => {
                let operands = operands(rest, 4)?;
                let ticks = four(operands, 0);
                Ok((self.suspend(ticks, ticks), operands.len()))
            }
            (Stage::AfterSegment, TASK_END) => {
                self.stage = Stage::BetweenTasks;
                Ok((Effect::Completes(self.row), 0))
            }
            _ => Err(CommandFault::NotAllowed),
        }
    }
}

impl SheetRow for Segmented {
    type Draft = SegmentedDraft;
}
