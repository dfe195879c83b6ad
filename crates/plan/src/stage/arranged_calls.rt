// The calls on an arranged plan.
ghost use Rattle.std.specs.Prelude.{◌≡◌};
ghost use Rattle.plan.specs.Calls.{Read};
ghost use Rattle.plan.specs.Returns.{state_of, told_or_refused};

use super::{Arranged, Open};
use crate::memory::some_short;
use model::row::Row;
use table::fault::Fault;
use table::refusal::Refusal;

impl Arranged {
    pub fn tasks(&self) -> usize
        ensures { result ≡ self.now.tasks }
    {
        self.tasks
    }

    // How many questions were put to find the order.
    pub fn questions(&self) -> u32
        ensures { result ≡ self.now.questions }
    {
        self.questions
    }

    // The plan with the same rows, which may change again.
    pub fn reopen(self) -> Open
        ensures { result.tasks ≡ self.tasks }
    {
        let Arranged {
            tasks,
            questions: _,
        } = self;
        Open { tasks }
    }

    // The id and the bound of the task at a level; 1 is the highest.
    pub fn read<R: Row>(
        &self,
        rows: &[R],
        order: &[u8],
        bounds: &[u32],
        level: usize,
    ) -> Result<(u16, u32), Fault>
        ensures { Read R.Row.meaning level (state_of self.now rows.now order.now bounds.now) (told_or_refused result) (state_of self.now rows.now order.now bounds.now) }
    {
        if some_short(rows, order, bounds) {
            return Err(Refusal::ShortMemory.at(0).into());
        }
        let no_task = Refusal::NoSuchTask.at(0);
        let entry = level.checked_sub(1).ok_or(no_task)?;
        let place = *order[..self.tasks].get(entry).ok_or(no_task)? as usize;
        let row = rows[..self.tasks].get(place).ok_or(no_task)?;
        Ok((row.id(), bounds[entry]))
    }
}
