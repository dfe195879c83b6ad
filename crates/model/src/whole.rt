// Rows of which only the totals are known.
ghost use Rattle.model.specs.WholeRows.{whole_kind};

use crate::limits::within_limits;
use crate::row::Row;

#[derive(Clone, Copy, Default)]
pub struct Whole {
    pub id: u16,
    pub period: u32,
    pub deadline: u32,
    pub compute: u32,
    pub suspend: u32,
}

impl Row for Whole {
    ghost meaning = { whole_kind };

    fn is_lawful(&self) -> bool {
        within_limits(
            self.period,
            self.deadline,
            u64::from(self.compute),
            u64::from(self.suspend),
        )
    }

    // Both kinds read `id`, `period`, `deadline`, each its own public field: a part of both would stand between a row and its fields.
    fn id(&self) -> u16 {
        self.id
    }

    fn period(&self) -> u32 {
        self.period
    }

    fn deadline(&self) -> u32 {
        self.deadline
    }

    fn compute(&self) -> u64 {
        u64::from(self.compute)
    }

    fn suspend(&self) -> u64 {
        u64::from(self.suspend)
    }

    fn blank() -> Whole {
        Whole::default()
    }
}
