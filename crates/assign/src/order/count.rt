// How many tasks are left.
ghost use Rattle.std.specs.Prelude.{◌≡◌};
ghost use Rattle.assign.specs.Counts.{tasks_in};

use crate::order::Left;

impl Left {
    pub fn tasks(&self) -> usize
        ensures { result ≡ tasks_in self.now.mask }
    {
        self.mask.count_ones() as usize
    }
}
