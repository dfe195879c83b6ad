// Why no order is given.
pub mod count;

// The places that are left, as a 32-bit number with bit p set for each place p, and the number of questions put.
#[derive(Clone, Copy)]
pub struct Left {
    pub mask: u32,
    pub questions: u32,
}

#[derive(Clone, Copy)]
pub enum NoOrder {
    // There are more than 32 rows, or a memory has fewer entries than there are rows.
    NoRoom,
    // No task that is left has a bound with the others that are left above it.
    Stuck(Left),
}
