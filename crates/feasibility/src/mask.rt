// Sets of places as masks, the form in which a test is asked: no method of u32 reads one bit, so a shift does.
ghost use Rattle.std.specs.Prelude.{◌≡◌, ◌^◌, nat_lt};
ghost use Rattle.feasibility.specs.Masks.{has, askable};

// How many places a mask has: one for each bit.
pub const PLACES: usize = u32::BITS as usize;

// Whether the place is in the mask.
pub fn holds(mask: u32, place: usize) -> bool
    ensures { result ≡ has mask place }
{
    place < PLACES && (mask >> place) & 1 == 1
}

// Whether every place in the mask is below `count`.
fn is_of_table(mask: u32, count: usize) -> bool
    ensures { result ≡ nat_lt mask (2 ^ count) }
{
    count >= PLACES || mask >> count == 0
}

// Whether a test answers: the place and the mask are of a table of `count` rows, and the place is not in the mask.
pub fn may_ask(count: usize, place: usize, above: u32) -> bool
    ensures { result ≡ askable count place above }
{
    place < count && is_of_table(above, count) && !holds(above, place)
}
