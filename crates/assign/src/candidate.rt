// A candidate: a guard over the pool that keeps a place out of it while it lives.
ghost use Rattle.std.specs.Prelude.{◌≡◌, ◌-◌, ◌^◌, ◌<◌, MatchOption, Some, None, bit_or};
ghost use Rattle.feasibility.specs.Masks.{bit_at};

pub(crate) struct Candidate<'a> {
    pool: &'a mut u32,
    // The bit of the place, until the candidate is placed.
    bit: Option<u32>,
}

impl<'a> Candidate<'a> {
    // Takes a place that is in the pool out of it.
    pub(crate) fn take(pool: &'a mut u32, place: usize) -> Candidate<'a>
        requires small { place < 32 }
        requires inside { bit_at pool.old place ≡ 1 }
        ensures lent { result.pool.ghost_name ≡ pool.entry.ghost_name }
        ensures made { (result.pool.now ≡ pool.old - 2 ^ place) × (result.bit ≡ Some (2 ^ place)) }
    {
        let bit = 1u32 << place;
        *pool &= !bit;
        Candidate {
            pool,
            bit: Some(bit),
        }
    }

    // The pool without the candidate.
    pub(crate) fn rest(&self) -> u32
        ensures { result ≡ self.now.pool.now }
    {
        *self.pool
    }

    // The candidate stays out of the pool.
    pub(crate) fn place(&mut self)
        ensures same { self.new.pool.ghost_name ≡ self.old.pool.ghost_name }
        ensures placed { (self.new.pool.now ≡ self.old.pool.now) × (self.new.bit ≡ None) }
    {
        self.bit = None;
    }
}

impl Drop for Candidate<'_> {
    // The place goes back into the pool, unless it stays out.
    fn drop(self)
        ensures { MatchOption self.entry.bit (self.exit.0.now ≡ self.entry.pool.now) (λ bit. self.exit.0.now ≡ bit_or self.entry.pool.now bit) }
    {
        let Candidate { pool, bit } = self;
        if let Some(bit) = bit {
            *pool |= bit;
        }
    }
}
