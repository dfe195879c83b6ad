// The limits that a row of any kind keeps.
ghost use Rattle.std.specs.Prelude.{◌≡◌};
ghost use Rattle.model.specs.Rows.{bounded};

// The longest period.
pub const LIMIT: u32 = 1_000_000;

// Whether the period is 1 to the limit, there is something to compute, and C + S ≤ D ≤ T.
pub fn within_limits(period: u32, deadline: u32, compute: u64, suspend: u64) -> bool
    ensures { result ≡ bounded period deadline compute suspend }
{
    (1..=LIMIT).contains(&period)
        && 1 <= compute
        && compute <= deadline as u64
        && suspend <= deadline as u64 - compute
        && deadline <= period
}
