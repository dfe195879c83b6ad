// The theorems of feasibility tests. Each function only states one, on its contract.
ghost use Rattle.feasibility.specs.Laws.{BetterTests, BoundsKept, PiecewiseTests, SmallestFound, WholeJobTests};

// What the tests look for by `least` is the smallest number that passes, and none only if there is none.
pub fn smallest_found()
    ensures { SmallestFound }
{}

// Over any curve that keeps its rules, the whole-job test keeps the rules of a test.
pub fn whole_job_keeps<R>()
    ensures { WholeJobTests R }
{}

// Over any curve for segmented rows that keeps its rules, the piecewise test keeps the rules of a test.
pub fn piecewise_keeps<R>()
    ensures { PiecewiseTests R }
{}

// The better of two tests keeps the rules of a test.
pub fn better_keeps<R>()
    ensures { BetterTests R }
{}

// In a lawful run in which each task has a bound under the rows above it, every bound is kept and no job is late.
pub fn bounds_kept<R>()
    ensures { BoundsKept R }
{}
