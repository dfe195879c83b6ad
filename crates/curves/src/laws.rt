// The theorems of workload curves. Each function only states one, on its contract.
ghost use Rattle.curves.specs.CurveLaws.{Rates};

// However a curve counts, if it keeps its rules it gives each task at least its share of every window: C / T of it.
pub fn rates_are_reached<R>()
    ensures { Rates R }
{}
