// Worked examples: from the bytes of a sheet to the bytes of its report, values of the segment curve, and bounds under each test. They are one
// statement, computed from the very definitions that the contracts of the code use. So are values from an independent implementation.
#![tactic(auto)]

ghost use Rattle.worked.specs.Worked.{Worked};
ghost use Rattle.worked.specs.Outside.{OutsideValues};

pub fn examples_stand()
    ensures { Worked }
{}

// The definitions agree with values from an independent implementation.
pub fn outside_values_stand()
    ensures { OutsideValues }
{}
