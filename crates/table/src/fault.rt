// What a refused call answers: which refusal was met, in which layer and at which place.
ghost use Rattle.std.specs.Prelude.{◌≡◌, Some};
ghost use Rattle.table.specs.declared.fault.Fault.TheVariants.{Plan};
ghost use Rattle.table.specs.Faults.{fault_inner, fault_layer, fault_place, fault_refusal, fault_text};
ghost use Rattle.table.specs.Tables.{plan_fault};

use crate::refusal::{Layer, Refusal};
use std::fmt;

// A fault of the plan, with a table place.
#[derive(Clone, Copy)]
pub struct PlanFault {
    pub refusal: Refusal,
    pub place: usize,
}

impl Refusal {
    // The plan's fault of this refusal at a table place.
    pub fn at(self, place: usize) -> PlanFault
        ensures { result ≡ plan_fault self place }
    {
        PlanFault {
            refusal: self,
            place,
        }
    }
}

#[derive(Clone, Copy)]
pub enum Fault {
    Plan(PlanFault),
    // No task can take the next level; how many tasks are left.
    Assignment(usize),
    // Met in the sheet itself, with the place of the command's first byte.
    InSheet(Refusal, usize),
    // A fault of the plan, whole, met at a command of the sheet, with the place of its first byte.
    RowInSheet(PlanFault, usize),
}

impl From<PlanFault> for Fault {
    ghost from_gives = { λ fault result. result ≡ Plan fault };

    fn from(refused: PlanFault) -> Fault {
        Fault::Plan(refused)
    }
}

impl Fault {
    pub fn refusal(self) -> Refusal
        ensures { result ≡ fault_refusal self }
    {
        match self {
            Fault::Plan(fault) | Fault::RowInSheet(fault, _) => fault.refusal,
            Fault::Assignment(_) => Refusal::NoTaskFits,
            Fault::InSheet(refusal, _) => refusal,
        }
    }

    // The outermost layer.
    pub fn layer(self) -> Layer
        ensures { result ≡ fault_layer self }
    {
        match self {
            Fault::Plan(_) => Layer::Plan,
            Fault::Assignment(_) => Layer::Assignment,
            Fault::InSheet(_, _) | Fault::RowInSheet(_, _) => Layer::Sheet,
        }
    }

    // The place in that layer; for the assignment, how many tasks are left.
    pub fn place(self) -> usize
        ensures { result ≡ fault_place self }
    {
        match self {
            Fault::Plan(fault) => fault.place,
            Fault::Assignment(left) => left,
            Fault::InSheet(_, place) | Fault::RowInSheet(_, place) => place,
        }
    }

    // The fault of the plan that a sheet's fault carries.
    pub fn inner(self) -> Option<PlanFault>
        ensures { result ≡ fault_inner self }
    {
        match self {
            Fault::RowInSheet(fault, _) => Some(fault),
            _ => None,
        }
    }
}

// The refusal's number, the layer and the place there. Where a sheet's fault holds one of the plan, that one's layer and place come first.
impl fmt::Display for Fault {
    ghost output = { λ fault. Some (fault_text fault) };

    fn fmt<W: fmt::Write>(&self, f: &mut fmt::Formatter<W>) -> fmt::Result {
        write!(f, "{}", self.refusal().number())?;
        if let Some(inner) = self.inner() {
            write!(f, " {} {}", Layer::Plan, inner.place)?;
        }
        write!(f, " {} {}", self.layer(), self.place())
    }
}
