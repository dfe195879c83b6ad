// Comparing with known values: each line of the input has some, and what is computed must be the same.
#![tactic(auto)]

ghost use Rattle.std.specs.Prelude.{◌≡◌, ◌+◌, if◌then◌else◌, min};

use std::alloc::{AllocError, Global};
use std::io;

// One line of known values.
pub trait Vector: Sized + Drop {
    // The values that a line has, if it has them.
    fn read(alloc: Global, line: &str) -> Result<Option<Self>, AllocError>;

    // Whether what is computed is what is known.
    fn holds(&self) -> bool;
}

// One line of known values that is read without the heap, so that there is no memory to run out of.
pub trait HeaplessVector: Sized + Drop {
    // The values that a line has, if it has them.
    fn read(line: &str) -> Option<Self>;

    // Whether what is computed is what is known.
    fn holds(&self) -> bool;
}

// How many were compared, and how many of them differ.
#[derive(Clone, Copy, Default)]
pub struct Tally {
    compared: u32,
    differ: u32,
}

impl Tally {
    pub fn count(&mut self, agrees: bool)
        ensures compared { self.new.compared ≡ min (self.old.compared + 1) u32.MAX }
        ensures differ { self.new.differ ≡ (if agrees then self.old.differ else min (self.old.differ + 1) u32.MAX) }
    {
        self.compared = self.compared.saturating_add(1);
        if !agrees {
            self.differ = self.differ.saturating_add(1);
        }
    }

    pub fn print(&self, rt: HostRuntime, what: &str) -> io::Result<()> {
        println!(rt; "{} {what}, {} differ", self.compared, self.differ)
    }
}

fn agrees<V: Vector>(alloc: Global, line: &str) -> Result<bool, AllocError> {
    Ok(V::read(alloc, line)?.is_some_and(|vector| vector.holds()))
}

fn agrees_heapless<V: HeaplessVector>(line: &str) -> bool {
    V::read(line).is_some_and(|vector| vector.holds())
}

// Compares each line but the comments, which begin with #. Lines that differ are printed, and at the end how many lines there are of each.
pub fn compare<V: Vector>(rt: HostRuntime, what: &str) -> io::Result<()> {
    let mut tally = Tally::default();
    for line in rt.lines(rt.alloc()) {
        let line = line?;
        if line.starts_with('#') {
            continue;
        }
        let agrees = agrees::<V>(rt.alloc(), &line)?;
        tally.count(agrees);
        if !agrees {
            println!(rt; "differs: {line}")?;
        }
    }
    tally.print(rt, what)
}

// The same with vectors that are read without the heap. The loop stands twice, since a shared one takes more stack (docs/DECISIONS.md).
pub fn compare_heapless<V: HeaplessVector>(rt: HostRuntime, what: &str) -> io::Result<()> {
    let mut tally = Tally::default();
    for line in rt.lines(rt.alloc()) {
        let line = line?;
        if line.starts_with('#') {
            continue;
        }
        let agrees = agrees_heapless::<V>(&line);
        tally.count(agrees);
        if !agrees {
            println!(rt; "differs: {line}")?;
        }
    }
    tally.print(rt, what)
}
