// What every kind of row offers.
ghost use Rattle.std.specs.Prelude.{◌≡◌};
ghost use Rattle.model.specs.Rows.{Kind};

pub trait Row: Copy {
    // What the rows of this kind mean, with the rules that every kind keeps.
    ghost meaning: { Kind Self };

    fn is_lawful(&self) -> bool
        ensures { result ≡ meaning.lawful self.now };

    fn id(&self) -> u16
        ensures { result ≡ meaning.ident self.now };

    fn period(&self) -> u32
        ensures { result ≡ meaning.period self.now };

    fn deadline(&self) -> u32
        ensures { result ≡ meaning.deadline self.now };

    // The most that a job computes in all.
    fn compute(&self) -> u64
        ensures { result ≡ meaning.compute self.now };

    // The most that a job suspends itself in all.
    fn suspend(&self) -> u64
        ensures { result ≡ meaning.suspend self.now };

    // The row with 0 in every field.
    fn blank() -> Self
        ensures { result ≡ meaning.blank };
}
