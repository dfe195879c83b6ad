// Bytes and decimal numbers, written one after the other into a memory.
ghost use Rattle.std.specs.Prelude.{◌+◌, ◌≤◌, [], ◌∷◌, ◌++◌, length};
ghost use Rattle.report.specs.Memory.{Appends};

use itoa::{Buffer, Integer};

pub(crate) const SPACE: u8 = b' ';

pub(crate) const NEWLINE: u8 = b'\n';

// How many bytes a report's memory has at least.
pub const REPORT_BYTES: usize = 1024;

// A memory, and the place in it where the next byte goes.
// Not a sink of `write!`: std promises the text only where the sink answers Ok, and in memory long enough a report is never refused.
#[derive(Drop)]
pub(crate) struct Writer<'a> {
    pub(crate) memory: &'a mut [u8],
    pub(crate) at: usize,
}

impl Writer<'_> {
    pub(crate) fn text(&mut self, text: &[u8])
        requires { self.old.at + length text.now ≤ length self.old.memory.now }
        ensures { Appends self.old text.now self.new }
    {
        let end = self.at + text.len();
        self.memory[self.at..end].copy_from_slice(text);
        self.at = end;
    }

    // The number in decimal, without leading zeros.
    pub(crate) fn number<I: Integer>(&mut self, number: I)
        requires { self.old.at + I.MAX_STR_LEN ≤ length self.old.memory.now }
        ensures appends { Appends self.old (I.text number) self.new }
        ensures short { self.new.at ≤ self.old.at + I.MAX_STR_LEN }
    {
        let mut buffer = Buffer::new();
        self.text(buffer.format(number).as_bytes());
    }

    // A number and the byte that ends its field.
    pub(crate) fn field<I: Integer>(&mut self, number: I, end: u8)
        requires { self.old.at + I.MAX_STR_LEN + 1 ≤ length self.old.memory.now }
        ensures appends { Appends self.old (I.text number ++ end ∷ []) self.new }
        ensures short { self.new.at ≤ self.old.at + I.MAX_STR_LEN + 1 }
    {
        self.number(number);
        self.text(&[end]);
    }
}
