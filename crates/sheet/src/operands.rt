// Operands: unsigned numbers, high byte first.
ghost use Rattle.std.specs.Prelude.{◌≡◌, ◌+◌, ◌<◌, ◌≤◌, length, take, Ok, Err};
ghost use Rattle.sheet.specs.Operands.{four_at, two_at};
ghost use Rattle.sheet.specs.declared.command.CommandFault.TheVariants.{Cut};

use crate::command::CommandFault;

// The first `width` bytes.
pub fn operands(rest: &[u8], width: usize) -> Result<&[u8], CommandFault>
    ensures { elim result [ Ok xs ↦ (width ≤ length rest.now) × (length xs.now ≡ width) × (xs.now ≡ take width rest.now) | Err e ↦ (length rest.now < width) × (e ≡ Cut) ] }
{
    rest.get(..width).ok_or(CommandFault::Cut)
}

// The numbers of two and of four bytes at a place. Two functions, each of one call of the library: a generic one would need a trait of numbers.
pub(crate) fn two(bytes: &[u8], at: usize) -> u16
    requires { at + 2 ≤ length bytes.now }
    ensures { result ≡ two_at bytes.now at }
{
    u16::from_be_bytes([bytes[at], bytes[at + 1]])
}

pub(crate) fn four(bytes: &[u8], at: usize) -> u32
    requires { at + 4 ≤ length bytes.now }
    ensures { result ≡ four_at bytes.now at }
{
    u32::from_be_bytes([bytes[at], bytes[at + 1], bytes[at + 2], bytes[at + 3]])
}
