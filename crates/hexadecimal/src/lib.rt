// Bytes from text with two hexadecimal digits for each.
#![tactic(auto)]

ghost use Rattle.std.specs.Prelude.{◌≡◌, ℕ, ◌*◌, ◌<◌, ◌≤◌, MatchOption, length, ◌≢◌};
ghost use Rattle.hexadecimal.specs.Hexadecimal.{Decodes, Spells, SpellsByte, Unspelled, symbol_of};

use arrayvec::ArrayVec;

// The value of a digit.
fn digit(symbol: u8) -> Option<u8>
    ensures { MatchOption result ((d : ℕ) → d < 16 → symbol_of d ≢ symbol) (λ d. (d < 16) × (symbol_of d ≡ symbol)) }
{
    // `char::to_digit` and the crate hex take capital letters too, which are no digits here.
    match symbol {
        b'0'..=b'9' => Some(symbol - b'0'),
        b'a'..=b'f' => Some(symbol - b'a' + 10),
        _ => None,
    }
}

// The byte that two digits spell.
fn byte(high: u8, low: u8) -> Option<u8>
    ensures { MatchOption result ((b : ℕ) → SpellsByte b high low → ⊥) (λ b. SpellsByte b high low) }
{
    Some(16 * digit(high)? + digit(low)?)
}

// Writes the bytes that the text spells to the start of the memory. How many there are; none if the text spells none, or more than the
// memory holds.
pub fn decode(text: &[u8], memory: &mut [u8]) -> Option<usize>
    ensures { Decodes text.now memory.old memory.new result }
{
    let count = text.len() / 2;
    if text.len() % 2 != 0 || count > memory.len() {
        return None;
    }
    let (pairs, _) = text.as_chunks::<2>();
    for (i, pair) in pairs.iter().enumerate() {
        memory[i] = byte(pair[0], pair[1])?;
    }
    Some(count)
}

// The bytes that the text spells; none if the text spells none, or more than `MOST`.
// Of a fixed capacity, not on the heap: a text of any length has an answer, with no memory to run out of.
pub fn decoded<const MOST: usize>(text: &[u8]) -> Option<ArrayVec<u8, MOST>>
    ensures { MatchOption result (length text.now ≤ 2 * MOST → Unspelled text.now) (λ bytes. Spells text.now bytes.items) }
{
    let mut bytes = ArrayVec::from([0; MOST]);
    let count = decode(text, bytes.as_mut_slice())?;
    bytes.truncate(count);
    Some(bytes)
}
