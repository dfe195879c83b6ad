// The numbered refusals, and the layers that meet them.
ghost use Rattle.std.specs.Prelude.{◌≡◌, [], ◌∷◌, Some};
ghost use Rattle.table.specs.Refusals.{StandsFor, layer_letter, refusal_number};

use std::fmt;

#[derive(Clone, Copy, Debug, PartialEq, Eq)]
pub enum Refusal {
    // A memory has too few entries.
    ShortMemory = 1,
    // A byte is not allowed at this point of the sheet.
    ByteNotAllowed = 2,
    // The sheet ends inside a command or before its closing command.
    SheetCut = 3,
    // A suspension follows the eighth segment.
    TooManySegments = 4,
    // The table already holds 32 tasks.
    TableFull = 5,
    // The row is not lawful.
    RowUnlawful = 6,
    // The id already stands in the table at a lower place.
    IdTaken = 7,
    // The id, level or order entry names no task, or an order entry names a task twice where the whole order is read.
    NoSuchTask = 8,
    // Bytes follow the closing command.
    BytesAfterEnd = 9,
    // No task can take the next level.
    NoTaskFits = 10,
}

impl Refusal {
    // A method and no From: contracts and callers speak of the number by its name, and `into` would hide which number it is.
    pub fn number(self) -> u8
        ensures { result ≡ refusal_number self }
    {
        self as u8
    }
}

// The byte is the number of no refusal, or the letter of no layer.
#[derive(Clone, Copy, Debug, PartialEq, Eq)]
pub struct UnknownCode;

impl TryFrom<u8> for Refusal {
    type Error = UnknownCode;

    ghost try_from_gives = { StandsFor refusal_number };

    fn try_from(number: u8) -> Result<Refusal, UnknownCode> {
        match number {
            1 => Ok(Refusal::ShortMemory),
            2 => Ok(Refusal::ByteNotAllowed),
            3 => Ok(Refusal::SheetCut),
            4 => Ok(Refusal::TooManySegments),
            5 => Ok(Refusal::TableFull),
            6 => Ok(Refusal::RowUnlawful),
            7 => Ok(Refusal::IdTaken),
            8 => Ok(Refusal::NoSuchTask),
            9 => Ok(Refusal::BytesAfterEnd),
            10 => Ok(Refusal::NoTaskFits),
            _ => Err(UnknownCode),
        }
    }
}

#[derive(Clone, Copy, Debug, PartialEq, Eq)]
pub enum Layer {
    // The table and the calls of the plan.
    Plan,
    // The sheet.
    Sheet,
    // The assignment of priorities.
    Assignment,
}

impl Layer {
    // A method and no From, as `Refusal::number`.
    pub fn letter(self) -> u8
        ensures { result ≡ layer_letter self }
    {
        match self {
            Layer::Plan => b'P',
            Layer::Sheet => b'S',
            Layer::Assignment => b'A',
        }
    }
}

impl TryFrom<u8> for Layer {
    type Error = UnknownCode;

    ghost try_from_gives = { StandsFor layer_letter };

    fn try_from(letter: u8) -> Result<Layer, UnknownCode> {
        match letter {
            b'P' => Ok(Layer::Plan),
            b'S' => Ok(Layer::Sheet),
            b'A' => Ok(Layer::Assignment),
            _ => Err(UnknownCode),
        }
    }
}

impl fmt::Display for Layer {
    ghost output = { λ layer. Some (layer_letter layer ∷ []) };

    fn fmt<W: fmt::Write>(&self, f: &mut fmt::Formatter<W>) -> fmt::Result {
        write!(f, "{}", char::from(self.letter()))
    }
}
