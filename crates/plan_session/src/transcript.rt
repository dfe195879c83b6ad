// Calls and their answers, a line each.
use std::fmt::Display;
use std::{fmt, io};
use table::fault::Fault;

// What a call answers where it is not refused.
#[derive(Clone, Copy)]
pub enum Answer {
    Done,
    // The letter of a loaded sheet's test.
    Loaded(u8),
    // The id and the bound of the task at a level.
    Read(u16, u32),
}

impl From<()> for Answer {
    fn from((): ()) -> Answer {
        Answer::Done
    }
}

impl From<u8> for Answer {
    fn from(letter: u8) -> Answer {
        Answer::Loaded(letter)
    }
}

impl From<(u16, u32)> for Answer {
    fn from((id, bound): (u16, u32)) -> Answer {
        Answer::Read(id, bound)
    }
}

impl Display for Answer {
    fn fmt<W: fmt::Write>(&self, f: &mut fmt::Formatter<W>) -> fmt::Result {
        match *self {
            Answer::Done => write!(f, "done"),
            Answer::Loaded(letter) => write!(f, "test {}", char::from(letter)),
            Answer::Read(id, bound) => write!(f, "task {id} within {bound}"),
        }
    }
}

pub fn print_answer<C: Display + Drop, T: Into<Answer> + Drop>(
    rt: HostRuntime,
    call: C,
    answer: Result<T, Fault>,
) -> io::Result<()> {
    match answer {
        Ok(answer) => {
            let answer: Answer = answer.into();
            println!(rt; "{call}: {answer}")
        }
        Err(fault) => println!(rt; "{call}: refused {fault}"),
    }
}
