// One line of known answers.
use crate::ask::Question;
use arrayvec::ArrayVec;
use hexadecimal::decoded;
use known_values::HeaplessVector;
use planning::SHEET_BYTES;

#[derive(Drop)]
pub struct AnswerVector {
    question: Question,
    sheet: ArrayVec<u8, SHEET_BYTES>,
    bound: Option<u32>,
}

fn read_letter(field: &str) -> Option<u8> {
    match field.as_bytes() {
        [letter] => Some(*letter),
        _ => None,
    }
}

// A bound, or that there is none. None if the field is neither.
fn read_bound(field: &str) -> Option<Option<u32>> {
    match field {
        "none" => Some(None),
        _ => field.parse::<u32>().ok().map(Some),
    }
}

// The question, the text of the sheet, and the bound.
fn read_fields(line: &str) -> Option<(Question, &str, Option<u32>)> {
    let mut fields = line.split('\t');
    let letter = read_letter(fields.next()?)?;
    let sheet = fields.next()?;
    let place = fields.next()?.parse::<usize>().ok()?;
    let above = fields.next()?.parse::<u32>().ok()?;
    let bound = read_bound(fields.next()?)?;
    let question = Question {
        letter,
        place,
        above,
    };
    Some((question, sheet, bound))
}

impl HeaplessVector for AnswerVector {
    fn read(line: &str) -> Option<AnswerVector> {
        let (question, text, bound) = read_fields(line)?;
        let sheet = decoded(text.as_bytes())?;
        Some(AnswerVector {
            question,
            sheet,
            bound,
        })
    }

    // Whether the test that the letter names gives the known answer.
    fn holds(&self) -> bool {
        self.question.ask(&self.sheet) == Ok(self.bound)
    }
}
