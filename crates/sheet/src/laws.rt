// Theorems on the sheet language.
ghost use Rattle.model.specs.SegmentedRows.{segmented_kind};
ghost use Rattle.model.specs.WholeRows.{whole_kind};
ghost use Rattle.sheet.specs.Cuts.{CutIsCut};
ghost use Rattle.sheet.specs.NinthSegments.{TooManyIsNinth};
ghost use Rattle.sheet.specs.SegmentedSheets.{segmented_grammar};
ghost use Rattle.sheet.specs.SegmentedTasks.{SegmentedTask};
ghost use Rattle.sheet.specs.Sheets.{GoodIsLawful, NothingFollows, OneVerdict};
ghost use Rattle.sheet.specs.Spelling.{GoodIsWritten};
ghost use Rattle.sheet.specs.WholeSheets.{whole_grammar};
ghost use Rattle.sheet.specs.WholeTasks.{WholeTask};
ghost use Rattle.sheet.specs.Writing.{SegmentedFits, TableIsWritten, WholeFits, segmented_code, whole_code};

use model::row::Row;

// Every byte string is either accepted with one letter and list of rows, or refused with one fault; a byte after an accepted sheet is refused.
pub fn one_verdict<S, R>()
    ensures one { OneVerdict S R }
    ensures alone { NothingFollows S R }
{}

// Accepted are exactly the sheets that are the kind, a letter, one spelling of each row of a lawful table of at most 32 rows, and the closing
// command.
pub fn good_is_written()
    ensures segmented { GoodIsWritten segmented_grammar SegmentedTask segmented_kind }
    ensures whole { GoodIsWritten whole_grammar WholeTask whole_kind }
{}

// The table of an accepted sheet has at most 32 rows, all lawful, and no id twice.
pub fn good_is_lawful<S, R: Row>()
    ensures { GoodIsLawful S R R.Row.meaning }
{}

// What is written of a lawful table of at most 32 rows, task after task, is an accepted sheet with that table.
pub fn table_is_written()
    ensures segmented { TableIsWritten segmented_grammar segmented_kind SegmentedFits segmented_code }
    ensures whole { TableIsWritten whole_grammar whole_kind WholeFits whole_code }
{}

// A sheet is refused as cut at a place exactly if whole commands stand up to that place, and from there on a proper part of an allowed one.
pub fn cut_is_cut()
    ensures segmented { CutIsCut segmented_grammar segmented_kind }
    ensures whole { CutIsCut whole_grammar whole_kind }
{}

// A sheet is refused for too many segments at a place exactly if whole commands stand up to that place, the last of them the eighth segment
// of a row, and there stands a whole suspension.
pub fn too_many_is_ninth()
    ensures { TooManyIsNinth }
{}
