// Sheets: the byte language in which tables of tasks are written down. A sheet is a kind byte, a test letter and commands; a command is one
// byte with its operands. A kind of row with a sheet, `SheetRow`, names its `Draft`, which says which commands and letters the kind takes; the
// reader goes command by command and puts the rows into a table in lent memory.
#![tactic(auto)]

pub mod bytes;
pub mod command;
pub mod draft;
pub mod laws;
pub mod operands;
pub mod reader;
pub mod segmented;
pub mod sheet;
pub mod whole;
