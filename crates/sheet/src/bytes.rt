// The bytes of kinds and commands.
// No enum with TryFrom: it would be a step between the byte and the pair that a draft matches, and each kind of sheet has its own bytes.

// Kinds of sheets.
pub const SEGMENTED: u8 = 0x47;

pub const WHOLE: u8 = 0x57;

// Between tasks: opens a segmented task, or does so with the deadline at the period, has a whole task, ends the sheet.
pub const OPEN: u8 = 0x4E;

pub const OPEN_SHORT: u8 = 0x49;

pub const WHOLE_TASK: u8 = 0x56;

pub const END: u8 = 0x51;

// After an opening or a suspension: a segment.
pub const SEGMENT: u8 = 0x43;

// After a segment: a suspension, one with both ends equal, or the task's end.
pub const SUSPENSION: u8 = 0x53;

pub const SUSPENSION_SHORT: u8 = 0x46;

pub const TASK_END: u8 = 0x45;
