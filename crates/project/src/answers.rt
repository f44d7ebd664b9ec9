// What calls answer that refuse: the check that fails first and the task that it names.
ghost use Rattle.std.specs.Prelude.{◌≡◌};
ghost use Rattle.project.specs.Checklist.{number_of, no_task, refusal};

use std::fmt;

// The task that a check names which is about no task.
pub const NO_TASK: u8 = 255;

// The checks, in the order of the documents' numbers, each by what fails it. The number 10 is never given any more, and no check has it.
#[derive(Clone, Copy, PartialEq, Eq)]
pub enum Check {
    // A work area has not 24,832 numbers, or a table not 64.
    ListLength,
    // The file has under 8 bytes, or more than the longest file.
    FileLength,
    // The first four bytes are not the mark.
    WrongMark,
    // The edition is none that the call reads.
    WrongEdition,
    // n is outside 1 to 16; in edition 2 outside 1 to 32.
    CacheBlocks,
    // t is outside 1 to 8, or the bytes after it are not 0; for the writer: not 1 to 8 lengths.
    TaskCount,
    // The contents do not tell bodies that follow each other to the file's end; for the writer: the lengths' sum isn't the joined length.
    WrongContents,
    // A body breaks its layout.
    BrokenLayout,
    // A block lies on no complete path.
    OffPath,
    // A block has 33 or more reaching states, or as many live states.
    TooManyStates,
    // A sheet is short or too long, or a length, count, task or position breaks its rules, or the pairs of position and references done fall.
    SheetRules,
    // A path of the sheet isn't complete, or names a block that isn't there, or the number of references done at a point is wrong.
    WrongPath,
    // The out list is shorter than the file.
    OutLength,
    // The task isn't below t.
    NoSuchTask,
    // A preemption of the sheet comes in a masked block.
    MaskedPoint,
    // A pair number is over 16, a penalty outside 1 to 1,000 or a clock outside 1 to 1,000,000.
    OutOfBounds,
    // The two tasks are equal, or one isn't below t.
    SameTasks,
    // The lent sheet has fewer than 2,311 numbers.
    SheetLength,
    // A nested sheet has a run with preemptions at depth 7, or a task within itself.
    TooDeep,
    // A response time list has not one record a task, a time is outside 1 to 1,000,000, a deadline over its period or the penalty over 1,000.
    WrongTimes,
}

impl Check {
    // The documents' number of the check.
    pub fn number(self) -> u8
        ensures { result ≡ number_of self }
    {
        match self {
            Check::ListLength => 1,
            Check::FileLength => 2,
            Check::WrongMark => 3,
            Check::WrongEdition => 4,
            Check::CacheBlocks => 5,
            Check::TaskCount => 6,
            Check::WrongContents => 7,
            Check::BrokenLayout => 8,
            Check::OffPath => 9,
            Check::TooManyStates => 11,
            Check::SheetRules => 12,
            Check::WrongPath => 13,
            Check::OutLength => 14,
            Check::NoSuchTask => 15,
            Check::MaskedPoint => 16,
            Check::OutOfBounds => 17,
            Check::SameTasks => 18,
            Check::SheetLength => 19,
            Check::TooDeep => 20,
            Check::WrongTimes => 21,
        }
    }
}

// The check that fails first and the task that it names, `NO_TASK` if none.
#[derive(Clone, Copy, PartialEq, Eq)]
pub struct Refusal {
    pub check: Check,
    pub task: u8,
}

// As crpd prints it: "refused 8 task 0".
impl fmt::Display for Refusal {
    fn fmt<W: fmt::Write>(&self, f: &mut fmt::Formatter<W>) -> fmt::Result {
        write!(f, "refused {} task {}", self.check.number(), self.task)
    }
}

// A check that names no task.
impl From<Check> for Refusal {
    ghost from_gives = { λ check result. result ≡ refusal check no_task };

    fn from(check: Check) -> Refusal {
        Refusal {
            check,
            task: NO_TASK,
        }
    }
}

// What an accepted file begins with: its cache blocks and its tasks.
#[derive(Clone, Copy, PartialEq, Eq)]
pub struct Accepted {
    pub n: u8,
    pub t: u8,
}
