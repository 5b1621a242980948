//! How a run ends.

ghost use Rattle.std.specs.Prelude.{◌≡◌, pos};
ghost use Rattle.run_status.specs.Codes.{status_code_of};

/// How a run ended, which is the program's status.
#[derive(Clone, Copy, Debug, PartialEq, Eq)]
pub enum Status {
    /// As many plans were listed as were asked for.
    Reached,
    /// As many plans were listed as were asked for, and there is another.
    MoreLeft,
    /// Each block of the list is good.
    Good,
    /// The summary of a demonstration was written.
    Shown,
    /// A certificate was written that no plan exists.
    Proved,
    /// A certificate shows that no plan exists.
    Refuted,
    /// All plans were listed: fewer than were asked for or, where one more was looked for, no more.
    Exhausted,
    /// A block of the list fails.
    BadList,
    /// All plans up to the greatest cost that is wanted were listed: fewer than were asked for or, where one
    /// more was looked for, no more.
    Bounded,
    /// The list that was to be gone on from misses a plan.
    Gap,
    /// There is a plan, so that no certificate was written.
    HasPlan,
    /// A certificate doesn't show that no plan exists.
    NotShown,
    /// A line of a text offends.
    Offending,
    /// The words aren't those of the usage text.
    Usage,
    /// A text is longer than 268,435,456 bytes.
    TooLong,
    /// A file can't be read.
    Unreadable,
    /// The sink refused bytes.
    WriteFault,
    /// All plans of at most 64-bit cost were listed, fewer than were asked for or, where one more was looked
    /// for, no more, and there is a dearer one.
    CostRange,
    /// Out of memory.
    Memory,
}

impl Status {
    /// The exit status of the program: 0 where all went as asked, 10 and above else.
    pub fn code(self) -> i32
        ensures { result ≡ status_code_of self }
    {
        match self {
            Status::Reached | Status::MoreLeft | Status::Good | Status::Shown => 0,
            Status::Proved | Status::Refuted => 0,
            Status::Exhausted => 10,
            Status::BadList => 11,
            Status::Bounded => 13,
            Status::Gap => 14,
            Status::HasPlan => 15,
            Status::NotShown => 16,
            Status::Offending => 20,
            Status::Usage => 21,
            Status::TooLong => 22,
            Status::Unreadable => 23,
            Status::WriteFault => 24,
            Status::CostRange => 31,
            Status::Memory => 40,
        }
    }
}
