//! How a call ended.
ghost use Rattle.std.specs.Prelude.{◌≡◌};
ghost use Rattle.call_files.specs.Statuses.{code_of};

/// How a call ended. Its number is the exit status of the program.
#[derive(Clone, Copy, PartialEq, Eq)]
pub enum Status {
    /// The specification is good, the trace is explained, or the explanation is confirmed.
    Fine = 0,
    /// No run explains the trace, or the explanation is rejected.
    Refused = 1,
    /// The specification's text has a fault.
    BadSpec = 2,
    /// The trace's text has a fault.
    BadTrace = 3,
    /// The explanation's text has a fault.
    BadExplanation = 4,
    /// The firings or moves that may be tried were used up, or something passed its limit of
    /// statements.
    OverBudget = 5,
    /// A file is longer than its limit.
    TooLong = 6,
    /// The words ask for nothing that the program does.
    Usage = 7,
    /// A file could not be read.
    ReadFault = 8,
    /// The report could not be written.
    WriteFault = 9,
    /// Out of memory.
    OutOfMemory = 10,
    /// The start of the specification faults.
    NoStart = 11,
}

impl Status {
    /// The exit status.
    pub fn code(self) -> u8
        ensures { result ≡ code_of self }
    {
        self as u8
    }
}
