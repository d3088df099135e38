//! What is wrong with a line of a file of cases.

use std::alloc::{AllocError, AllocFailed};

/// Why a line can not be taken, or a case not be run.
#[derive(Clone, Copy)]
pub enum Mistake {
    NoSuchLine,
    NoEquals,
    NoSuchColumn,
    TooFewCells,
    TooManyCells,
    NoSuchText,
    NoTextBegun,
    BadEscape,
    BadNumber,
    BadPlan,
    BadExpectation,
    NothingExpected,
    NoSpecification,
    NotThereOnce,
    NotPrinted,
    NotUtf8,
    Unreadable,
    Unwritable,
    TooLong,
    OutOfMemory,
}

impl Mistake {
    /// What is told of it.
    pub fn text(self) -> &'static str {
        match self {
            Mistake::NoSuchLine => "no line of a file of cases begins like this",
            Mistake::NoEquals => "a name, `=` and a cell are wanted",
            Mistake::NoSuchColumn => "there is no column of this name",
            Mistake::TooFewCells => "there are fewer cells than columns",
            Mistake::TooManyCells => "there are more cells than columns",
            Mistake::NoSuchText => "there is no shared text of this name",
            Mistake::NoTextBegun => "no shared text is begun before this line",
            Mistake::BadEscape => "no escape is written like this",
            Mistake::BadNumber => "a number is wanted",
            Mistake::BadPlan => "a shelf or a sink has `pieces N`, `fails N` and `room N`",
            Mistake::BadExpectation => "an expectation is `wrong` or is left out",
            Mistake::NothingExpected => "the column `gives` is wanted",
            Mistake::NoSpecification => "something is replaced, and there is no specification",
            Mistake::NotThereOnce => "what is replaced does not stand there once",
            Mistake::NotPrinted => "the specification is good, and is not printed",
            Mistake::NotUtf8 => "a word or a file of cases is not in UTF-8",
            Mistake::Unreadable => "a file of cases can not be read",
            Mistake::Unwritable => "standard output can not be written",
            Mistake::TooLong => "the text is too long for a list of tokens",
            Mistake::OutOfMemory => "memory ran out",
        }
    }
}

impl From<AllocError> for Mistake {
    fn from(_: AllocError) -> Mistake {
        Mistake::OutOfMemory
    }
}

impl<T: Drop> From<AllocFailed<T>> for Mistake {
    fn from(_: AllocFailed<T>) -> Mistake {
        Mistake::OutOfMemory
    }
}
