//! Why tokens are no specification.

ghost use Rattle.std.specs.Prelude.{◌≡◌};
ghost use Rattle.est_check.specs.Errors.{of_refusal, of_fault};

use crate::CheckError;
use est_grammar::ParseError;
use est_syntax::rule::Rule;
use std::alloc::AllocError;
use thiserror::Error;

/// Why tokens are no specification, with the number of the refused token, counted from 0. Only a
/// sentence breaks a rule; the place of a broken rule is that of the least fault.
#[derive(Debug, Drop, Error)]
pub enum SpecificationError {
    #[error("bad token {place}")]
    BadToken { place: u32 },
    #[error("token {place} is left out")]
    LeftOut { place: u32 },
    /// The token opens a level more than may be open.
    #[error("token {place} is nested too deep")]
    TooDeep { place: u32 },
    #[error("token {place}: {rule:?}")]
    BrokenRule { place: u32, rule: Rule },
    #[error(transparent)]
    Memory(AllocError),
}

impl From<ParseError> for SpecificationError {
    ghost from_gives = { λ refusal e. e ≡ of_refusal refusal };

    fn from(refusal: ParseError) -> SpecificationError {
        match refusal {
            ParseError::BadToken { place } => SpecificationError::BadToken { place },
            ParseError::LeftOut { place } => SpecificationError::LeftOut { place },
            ParseError::TooDeep { place } => SpecificationError::TooDeep { place },
            ParseError::Memory(error) => SpecificationError::Memory(error),
        }
    }
}

impl From<CheckError> for SpecificationError {
    ghost from_gives = { λ fault e. e ≡ of_fault fault };

    fn from(fault: CheckError) -> SpecificationError {
        match fault {
            CheckError::Fault { place, rule } => SpecificationError::BrokenRule { place, rule },
            CheckError::Memory(error) => SpecificationError::Memory(error),
        }
    }
}
