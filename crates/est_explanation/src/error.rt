//! Why an explanation text is refused.

ghost use Rattle.std.specs.Prelude.{◌≡◌};
ghost use Rattle.est_explanation.specs.ExplanationErrors.{of_refusal};

use std::alloc::AllocError;
use text_reader::Refusal;
use thiserror::Error;

/// Why no explanation is read: the first bad token, counted from 0, or out of memory. The number
/// of tokens stands for the end of the text.
#[derive(Debug, Drop, Error)]
pub enum ExplanationError {
    #[error("bad token {place}")]
    BadToken { place: u32 },
    #[error(transparent)]
    Memory(AllocError),
}

impl From<Refusal> for ExplanationError {
    ghost from_gives = { λ refusal e. e ≡ of_refusal refusal };

    fn from(refusal: Refusal) -> ExplanationError {
        match refusal {
            Refusal::BadToken { place } => ExplanationError::BadToken { place },
            Refusal::TooDeep { place } => ExplanationError::BadToken { place },
            Refusal::Memory(error) => ExplanationError::Memory(error),
        }
    }
}
