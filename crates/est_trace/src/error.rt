//! Why a trace text is refused.

ghost use Rattle.std.specs.Prelude.{◌≡◌};
ghost use Rattle.est_trace.specs.TraceErrors.{of_refusal};

use std::alloc::AllocError;
use text_reader::Refusal;
use thiserror::Error;

/// Why no trace is read: the first bad token, counted from 0, the token that begins an event too
/// many, or out of memory. The number of tokens stands for the end of the text.
#[derive(Debug, Drop, Error)]
pub enum TraceError {
    #[error("bad token {place}")]
    BadToken { place: u32 },
    #[error("too many events at token {place}")]
    TooMany { place: u32 },
    #[error(transparent)]
    Memory(AllocError),
}

impl From<Refusal> for TraceError {
    ghost from_gives = { λ refusal e. e ≡ of_refusal refusal };

    fn from(refusal: Refusal) -> TraceError {
        match refusal {
            Refusal::BadToken { place } => TraceError::BadToken { place },
            Refusal::TooDeep { place } => TraceError::TooMany { place },
            Refusal::Memory(error) => TraceError::Memory(error),
        }
    }
}
