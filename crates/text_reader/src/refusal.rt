//! Why a text is refused.

use std::alloc::AllocError;

/// Why tokens are no text of a grammar, with the number of the refused token, counted from 0. A
/// text that ends too early is refused after its last token.
#[derive(Copy, Clone)]
pub enum Refusal {
    /// The token at the place, or the end of the text, can't stand there.
    BadToken { place: u32 },
    /// The token at the place opens a level too many.
    TooDeep { place: u32 },
    /// Memory ran out, which says nothing of the tokens.
    Memory(AllocError),
}
