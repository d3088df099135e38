//! Lines of notes, and what stands in them.

use est_lexer::tokens::Tokens;
use std::alloc::AllocError;

/// What a line is: what is said of something that is refused, or of something good.
#[derive(Clone, Copy, PartialEq, Eq)]
pub enum Mark {
    Note,
    Warning,
}

impl Mark {
    /// The word for it.
    pub fn word(self) -> &'static str {
        match self {
            Mark::Note => "note",
            Mark::Warning => "warning",
        }
    }
}

/// Begins a line on a place.
pub fn begin_line(
    tokens: &Tokens,
    mark: Mark,
    place: u32,
    notes: &mut String,
) -> Result<(), AllocError> {
    let (line, column) = tokens.line_column(place.min(tokens.count()));
    let word = mark.word();
    write!(notes, "specification:{line}:{column}: {word}: ")
}

/// Adds a whole line on a place.
pub fn append_line(
    tokens: &Tokens,
    mark: Mark,
    place: u32,
    text: &str,
    notes: &mut String,
) -> Result<(), AllocError> {
    begin_line(tokens, mark, place, notes)?;
    write!(notes, "{text}\n")
}

/// Adds the line and the column of a place.
pub fn append_place(tokens: &Tokens, place: u32, notes: &mut String) -> Result<(), AllocError> {
    let (line, column) = tokens.line_column(place.min(tokens.count()));
    write!(notes, "{line}:{column}")
}

/// The bytes of the token at a place, and none after the last one.
pub fn spelled<'t>(tokens: &'t Tokens, place: u32) -> &'t [u8] {
    if place < tokens.count() {
        tokens.spelled(place)
    } else {
        &[]
    }
}

/// Adds bytes as text, with a question mark for each that is no character of ASCII.
pub fn append_bytes(bytes: &[u8], notes: &mut String) -> Result<(), AllocError> {
    for byte in bytes {
        notes.push(if *byte < 128 { *byte as char } else { '?' })?;
    }
    Ok(())
}

/// Adds the token at a place, as it is spelled there.
pub fn append_token(tokens: &Tokens, place: u32, notes: &mut String) -> Result<(), AllocError> {
    append_bytes(spelled(tokens, place), notes)
}
