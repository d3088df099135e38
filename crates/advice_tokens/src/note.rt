//! Notes of texts, a line for each.

use std::alloc::{AllocError, Global};

/// A place of a file: the word for the file in reports, a line and a column.
#[derive(Clone, Copy)]
pub struct Spot {
    pub file: &'static str,
    pub line: u32,
    pub column: u32,
}

/// Adds the line of a note.
pub fn append_note(
    alloc: Global,
    notes: &mut String,
    spot: Spot,
    text: &str,
) -> Result<(), AllocError> {
    let Spot { file, line, column } = spot;
    let note = format!(in alloc; "{file}:{line}:{column}: note: {text}\n")?;
    notes.push_str(&note)
}

/// The characters of ASCII that bytes are, with a question mark for each other byte and for each
/// character that is not printed.
pub fn printed(alloc: Global, bytes: &[u8]) -> Result<String, AllocError> {
    let mut text = String::new(alloc);
    for byte in bytes {
        text.push(if *byte >= 32 && *byte < 127 {
            *byte as char
        } else {
            '?'
        })?;
    }
    Ok(text)
}
