//! The text of a specification, where names are looked up by their places.

use call_files::est_check::Checked;
use call_files::est_lexer::lex::lex;
use call_files::est_lexer::tokens::{MOST_BYTES, Tokens};
use est_meaning::rule_scope::outline::Outline;
use rule_ports::ports::Ports;
use std::alloc::{AllocError, Global};

/// The tokens of a specification and where its lines end, with what it declares and its ports.
#[derive(Drop)]
pub(crate) struct Source<'t> {
    pub tokens: Tokens<'t>,
    line_ends: Vec<usize>,
    pub outline: &'t Outline,
    pub ports: &'t Ports,
}

// Where the lines of a text end.
fn line_ends_of(alloc: Global, text: &[u8]) -> Result<Vec<usize>, AllocError> {
    let mut ends = Vec::new(alloc);
    for (at, byte) in text.iter().enumerate() {
        if *byte == b'\n' {
            ends.push(at)?;
        }
    }
    Ok(ends)
}

impl<'t> Source<'t> {
    /// The source of a specification. Errs where memory runs out, and for a text that is longer
    /// than any may be.
    pub fn new(
        alloc: Global,
        text: &'t [u8],
        checked: &'t Checked,
    ) -> Result<Source<'t>, AllocError> {
        if text.len() > MOST_BYTES {
            return Err(AllocError);
        }
        let line_ends = line_ends_of(alloc, text)?;
        let tokens = lex(alloc, text)?;
        Ok(Source {
            tokens,
            line_ends,
            outline: checked.table().outline(),
            ports: checked.ports(),
        })
    }

    /// The name that stands at a place.
    pub fn name(&self, place: u32) -> &[u8] {
        if place < self.tokens.count() {
            self.tokens.spelled(place)
        } else {
            &[]
        }
    }

    /// The line of a place, from 1, and 0 for no place.
    pub fn line(&self, place: u32) -> usize {
        let Some(token) = self.tokens.token_at(place) else {
            return 0;
        };
        let start = token.start as usize;
        self.line_ends
            .partition_point(|end| *end < start)
            .saturating_add(1)
    }
}

/// A text of bytes, with a question mark for each that is no character of ASCII.
pub(crate) fn ascii(alloc: Global, bytes: &[u8]) -> Result<String, AllocError> {
    let mut text = String::new(alloc);
    for byte in bytes {
        text.push(if *byte < 128 { *byte as char } else { '?' })?;
    }
    Ok(text)
}
