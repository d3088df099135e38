//! What is said of a text that is refused.
ghost use Rattle.std.specs.Prelude.{◌≡◌, IfSome, IfNone, IfOk, string_bytes};
ghost use Rattle.est_lexer.specs.Offsets.{text_of, tokens_of};
ghost use Rattle.call_files.specs.FileTexts.{refusal_at};
ghost use Rattle.call_files.specs.Reads.{StopsWith};

use crate::file::File;
use crate::report::{Report, line_report, refusal_report};
use crate::status::Status;
use crate::stop::Stop;
use est_lexer::tokens::Tokens;
use std::alloc::{AllocError, Global};

/// What is said of a text that is refused: at a token or after the last one, or as a whole.
#[derive(Clone, Copy)]
pub struct Diagnostic {
    pub status: Status,
    pub place: Option<u32>,
    pub why: &'static str,
}

/// Stops with the report of what is said. Where nothing is, it was memory that ran out.
pub fn refuse(alloc: Global, file: File, tokens: &Tokens<'_>, said: Option<Diagnostic>) -> Stop
    ensures said { IfSome said (λ said. StopsWith said.status (refusal_at file
        (text_of tokens.now) (tokens_of tokens.now) said.place said.why.now) result) }
    ensures unsaid { IfNone said (result ≡ Stop.OutOfMemory) }
{
    let Some(Diagnostic { status, place, why }) = said else {
        return Stop::OutOfMemory;
    };
    match refusal_text(alloc, file, tokens, place, why) {
        Ok(text) => Stop::Refused(Report {
            status,
            text: text.into_bytes(),
        }),
        Err(_) => Stop::OutOfMemory,
    }
}

// The line of a refusal.
fn refusal_text(
    alloc: Global,
    file: File,
    tokens: &Tokens<'_>,
    place: Option<u32>,
    why: &str,
) -> Result<String, AllocError>
    ensures { IfOk result (λ report. string_bytes report ≡ refusal_at file
        (text_of tokens.now) (tokens_of tokens.now) place why.now) }
{
    match place {
        Some(place) => {
            let (line, column) = tokens.line_column(place.min(tokens.count()));
            refusal_report(alloc, file, line, column, why)
        }
        None => line_report(alloc, why),
    }
}
