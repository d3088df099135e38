//! The text of an explanation.
ghost use Rattle.std.specs.Prelude.{◌≤◌, IfSome, IfNone, length, IfOk};
ghost use Rattle.est_lexer.specs.declared.tokens.TheConstants.{MOST_BYTES};
ghost use Rattle.call_files.specs.Files.{limit_of};
ghost use Rattle.call_files.specs.Seen.{seen, shelved};
ghost use Rattle.call_files.specs.FileTexts.{OfExplanation, RefusesExplanation, SaysOfExplanation};
ghost use Rattle.call_files.specs.inside.OutOfMemory.{IsMemoryOfExplanation};
ghost use Rattle.call_files.specs.Reads.{ReadsFile, ReadsText};

use crate::Shelf;
use crate::diagnostic::{Diagnostic, refuse};
use crate::file::File;
use crate::reading::read_text;
use crate::status::Status;
use crate::stop::Stop;
use est_explanation::error::ExplanationError;
use est_explanation::explanation::{Explanation, read_explanation};
use est_lexer::lex::lex;
use std::alloc::Global;

/// The explanation in the file of this name.
pub fn explanation_in<S: Shelf>(
    alloc: Global,
    shelf: &mut S,
    name: &str,
) -> Result<Explanation, Stop>
    ensures few { IfOk result (λ explanation. length explanation.moves ≤ MOST_BYTES) }
    ensures reads { ReadsFile File.Explanation name.now OfExplanation RefusesExplanation (seen
        (shelved (S.told shelf.old) (S.faults shelf.old) (S.started shelf.old) (S.taken shelf.old))
        (shelved (S.told shelf.new) (S.faults shelf.new) (S.started shelf.new) (S.taken shelf.new)))
        result }
{
    let text = read_text(alloc, shelf, name, File::Explanation)?;
    explanation_of(alloc, text.as_slice())
}

// The explanation that a text within its limit is.
fn explanation_of(alloc: Global, text: &[u8]) -> Result<Explanation, Stop>
    requires { length text.now ≤ limit_of File.Explanation }
    ensures few { IfOk result (λ explanation. length explanation.moves ≤ MOST_BYTES) }
    ensures reads { ReadsText File.Explanation OfExplanation RefusesExplanation text.now result }
{
    let tokens = lex(alloc, text)?;
    match read_explanation(alloc, &tokens) {
        Ok(explanation) => Ok(explanation),
        Err(error) => Err(refuse(alloc, File::Explanation, &tokens, said_of(error))),
    }
}

// What is said of an error, unless memory ran out.
fn said_of(error: ExplanationError) -> Option<Diagnostic>
    ensures said { IfSome result
        (λ said. SaysOfExplanation error said.status said.place said.why.now) }
    ensures unsaid { IfNone result (IsMemoryOfExplanation error) }
{
    match error {
        ExplanationError::BadToken { place } => Some(Diagnostic {
            status: Status::BadExplanation,
            place: Some(place),
            why: "bad token",
        }),
        ExplanationError::Memory(_) => None,
    }
}
