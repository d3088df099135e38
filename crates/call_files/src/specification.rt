//! The text of a specification.
ghost use Rattle.std.specs.Prelude.{◌≤◌, IfSome, IfNone, length};
ghost use Rattle.call_files.specs.Files.{limit_of};
ghost use Rattle.call_files.specs.Seen.{seen, shelved};
ghost use Rattle.call_files.specs.FileTexts.{OfSpecification, RefusesSpecification};
ghost use Rattle.call_files.specs.FileTexts.{SaysOfSpecification};
ghost use Rattle.call_files.specs.inside.OutOfMemory.{IsMemoryOfSpecification};
ghost use Rattle.call_files.specs.Reads.{ReadsFile, ReadsText};

use crate::Shelf;
use crate::diagnostic::{Diagnostic, refuse};
use crate::file::File;
use crate::reading::read_text;
use crate::report::rule_text;
use crate::status::Status;
use crate::stop::Stop;
use est_lexer::lex::lex;
use est_trace::est_check::{Checked, SpecificationError, read_specification};
use std::alloc::Global;

/// The specification in the file of this name.
pub fn specification_in<S: Shelf>(alloc: Global, shelf: &mut S, name: &str) -> Result<Checked, Stop>
    ensures { ReadsFile File.Specification name.now OfSpecification RefusesSpecification (seen
        (shelved (S.told shelf.old) (S.faults shelf.old) (S.started shelf.old) (S.taken shelf.old))
        (shelved (S.told shelf.new) (S.faults shelf.new) (S.started shelf.new) (S.taken shelf.new)))
        result }
{
    let text = read_text(alloc, shelf, name, File::Specification)?;
    specification_of(alloc, text.as_slice())
}

// The specification that a text within its limit is.
fn specification_of(alloc: Global, text: &[u8]) -> Result<Checked, Stop>
    requires { length text.now ≤ limit_of File.Specification }
    ensures { ReadsText File.Specification OfSpecification RefusesSpecification text.now result }
{
    let tokens = lex(alloc, text)?;
    match read_specification(alloc, &tokens) {
        Ok(read) => Ok(read),
        Err(error) => Err(refuse(alloc, File::Specification, &tokens, said_of(error))),
    }
}

// What is said of an error, unless memory ran out.
fn said_of(error: SpecificationError) -> Option<Diagnostic>
    ensures said { IfSome result
        (λ said. SaysOfSpecification error said.status said.place said.why.now) }
    ensures unsaid { IfNone result (IsMemoryOfSpecification error) }
{
    let (place, why) = match error {
        SpecificationError::BadToken { place } => (place, "bad token"),
        SpecificationError::LeftOut { place } => (place, "left out"),
        SpecificationError::TooDeep { place } => (place, "nested too deep"),
        SpecificationError::BrokenRule { place, rule } => (place, rule_text(rule)),
        SpecificationError::Memory(_) => return None,
    };
    Some(Diagnostic {
        status: Status::BadSpec,
        place: Some(place),
        why,
    })
}
