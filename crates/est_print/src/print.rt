//! The printed text of a specification.

ghost use Rattle.std.specs.Prelude.{IfOk};
ghost use Rattle.est_print.specs.PrintedText.{IsOfSentence, IsPrintedText};

use crate::specification::specification;
use est_syntax::specification::Spec;
use std::alloc::{AllocError, Global};
use text_printer::Printer;

/// The printed text of a specification. A text that has no room for its numbers of bytes, at 4 GiB,
/// is taken for one that memory does not hold.
pub fn print_spec(alloc: Global, spec: &Spec) -> Result<Vec<u8>, AllocError>
    requires { IsOfSentence spec.now }
    ensures { IfOk result (λ text. IsPrintedText spec.now text.items) }
{
    let mut printer = Printer::new(alloc);
    specification(&mut printer, spec);
    printer.finish()
}
