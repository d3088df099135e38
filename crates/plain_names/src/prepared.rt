//! Texts of which most names are looked up once.

ghost use Rattle.std.specs.Prelude.{◌≡◌, IfOk};

use crate::part_names::names_known;
use est_syntax::specification::Spec;
use plain_texts::rule_scope::outline::Outline;
use plain_texts::text::Text;
use std::alloc::{AllocError, Global};

/// The text of a specification that declares this.
pub fn text_of<'t>(
    alloc: Global,
    spec: &'t Spec,
    outline: &'t Outline,
) -> Result<Text<'t>, AllocError>
    ensures { IfOk result (λ text. text ≡ record { spec = spec.now; outline = outline.now }) }
{
    let known = names_known(alloc, outline, spec.parts.as_slice())?;
    Text::new(alloc, spec, known)
}
