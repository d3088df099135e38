//! Whether a body has states, and names the first one.

ghost use Rattle.std.specs.Prelude.{◌≡◌};
ghost use Rattle.est_types.specs.inside.DeclarationParts.{have_states, has_first};

use est_syntax::body::{FirstPart, Part};

/// Whether there is a `state` section among parts.
pub fn have_states(parts: &[Part]) -> bool
    ensures { result ≡ have_states parts.now }
{
    for part in parts {
        if let Part::States(_) = part {
            return true;
        }
    }
    false
}

/// Whether the first state is named.
pub fn has_first(first: &Option<FirstPart>) -> bool
    ensures { result ≡ has_first first.now }
{
    match first {
        None => false,
        Some(first) => first.to.is_some(),
    }
}
