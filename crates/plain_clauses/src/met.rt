//! What conditions say together.
ghost use Rattle.std.specs.Prelude.{◌≡◌, ◌&&◌, ◌||◌};
ghost use Rattle.plain_clauses.specs.EvaluatedParts.{is_past, is_held_unmet};

use crate::evaluated::{Evaluated, is_past, is_unmet};

/// Whether what is provided holds, and whether a condition passes its limit.
#[derive(Clone, Copy)]
pub struct Met {
    pub holds: bool,
    pub passes: bool,
}

/// What an `otherwise` says that refers to one condition more.
pub fn with_unmet(met: Met, part: Evaluated) -> Met
    ensures { result ≡ record {
      holds = met.holds && is_held_unmet part;
      passes = met.passes || is_past part;
    } }
{
    Met {
        holds: met.holds && is_unmet(part),
        passes: met.passes || is_past(part),
    }
}
