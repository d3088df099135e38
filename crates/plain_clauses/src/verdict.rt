//! What a guard says.
ghost use Rattle.std.specs.Prelude.{◌≡◌, ◌&&◌, ◌||◌};

use crate::ages::Waited;
use crate::met::Met;

/// Whether a part of the guard of a choice passes its limit, and whether the choice is enabled,
/// offered and due.
#[derive(Clone, Copy)]
pub struct Verdict {
    pub passes: bool,
    pub enabled: bool,
    pub offered: bool,
    pub due: bool,
}

/// What a condition and a delay say together, where some part may have passed its limit before.
pub fn joined(passed: bool, met: Met, waited: Waited) -> Verdict
    ensures { result ≡ record {
      passes = passed || (met.passes || waited.passes);
      enabled = met.holds && waited.valued;
      offered = (met.holds && waited.valued) && waited.least;
      due = ((met.holds && waited.valued) && waited.least) && waited.most;
    } }
{
    let enabled = met.holds && waited.valued;
    let offered = enabled && waited.least;
    Verdict {
        passes: passed || met.passes || waited.passes,
        enabled,
        offered,
        due: offered && waited.most,
    }
}
