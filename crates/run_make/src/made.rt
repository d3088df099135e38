//! What is made.

use est_meaning::mean_blocks::fault::BlockFault;
use est_meaning::run::Run;
use est_meaning::trace::Trace;

/// A trace with a run that explains it; or a start that faults or passes its limit; or a run after
/// which a block or guard passed its limit.
#[derive(Drop)]
pub enum Made {
    Trace { trace: Trace, run: Run },
    NoStart(BlockFault),
    StartLimit,
    Limit { run: Run },
}
