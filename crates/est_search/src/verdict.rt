//! What a search answers.

use est_meaning::firing::Firing;
use est_meaning::mean_blocks::fault::BlockFault;
use est_meaning::run::Run;

/// After these moves the block of this firing has this fault.
#[derive(Drop)]
pub struct Faulted {
    pub run: Run,
    pub firing: Firing,
    pub fault: BlockFault,
}

/// Whether a specification explains a trace, within limits.
#[derive(Drop)]
pub enum Verdict {
    /// The first run that explains the trace.
    Accepted {
        run: Run,
    },
    /// The least number of events that no run yields, the first run that yields one fewer, and the
    /// first block that faults.
    Refused {
        at: u32,
        run: Run,
        faulted: Option<Faulted>,
    },
    /// More firings are to be tried than the budget allows.
    OverFirings {
        tried: u32,
    },
    /// After this run, which has so many events, the block of this firing, or a guard, is the first
    /// to pass its limit.
    OverAction {
        run: Run,
        events: u32,
        firing: Option<Firing>,
    },
}
