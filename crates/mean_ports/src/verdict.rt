//! What a search along one trace for each port answers.

use est_meaning::firing::Firing;
use est_meaning::run::Run;
use est_meaning::trace::Trace;

/// Whether a specification explains some merge of the traces of its ports, within limits.
#[derive(Drop)]
pub enum PortsVerdict {
    /// A merge, and a run that explains it.
    Accepted {
        merge: Trace,
        run: Run,
    },
    /// The most events that a run yields of a merge, with such a merge and such a run.
    Refused {
        most: u32,
        merge: Trace,
        run: Run,
    },
    /// More moves are to be tried than the budget allows.
    OverTries {
        tried: u32,
    },
    /// After this run along this merge, which has so many events, the block of this firing, or a
    /// guard, passes its limit.
    OverAction {
        merge: Trace,
        run: Run,
        events: u32,
        firing: Option<Firing>,
    },
}
