//! How far events agree with a trace.
ghost use Rattle.std.specs.Prelude.{◌≤◌, length};
ghost use Rattle.est_search.specs.inside.Agreement.{AgreeFor};

use est_meaning::event::Event;
use est_meaning::trace::{Expected, agrees};

/// For how many events these agree with the trace from a place on.
pub fn agreed(trace: &[Expected], from: usize, events: &[Event]) -> usize
    requires { from ≤ length trace.now }
    ensures { AgreeFor trace.now from events.now result }
{
    let mut many = 0;
    for event in events {
        if from + many >= trace.len() {
            return many;
        }
        if !agrees(&trace[from + many], event) {
            return many;
        }
        many += 1;
    }
    many
}
