//! How far events are those that were given.
ghost use Rattle.std.specs.Prelude.{◌≤◌, length};
ghost use Rattle.est_watch.specs.inside.Agreement.{AreGivenFor};

use est_meaning::event::Event;

/// For how many events these are those given from a place on.
pub fn agreed(given: &[Event], from: usize, events: &[Event]) -> usize
    requires { from ≤ length given.now }
    ensures { AreGivenFor given.now from events.now result }
{
    let mut many = 0;
    for event in events {
        if from + many >= given.len() {
            return many;
        }
        if !event.is(&given[from + many]) {
            return many;
        }
        many += 1;
    }
    many
}
