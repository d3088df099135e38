//! What is recorded of a run.
ghost use Rattle.std.specs.Prelude.{◌≡◌, ◌↔◌, All, IsTrue, true, false};
ghost use Rattle.est_meaning.specs.Agreement.{Agrees, IsSeenPartly};
ghost use Rattle.est_meaning.specs.RecordedTraces.{HasUnseen};

use crate::event::Event;
use est_seen::seen::{Seens, match_each};
use est_syntax::est_items::Items;
use std::marker::Model;

/// An event of a trace: one that is known, or a departure of which not every value was seen.
#[derive(Drop)]
pub enum Expected {
    Known(Event),
    Partly { port: u32, signal: u32, seen: Seens },
}

/// Events that are expected, in order.
pub type Expecteds = Items<Expected>;

/// A recorded list of events. It ends quiet where the system was then left to itself and did no
/// more.
pub struct Trace {
    events: Expecteds,
    quiet: bool,
}

// In words, so that no crate above follows the events down to their last value.
impl Drop for Trace {
    fn drop(self) {
        let Trace { events, quiet: _ } = self;
        drop(events);
    }
}

impl Model for Trace {
    ghost use Rattle.std.specs.Prelude.{All};
    ghost use Rattle.std.specs.Coded.{codes};
    ghost use Rattle.est_meaning.specs.contracts.trace.Expected as expected;
    ghost use Rattle.est_meaning.specs.RecordedTraces.{Recorded, HasUnseen};

    ghost Value = { Recorded };

    ghost coded = { Prim.hlevel (codes, expected.the_row.coded) };

    ghost view = { λ t. record { events = t.events; quiet = t.quiet } };

    ghost invariant = { λ t. All HasUnseen t.events };
}

impl Trace {
    /// A trace of these events, which does not end quiet.
    pub fn new(events: Expecteds) -> Trace
        requires { All HasUnseen events }
        ensures { result ≡ record { events = events; quiet = false } }
    {
        Trace {
            events,
            quiet: false,
        }
    }

    /// The same events with a quiet end.
    pub fn ended_quiet(mut self) -> Trace
        ensures { result ≡ record self { quiet = true } }
    {
        self.quiet = true;
        self
    }

    pub fn events(&self) -> &Expecteds
        ensures { result.now ≡ self.now.events }
    {
        &self.events
    }

    /// Whether it ends quiet.
    pub fn is_quiet(&self) -> bool
        ensures { result ≡ self.now.quiet }
    {
        self.quiet
    }
}

/// Whether an event is as it is expected.
pub fn agrees(expected: &Expected, event: &Event) -> bool
    ensures { IsTrue result ↔ Agrees expected.now event.now }
{
    match expected {
        Expected::Known(known) => event.is(known),
        Expected::Partly { port, signal, seen } => leaves_so(event, *port, *signal, seen),
    }
}

// Whether an event is a departure of this port and signal whose values match what is seen.
fn leaves_so(event: &Event, port: u32, signal: u32, seen: &Seens) -> bool
    ensures { IsTrue result ↔ IsSeenPartly port signal seen.now event.now }
{
    match event {
        Event::Arrives(_) => false,
        Event::Leaves(departure) => {
            departure.port == port
                && departure.signal == signal
                && match_each(seen, &departure.values)
        }
        Event::Passes(_) => false,
    }
}
