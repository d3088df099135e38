//! Lists of events at ports, as they are read.

ghost use Rattle.std.specs.Prelude.{◌≡◌, ℕ, [], ◌∷◌, ◌++◌, List, slice_get, slice_set};
ghost use Rattle.std.specs.Prelude.{option_to_list, Some};
ghost use Rattle.est_meaning.specs.declared.event.Event.{Event};
ghost use Rattle.est_meaning.specs.declared.event.Event.TheVariants as events;
ghost use Rattle.mean_ports.specs.ListsOfEvents.{AreListsOf};
ghost use Rattle.text_reader.specs.Moving.{Still};
ghost use Rattle.text_reader.specs.declared.outcome.Outcome.TheVariants.{Well};
ghost use Rattle.est_trace.specs.inside.GrowingLists.{IsGrown, IsEmptyPhase, GrowsBy, GrowsAt};

use est_meaning::event::{Event, Events};
use mean_ports::lists::{Phase, Phases, PortLists, Times};
use std::mem;
use text_reader::Reader;

/// The phases that have ended, the time after each, and the phase that goes on.
#[derive(Drop)]
pub struct Growing {
    pub phases: Phases,
    pub times: Times,
    pub phase: Phase,
}

// A phase without events, with a list for each of so many ports.
fn empty_phase(reader: &mut Reader, count: u64) -> Phase
    ensures still { Still reader.old reader.new }
    ensures empty { reader.new.outcome ≡ Well → IsEmptyPhase count result }
{
    let mut phase = Phase::new(reader.alloc);
    let mut made: u64 = 0;
    while made < count {
        let list = Events::new(reader.alloc);
        reader.keep(&mut phase, list);
        made += 1;
    }
    phase
}

// Puts an event, if there is one, last in the list of a port, if there is one.
fn keep_at(reader: &mut Reader, phase: &mut Phase, port: u32, event: Option<Event>)
    ensures still { Still reader.old reader.new }
    ensures kept { reader.new.outcome ≡ Well → (es : List Event)
        → slice_get phase.old port ≡ Some es
        → phase.new ≡ slice_set phase.old port (es ++ option_to_list event) }
{
    let at = port as usize;
    if at < phase.len() {
        reader.keep_some(&mut phase.items[at], event);
    } else {
        drop(event);
    }
}

impl Growing {
    /// No events yet, for so many ports.
    pub fn new(reader: &mut Reader, count: u64) -> Growing
        ensures still { Still reader.old reader.new }
        ensures grown { reader.new.outcome ≡ Well → IsGrown count result [] }
    {
        let phases = Phases::new(reader.alloc);
        let times = Times::new(reader.alloc);
        let phase = empty_phase(reader, count);
        Growing {
            phases,
            times,
            phase,
        }
    }

    /// Ends the phase, for so many ports: so many units pass.
    pub fn end_phase(&mut self, reader: &mut Reader, count: u64, units: u32)
        ensures still { Still reader.old reader.new }
        ensures grown { reader.new.outcome ≡ Well
            → GrowsBy count (events.Passes units ∷ []) self.old self.new }
    {
        let next = empty_phase(reader, count);
        let phase = mem::replace(&mut self.phase, next);
        reader.keep(&mut self.phases, phase);
        reader.keep(&mut self.times, units);
    }

    /// Adds an event, if there is one, at the port of this number.
    pub fn add(&mut self, reader: &mut Reader, port: u32, event: Option<Event>)
        ensures still { Still reader.old reader.new }
        ensures grown { reader.new.outcome ≡ Well → GrowsAt port event self.old self.new }
    {
        keep_at(reader, &mut self.phase, port, event);
    }

    /// The lists, of which no phase goes on.
    pub fn ended(self, reader: &mut Reader) -> PortLists
        ensures still { Still reader.old reader.new }
        ensures lists { reader.new.outcome ≡ Well → (many : ℕ) (es : List Event)
            → IsGrown many self es → AreListsOf many result es }
    {
        let Growing {
            mut phases,
            times,
            phase,
        } = self;
        reader.keep(&mut phases, phase);
        PortLists { phases, times }
    }
}
