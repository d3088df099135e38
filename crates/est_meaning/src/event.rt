//! What happens at the outside ports.
ghost use Rattle.std.specs.Prelude.{◌≡◌, ◌↔◌, IsTrue};

use est_syntax::est_items::{Items, Twin};
use est_values::value::{Values, are_same};
use std::alloc::{AllocError, Global};

/// An interaction at an outside port. The port has its number among those of the specification,
/// the signal its number among those of the port, both from 0.
#[derive(Drop)]
pub struct Interaction {
    pub port: u32,
    pub signal: u32,
    pub values: Values,
}

/// An arrival, a departure, or so many units of time that pass.
#[derive(Drop)]
pub enum Event {
    Arrives(Interaction),
    Leaves(Interaction),
    Passes(u32),
}

/// Events in order.
pub type Events = Items<Event>;

impl Interaction {
    /// Whether two interactions are one.
    pub fn is(&self, other: &Interaction) -> bool
        ensures { IsTrue result ↔ (self.now ≡ other.now) }
    {
        self.port == other.port
            && self.signal == other.signal
            && are_same(&self.values, &other.values)
    }
}

impl Event {
    /// Whether two events are one.
    pub fn is(&self, other: &Event) -> bool
        ensures { IsTrue result ↔ (self.now ≡ other.now) }
    {
        match (self, other) {
            (Event::Arrives(a), Event::Arrives(b)) => a.is(b),
            (Event::Leaves(a), Event::Leaves(b)) => a.is(b),
            (Event::Passes(a), Event::Passes(b)) => a == b,
            _ => false,
        }
    }
}

impl Twin for Interaction {
    fn twin(&self, alloc: Global) -> Result<Interaction, AllocError> {
        Ok(Interaction {
            port: self.port,
            signal: self.signal,
            values: self.values.twin(alloc)?,
        })
    }
}

impl Twin for Event {
    fn twin(&self, alloc: Global) -> Result<Event, AllocError> {
        match self {
            Event::Arrives(interaction) => {
                let interaction = interaction.twin(alloc)?;
                Ok(Event::Arrives(interaction))
            }
            Event::Leaves(interaction) => {
                let interaction = interaction.twin(alloc)?;
                Ok(Event::Leaves(interaction))
            }
            Event::Passes(units) => Ok(Event::Passes(*units)),
        }
    }
}
