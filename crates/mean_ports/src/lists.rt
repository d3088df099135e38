//! One trace for each port.

use est_meaning::event::Events;
use est_syntax::est_items::Items;

/// The events at each port between two times, by the numbers of the ports.
pub type Phase = Items<Events>;

/// Phases in order.
pub type Phases = Items<Phase>;

/// The units that pass between each phase and the next.
pub type Times = Items<u32>;

/// One trace for each port, cut where time passes. There is one phase more than times.
pub struct PortLists {
    pub phases: Phases,
    pub times: Times,
}

// In words, so that no crate above follows the events down to their last value.
impl Drop for PortLists {
    fn drop(self) {
        let PortLists { phases, times } = self;
        drop(phases);
        drop(times);
    }
}
