//! What a system answers.

use crate::event::Events;
use mean_blocks::fault::BlockFault;

/// What came of a firing.
#[derive(Clone, Copy, PartialEq, Eq)]
pub enum Fired {
    Done,
    Fault(BlockFault),
    Limit,
}

/// Whether a guard passed its limit.
#[derive(Clone, Copy, PartialEq, Eq)]
pub enum Offers {
    Settled,
    Unsettled,
}

/// What came of a start: a world and the outside events so far, or a fault or a passed limit.
#[derive(Drop)]
pub enum Started<W> {
    Ready { world: W, outs: Events },
    Fault(BlockFault),
    Limit,
}
