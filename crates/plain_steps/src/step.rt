//! What a firing or a start leaves.

use est_meaning::event::Events;
use plain_frames::plain_systems::system::System;

/// The next system, with the events at the outside ports.
#[derive(Drop)]
pub struct Stepped {
    pub system: System,
    pub outs: Events,
}
