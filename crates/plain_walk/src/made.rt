//! What is known of a firing.

use est_meaning::event::Events;
use est_meaning::mean_blocks::situation::Item;
use est_syntax::est_items::Shared;
use plain_frames::plain_systems::system::{Queues, System};

/// The interaction that is taken out of a queue, if one is, and the system without it.
#[derive(Drop)]
pub struct Taken {
    pub item: Option<Item>,
    pub system: System,
}

/// What a block sends: to instances, in the queues in which it waits then, and the events at the
/// outside ports.
#[derive(Drop)]
pub struct Sent {
    pub inside: Shared<Queues>,
    pub outs: Events,
}

/// What a firing takes, with the system in which its block begins, and what that sends.
#[derive(Drop)]
pub struct Made {
    pub taken: Taken,
    pub sent: Sent,
}
