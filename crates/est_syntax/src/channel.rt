//! Channels (ISO 9074, channel-definition).

use crate::name::{Used, UsedNames};
use crate::type_text::VarDefs;
use est_items::Items;

/// A role of a channel.
#[derive(Clone, Copy, PartialEq, Eq)]
pub enum Role {
    First,
    Second,
}

/// An interaction of a channel, with its parameters (ISO 9074, interaction-definition).
#[derive(Drop)]
pub struct InteractionDef {
    pub name: Used,
    pub params: VarDefs,
}

/// Interactions in the order of the text.
pub type Interactions = Items<InteractionDef>;

/// The interactions that some roles of a channel may send (ISO 9074, interaction-group).
#[derive(Drop)]
pub struct ByPart {
    pub roles: UsedNames,
    pub interactions: Interactions,
}

/// The parts of a channel in the order of the text.
pub type ByParts = Items<ByPart>;

/// A channel (ISO 9074, channel-definition): its two roles and what each may send.
#[derive(Drop)]
pub struct Channel {
    pub name: Used,
    pub roles: UsedNames,
    pub by: ByParts,
}
