//! The outside interaction points of a specification.

use crate::kind::{Kinds, Ordinals};
use crate::name::Name;
use est_items::{Items, Shared};

/// What an interaction point does with an interaction.
#[derive(Clone, Copy)]
pub enum Direction {
    Sends,
    Receives,
}

/// An interaction that may pass a port, with the kinds of its parameters.
#[derive(Drop)]
pub struct Signal {
    pub name: Name,
    pub kinds: Kinds,
    pub sends: bool,
    pub receives: bool,
}

/// Signals in the order of their channel.
pub type Signals = Items<Signal>;

/// The signals of one side of a channel, which all its ports share.
pub type SharedSignals = Shared<Signals>;

/// A port, with the kinds of its subscripts and its own subscripts where it is an element of an
/// array.
#[derive(Drop)]
pub struct Port {
    pub name: Name,
    pub index_kinds: Kinds,
    pub index: Ordinals,
    pub signals: SharedSignals,
}

/// Ports in the order of their declarations, the elements of an array in ascending order.
pub type Ports = Items<Port>;
