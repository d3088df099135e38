//! Moves along one trace for each port.

use est_meaning::firing::Firing;

/// The next event of a port arrives, or the time passes that ends a phase, or a transition fires.
#[derive(Clone, Copy, PartialEq, Eq)]
pub enum PortMove {
    TakeAt(u32),
    Pass,
    Fire(Firing),
}
