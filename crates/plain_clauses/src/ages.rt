//! For how long transitions have been enabled, and what the bounds of a delay say of it.
ghost use Rattle.std.specs.Prelude.{◌≡◌, find, option_copied};
ghost use Rattle.plain_queues.specs.plain_systems.HeldSystems.{situation_of, is_stamp};
ghost use Rattle.est_meaning.specs.TransitionSelection.{age_of};

use plain_queues::plain_systems::system::{Stamp, System};

/// Whether the bounds of a delay have values, whether each is reached, and whether one passes its
/// limit.
#[derive(Clone, Copy)]
pub struct Waited {
    pub valued: bool,
    pub least: bool,
    pub most: bool,
    pub passes: bool,
}

// The first stamp of a transition.
fn stamp_of(stamps: &[Stamp], instance: u32, transition: u32) -> Option<&Stamp>
    ensures { option_copied result ≡ find
        (is_stamp (record { instance = instance; transition = transition })) stamps.now }
{
    stamps.iter().find(|stamp| instance == stamp.instance && transition == stamp.transition)
}

/// For how long a transition has been enabled, if it has a stamp.
pub fn age_of(system: &System, instance: u32, transition: u32) -> Option<u64>
    ensures { result ≡ age_of (situation_of system.now)
        (record { instance = instance; transition = transition }) }
{
    match stamp_of(system.stamps.get().as_slice(), instance, transition) {
        None => None,
        Some(stamp) => Some(system.clock.saturating_sub(stamp.since)),
    }
}
