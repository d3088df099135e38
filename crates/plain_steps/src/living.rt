//! Living instances, as stamps look at them.
ghost use Rattle.std.specs.Prelude.{◌≡◌, slice_get};
ghost use Rattle.std.specs.Option.{option_map};
ghost use Rattle.plain_frames.specs.plain_systems.HeldSystems.{situation_of};
ghost use Rattle.plain_steps.specs.inside.StampLists.{living};

use est_meaning::mean_blocks::situation::Row;
use plain_frames::plain_systems::system::System;

/// A living instance: its number, its body and its state.
#[derive(Clone, Copy)]
pub struct Living {
    pub number: u32,
    pub body: u32,
    pub state: Option<u32>,
}

// What stamps look at of an instance.
fn instance_of(row: &Row) -> Living
    ensures { result ≡ living row.now }
{
    Living {
        number: row.number,
        body: row.body,
        state: row.state,
    }
}

/// The instance whose row stands at a place.
pub fn living_at(system: &System, at: usize) -> Option<Living>
    ensures { result ≡ option_map living (slice_get (situation_of system.now).rows at) }
{
    match system.rows.get().get(at) {
        None => None,
        Some(row) => Some(instance_of(row.get())),
    }
}
