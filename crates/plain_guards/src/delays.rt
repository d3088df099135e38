//! Delays.
ghost use Rattle.std.specs.Prelude.{IfOk, Some};
ghost use Rattle.std.specs.Option.{option_map};
ghost use Rattle.plain_clauses.specs.plain_transitions.WrittenTransitions.{bounds_of};
ghost use Rattle.plain_blocks.specs.plain_operands.ExecutionSites.{view_of};
ghost use Rattle.plain_clauses.specs.JudgedClauses.{IsWaited};

use crate::parts::part_of;
use est_syntax::transition::Most;
use plain_blocks::plain_operands::site::Site;
use plain_clauses::ages::Waited;
use plain_clauses::evaluated::{is_past, is_reached, ordinal_held};
use plain_clauses::plain_systems::system::Working;
use plain_clauses::plain_transitions::written::Bounds;
use std::alloc::{AllocError, Global};

// Whether the bounds of a delay are reached.
fn is_waited(
    alloc: Global,
    site: &Site,
    limit: u32,
    bounds: &Bounds,
    age: Option<u64>,
    working: &Working,
) -> Result<Waited, AllocError>
    ensures { IfOk result (λ waited. IsWaited limit (Some (bounds_of bounds.now)) age
        (view_of site.now working.now) waited) }
{
    let first = part_of(alloc, site, limit, bounds.least, working)?;
    let valued = ordinal_held(first).is_some();
    let least = is_reached(first, age);
    let passes = is_past(first);
    match bounds.most {
        Most::Same => Ok(Waited {
            valued,
            least,
            most: least,
            passes,
        }),
        Most::Value(e) => {
            let last = part_of(alloc, site, limit, e.get(), working)?;
            Ok(Waited {
                valued: valued && ordinal_held(last).is_some(),
                least,
                most: is_reached(last, age),
                passes: passes || is_past(last),
            })
        }
        Most::Never => Ok(Waited {
            valued,
            least,
            most: false,
            passes,
        }),
    }
}

/// Whether a delay, if there is one, is reached at an age, if that is known.
pub fn delay_waited(
    alloc: Global,
    site: &Site,
    limit: u32,
    delay: Option<Bounds>,
    age: Option<u64>,
    working: &Working,
) -> Result<Waited, AllocError>
    ensures { IfOk result (λ waited. IsWaited limit (option_map bounds_of delay.entry) age
        (view_of site.now working.now) waited) }
{
    match delay {
        None => Ok(Waited {
            valued: true,
            least: true,
            most: true,
            passes: false,
        }),
        Some(bounds) => is_waited(alloc, site, limit, &bounds, age, working),
    }
}
