//! What is seen and taken, but for the subscripts of a `when`.
ghost use Rattle.std.specs.Prelude.{◌≡◌, ◌∷◌, [], false, nat_eq, IfOk, OnOk};
ghost use Rattle.std.specs.List.{list_any};
ghost use Rattle.plain_queues.specs.plain_systems.HeldSystems.{situation_of};
ghost use Rattle.est_meaning.specs.GuardParts.{arrived_through};
ghost use Rattle.plain_clauses.specs.EvaluatedParts.{fits_places};
ghost use Rattle.plain_clauses.specs.JudgedClauses.{IsKnown, Takes};

use crate::arrivals::{arrived_through, parameters_of};
use est_meaning::mean_blocks::frame::Frame;
use est_meaning::mean_blocks::situation::InteractionPoint;
use est_syntax::est_items::Items;
use plain_queues::plain_systems::system::Working;
use plain_queues::plain_texts::text::Text;
use plain_transitions::written::{Awaits, Written};
use std::alloc::{AllocError, Global};

/// Whether the `from` and the `when` of a choice hold, at which interaction point an interaction is
/// then taken, if one is, and whether a subscript passes its limit.
#[derive(Drop)]
pub struct Sight {
    pub holds: bool,
    pub taken: Option<InteractionPoint>,
    pub passes: bool,
}

/// What is seen where the `from` or the `when` fails.
pub fn nothing(passes: bool) -> Sight
    ensures { result ≡ record { holds = false; taken = None; passes = passes } }
{
    Sight {
        holds: false,
        taken: None,
        passes,
    }
}

// Whether a state is one of those at these places.
fn is_one(places: &[u32], state: u32) -> bool
    ensures { result ≡ list_any (nat_eq state) places.now }
{
    places.iter().any(|place| state == *place)
}

/// Whether a state is one of those that a `from` stands for, if there is a `from`.
pub fn fits(states: &Option<Items<u32>>, state: Option<u32>) -> bool
    ensures { result ≡ fits_places states.now state }
{
    let Some(places) = states else {
        return true;
    };
    match state {
        None => false,
        Some(state) => is_one(places.as_slice(), state),
    }
}

/// The only frame is this one; there is room for the parameters of an interaction beside it.
pub fn begin(alloc: Global, chosen: Frame, working: &mut Working) -> Result<(), AllocError>
    ensures frames { OnOk result (working.new.frames ≡ chosen ∷ []) }
    ensures system { OnOk result (working.new.system ≡ working.old.system) }
{
    let mut frames = Items {
        items: Vec::with_capacity(alloc, 2)?,
    };
    frames.push(chosen)?;
    working.frames = frames;
    Ok(())
}

/// What is seen and taken at an interaction point.
pub fn take(
    alloc: Global,
    text: &Text,
    transition: &Written,
    awaits: &Awaits,
    point: InteractionPoint,
    passes: bool,
    working: &mut Working,
) -> Result<Sight, AllocError>
    ensures sight { IfOk result (λ sight. IsKnown text.now.outline awaits.now transition.now
        → Takes text.now.outline point (arrived_through text.now (situation_of working.old.system)
        awaits.now.signal.now point) working.old.frames working.new.frames sight) }
    ensures passes { IfOk result (λ sight. sight.passes ≡ passes) }
    ensures system { OnOk result (working.new.system ≡ working.old.system) }
{
    let fixed = transition.fixed;
    let Some(item) = arrived_through(text, fixed, awaits, &point, &working.system) else {
        drop(point);
        return Ok(nothing(passes));
    };
    let frame = parameters_of(alloc, text.outline(), transition, item)?;
    working.frames.push(frame)?;
    Ok(Sight {
        holds: true,
        taken: Some(point),
        passes,
    })
}
