//! What a choice sees and takes.
ghost use Rattle.std.specs.Prelude.{◌≡◌, ℕ, [], Some, IfOk, OnOk};
ghost use Rattle.std.specs.Option.{option_map};
ghost use Rattle.est_meaning.specs.mean_blocks.NamesInRuns.{declared_at};
ghost use Rattle.plain_clauses.specs.plain_systems.HeldSystems.{situation_of};
ghost use Rattle.plain_clauses.specs.plain_transitions.WrittenTransitions.{IsFixed, IsWritten};
ghost use Rattle.plain_clauses.specs.plain_transitions.WrittenTransitions.{awaited_of};
ghost use Rattle.est_meaning.specs.TransitionChoices.{Choice};
ghost use Rattle.plain_clauses.specs.JudgedGuards.{IsOf, IsSight};
ghost use Rattle.plain_clauses.specs.JudgedClauses.{IsBefore, IsKnown, IsArrival};

use crate::subscripts::subscripts_at;
use est_meaning::mean_blocks::frame::Frame;
use est_meaning::mean_blocks::situation::InteractionPoint;
use est_syntax::est_items::Items;
use plain_clauses::candidate::Candidate;
use plain_clauses::evaluated::{is_some_past, ordinals_held, site_at};
use plain_clauses::plain_systems::system::Working;
use plain_clauses::plain_texts::text::Text;
use plain_clauses::plain_transitions::written::{Awaits, Fixed};
use plain_clauses::sights::{Sight, begin, fits, nothing, take};
use std::alloc::{AllocError, Global};

// What is seen and taken by a choice that awaits this without subscripts.
fn await_plain(
    alloc: Global,
    text: &Text,
    candidate: &Candidate,
    awaits: &Awaits,
    declared: u32,
    working: &mut Working,
) -> Result<Sight, AllocError>
    ensures sight { IfOk result (λ sight. (limit : ℕ) (c : Choice)
        → IsBefore candidate.now.instance working.old.frames c
        → IsKnown text.now.outline awaits.now candidate.now.transition.now
        → declared_at text.now.outline awaits.now.at.now.name ≡ Some declared
        → awaits.now.at.now.index ≡ []
        → IsArrival limit text.now (situation_of working.old.system) c
        (Some (awaited_of awaits.now)) working.new.frames sight) }
    ensures system { OnOk result (working.new.system ≡ working.old.system) }
{
    let point = InteractionPoint {
        instance: candidate.instance,
        declared,
        index: Items::new(alloc),
    };
    let transition = candidate.transition;
    let sight = take(alloc, text, transition, awaits, point, false, working)?;
    Ok(sight)
}

// What is seen and taken by a choice that awaits this at what is declared at a place.
fn await_at(
    alloc: Global,
    text: &Text,
    limit: u32,
    candidate: &Candidate,
    awaits: &Awaits,
    declared: u32,
    working: &mut Working,
) -> Result<Sight, AllocError>
    ensures sight { IfOk result (λ sight. (c : Choice)
        → IsBefore candidate.now.instance working.old.frames c
        → IsKnown text.now.outline awaits.now candidate.now.transition.now
        → declared_at text.now.outline awaits.now.at.now.name ≡ Some declared
        → IsArrival limit text.now (situation_of working.old.system) c
        (Some (awaited_of awaits.now)) working.new.frames sight) }
    ensures system { OnOk result (working.new.system ≡ working.old.system) }
{
    let instance = candidate.instance;
    let site = site_at(text, instance);
    let index = awaits.at.index.as_slice();
    let parts = subscripts_at(alloc, &site, limit, declared, index, working)?;
    let passes = is_some_past(parts.as_slice());
    let ordinals = ordinals_held(alloc, parts.as_slice());
    drop(parts);
    let Some(index) = ordinals? else {
        return Ok(nothing(passes));
    };
    let point = InteractionPoint {
        instance,
        declared,
        index,
    };
    let transition = candidate.transition;
    let sight = take(alloc, text, transition, awaits, point, passes, working)?;
    Ok(sight)
}

// Where the interaction point is declared that is awaited, which is looked up where it is not
// known.
fn point_of(text: &Text, fixed: Option<Fixed>, awaits: &Awaits) -> Option<u32>
    ensures { IsFixed text.now.outline (Some (awaited_of awaits.now)) fixed
        → result ≡ declared_at text.now.outline awaits.now.at.now.name }
{
    match fixed {
        Some(fixed) => Some(fixed.point),
        None => text.declared_at(&awaits.at.name),
    }
}

// What is seen and taken by a choice that awaits this.
fn await_this(
    alloc: Global,
    text: &Text,
    limit: u32,
    candidate: &Candidate,
    awaits: &Awaits,
    working: &mut Working,
) -> Result<Sight, AllocError>
    ensures sight { IfOk result (λ sight. (c : Choice)
        → IsBefore candidate.now.instance working.old.frames c
        → IsKnown text.now.outline awaits.now candidate.now.transition.now
        → IsArrival limit text.now (situation_of working.old.system) c
        (Some (awaited_of awaits.now)) working.new.frames sight) }
    ensures system { OnOk result (working.new.system ≡ working.old.system) }
{
    let Some(declared) = point_of(text, candidate.transition.fixed, awaits) else {
        return Ok(nothing(false));
    };
    if awaits.at.index.as_slice().is_empty() {
        let sight = await_plain(alloc, text, candidate, awaits, declared, working)?;
        return Ok(sight);
    }
    let sight = await_at(alloc, text, limit, candidate, awaits, declared, working)?;
    Ok(sight)
}

// What is seen and taken by a choice whose `from` holds.
fn await_one(
    alloc: Global,
    text: &Text,
    limit: u32,
    candidate: &Candidate,
    working: &mut Working,
) -> Result<Sight, AllocError>
    ensures sight { IfOk result (λ sight. (c : Choice)
        → IsBefore candidate.now.instance working.old.frames c
        → IsWritten text.now.outline c.transition candidate.now.transition.now
        → IsArrival limit text.now (situation_of working.old.system) c
        (option_map awaited_of candidate.now.transition.now.awaits) working.new.frames sight) }
    ensures system { OnOk result (working.new.system ≡ working.old.system) }
{
    let Some(awaits) = candidate.transition.awaits else {
        return Ok(Sight {
            holds: true,
            taken: None,
            passes: false,
        });
    };
    let sight = await_this(alloc, text, limit, candidate, &awaits, working)?;
    Ok(sight)
}

/// What a choice sees and takes. Its frames are then those of a working state, whose system looks
/// as before.
pub fn look(
    alloc: Global,
    text: &Text,
    limit: u32,
    candidate: &Candidate,
    chosen: Frame,
    working: &mut Working,
) -> Result<Sight, AllocError>
    ensures sight { IfOk result (λ sight. (c : Choice) → IsOf text.now candidate.now chosen c
        → IsSight limit text.now (situation_of working.old.system) c working.new.frames sight) }
    ensures system { OnOk result
        (situation_of working.new.system ≡ situation_of working.old.system) }
{
    if !fits(&candidate.transition.states, candidate.state) {
        drop(chosen);
        return Ok(nothing(false));
    }
    begin(alloc, chosen, working)?;
    let sight = await_one(alloc, text, limit, candidate, working)?;
    Ok(sight)
}
