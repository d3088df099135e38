//! What a firing takes out of a queue.
ghost use Rattle.std.specs.Prelude.{◌≡◌, IfOk, OnOk};
ghost use Rattle.plain_frames.specs.plain_systems.HeldSystems.{situation_of};
ghost use Rattle.est_meaning.specs.TransitionChoices.{Choice};
ghost use Rattle.est_plain.specs.plain_guards.plain_clauses.JudgedGuards.{IsOf};
ghost use Rattle.plain_walk.specs.TakenItems.{IsTaken, IsTakenOf};
ghost use Rattle.plain_walk.specs.inside.TakenHeads.{IsTakenAt, IsTakenBy};

use est_meaning::firing::Firing;
use est_meaning::mean_blocks::frame::Frame;
use est_meaning::mean_blocks::situation::{InteractionPoint, Item};
use est_syntax::est_items::Items;
use plain_clauses::candidate::Candidate;
use plain_frames::plain_systems::rows::row_of;
use plain_frames::plain_systems::system::{System, Working};
use plain_guards::sight::look;
use plain_queues::heads::take_head;
use plain_queues::plain_texts::text::Text;
use plain_transitions::behaviour::Behaviour;
use plain_transitions::choices::choice_frame;
use std::alloc::{AllocError, Global};

// Takes the first item of the queue of an interaction point, where one is given.
fn take_at(
    alloc: Global,
    text: &Text,
    point: &Option<InteractionPoint>,
    system: &mut System,
) -> Result<Option<Item>, AllocError>
    ensures { IfOk result (λ item. IsTakenAt text.now point.now (situation_of system.old)
        item (situation_of system.new)) }
{
    match point {
        None => Ok(None),
        Some(point) => {
            let item = take_head(alloc, text, point, system)?;
            Ok(item)
        }
    }
}

// Takes what a choice takes, where its `from` and `when` hold.
fn take_by(
    alloc: Global,
    text: &Text,
    limit: u32,
    candidate: &Candidate,
    chosen: Frame,
    working: &mut Working,
) -> Result<Option<Item>, AllocError>
    ensures taken { IfOk result (λ item. (c : Choice) → IsOf text.now candidate.now chosen c
        → IsTaken limit text.now (situation_of working.old.system) c item
        (situation_of working.new.system)) }
    ensures rows { OnOk result ((situation_of working.new.system).rows
        ≡ (situation_of working.old.system).rows) }
{
    let sight = look(alloc, text, limit, candidate, chosen, working)?;
    if !sight.holds {
        drop(sight);
        return Ok(None);
    }
    let item = take_at(alloc, text, &sight.taken, &mut working.system)?;
    drop(sight);
    Ok(item)
}

// Takes what the choice of a number takes.
fn take_choice(
    alloc: Global,
    text: &Text,
    limit: u32,
    candidate: &Candidate,
    number: u32,
    working: &mut Working,
) -> Result<Option<Item>, AllocError>
    ensures taken { IfOk result (λ item. IsTakenBy limit text.now
        (situation_of working.old.system) candidate.now number item
        (situation_of working.new.system)) }
    ensures rows { OnOk result ((situation_of working.new.system).rows
        ≡ (situation_of working.old.system).rows) }
{
    let variables = &candidate.transition.variables;
    let Some(chosen) = choice_frame(alloc, text.outline(), variables, number)? else {
        return Ok(None);
    };
    let item = take_by(alloc, text, limit, candidate, chosen, working)?;
    Ok(item)
}

/// Takes what a firing takes.
pub(crate) fn take(
    alloc: Global,
    behaviour: &Behaviour,
    limit: u32,
    firing: &Firing,
    working: &mut Working,
) -> Result<Option<Item>, AllocError>
    ensures { IfOk result (λ item. IsTakenOf limit behaviour.now
        (situation_of working.old.system) firing.now item (situation_of working.new.system)) }
{
    let Some(row) = row_of(&working.system, firing.instance) else {
        return Ok(None);
    };
    let Some(transition) = behaviour.transition(row.body, firing.transition) else {
        return Ok(None);
    };
    let candidate = Candidate {
        instance: firing.instance,
        state: row.state,
        number: firing.transition,
        transition,
    };
    let text = behaviour.text();
    let item = take_choice(alloc, text, limit, &candidate, firing.choice, working)?;
    Ok(item)
}
