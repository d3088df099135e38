//! What comes of a choice of a transition (ISO 9074, 5: execution of a transition).
ghost use Rattle.std.specs.Prelude.{◌≡◌, ◌∷◌, [], ◌++◌, Some, Ok, OnOk};
ghost use Rattle.std.specs.Option.{option_map_or};
ghost use Rattle.est_syntax.specs.declared.body.Block.{out-Block};
ghost use Rattle.est_meaning.specs.mean_blocks.declared.fault.BlockFault.TheVariants.{Undefined};
ghost use Rattle.est_meaning.specs.mean_blocks.declared.situation.Row.{Row};
ghost use Rattle.est_meaning.specs.mean_blocks.AnswersOfCalls.{Says};
ghost use Rattle.est_meaning.specs.mean_blocks.BlockLevels.{block_meaning};
ghost use Rattle.est_meaning.specs.mean_blocks.Outcome.{Fault};
ghost use Rattle.est_meaning.specs.mean_blocks.QueueEffects.{without_head};
ghost use Rattle.plain_frames.specs.plain_systems.HeldSystems.{situation_of};
ghost use Rattle.est_meaning.specs.declared.firing.Firing.{Firing};
ghost use Rattle.est_meaning.specs.ClauseContexts.{FullTransition};
ghost use Rattle.est_meaning.specs.DelayStamps.{restamped};
ghost use Rattle.est_meaning.specs.FiringSteps.{fired_by};
ghost use Rattle.est_meaning.specs.TransitionChoices.{Choice, choice_by};
ghost use Rattle.plain_guards.specs.plain_transitions.WrittenTransitions.{IsWritten};
ghost use Rattle.plain_guards.specs.plain_clauses.JudgedGuards.{IsOf};
ghost use Rattle.plain_steps.specs.inside.FiredChoices.{own_frame, Ends, Begins, Leads};

use est_meaning::mean_blocks::fault::BlockFault;
use est_meaning::mean_blocks::frame::Frame;
use est_meaning::mean_blocks::situation::InteractionPoint;
use est_meaning::mean_blocks::stop::Stop;
use est_syntax::est_items::Items;
use plain_births::births::set_state;
use plain_blocks::statements::statements_in;
use plain_clauses::candidate::Candidate;
use plain_frames::plain_systems::system::{System, Working};
use plain_frames::routines::frame_of;
use plain_guards::sight::look;
use plain_operands::site::Site;
use plain_queues::heads::take_head;
use plain_queues::plain_texts::text::Text;
use plain_transitions::behaviour::Behaviour;
use plain_transitions::written::Written;
use std::alloc::{AllocError, Global};

// How many levels calls and initialize parts may open within one another.
const MOST_LEVELS: u32 = 32;

// Takes the first item of the queue of an interaction point, where one is taken.
fn take(
    alloc: Global,
    text: &Text,
    taken: &Option<InteractionPoint>,
    system: &mut System,
) -> Result<(), AllocError>
    ensures { OnOk result (situation_of system.new ≡ option_map_or
        (λ point. without_head text.now point (situation_of system.old)) taken.now
        (situation_of system.old)) }
{
    match taken {
        None => Ok(()),
        Some(point) => {
            let item = take_head(alloc, text, point, system)?;
            drop(item);
            Ok(())
        }
    }
}

// Begins the block of a choice, where its `from` and its `when` hold.
fn begin(
    alloc: Global,
    text: &Text,
    limit: u32,
    candidate: &Candidate,
    chosen: Frame,
    working: &mut Working,
) -> Result<(), Stop>
    ensures { (c : Choice) → IsOf text.now candidate.now chosen c
        → Begins limit text.now (situation_of working.old.system) c result working.new }
{
    let sight = look(alloc, text, limit, candidate, chosen, working)?;
    if !sight.holds {
        drop(sight);
        return Err(Stop::Fault(BlockFault::Undefined));
    }
    take(alloc, text, &sight.taken, &mut working.system)?;
    drop(sight);
    Ok(())
}

// The variables of the block of a transition, which begin undefined.
fn own_frame(alloc: Global, text: &Text, transition: &Written) -> Result<Frame, Stop>
    ensures { (x : FullTransition) → IsWritten text.now.outline x transition.now
        → Says (Ok (own_frame text.now.outline x.block)) result }
{
    frame_of(
        alloc,
        text.outline(),
        transition.own.as_slice(),
        Items::new(alloc),
    )
}

// Executes the block of a transition of an instance, which sees the frames that are open and its own
// variables.
fn run(
    alloc: Global,
    text: &Text,
    limit: u32,
    instance: u32,
    transition: &Written,
    working: &mut Working,
) -> Result<(), Stop>
    ensures { (x : FullTransition) → IsWritten text.now.outline x transition.now
        → Ends (block_meaning text.now instance
        (working.old.frames ++ own_frame text.now.outline x.block ∷ [])
        (out-Block x.block).statements limit (situation_of working.old.system))
        result working.new }
{
    let frame = own_frame(alloc, text, transition)?;
    working.frames.push(frame)?;
    working.outs = Items::new(alloc);
    let site = Site {
        text,
        instance,
        function: false,
        levels: MOST_LEVELS,
    };
    let mut left = limit;
    statements_in(
        alloc,
        &site,
        transition.block.statements.as_slice(),
        working,
        &mut left,
    )
}

// What comes of a choice with these values of its `any` variables.
fn perform(
    alloc: Global,
    text: &Text,
    limit: u32,
    candidate: &Candidate,
    chosen: Frame,
    working: &mut Working,
) -> Result<(), Stop>
    ensures { (f : Firing) (c : Choice) → IsOf text.now candidate.now chosen c
        → Leads text.now (restamped limit text.now (Some f))
        (fired_by limit text.now (situation_of working.old.system) f c) result working.new }
{
    begin(alloc, text, limit, candidate, chosen, working)?;
    let transition = candidate.transition;
    run(alloc, text, limit, candidate.instance, transition, working)?;
    set_state(
        alloc,
        candidate.instance,
        transition.next_state,
        &mut working.system,
    )?;
    Ok(())
}

/// What comes of the choice of a number of a transition, but for the stamps.
pub fn fire_choice(
    alloc: Global,
    behaviour: &Behaviour,
    limit: u32,
    candidate: &Candidate,
    number: u32,
    working: &mut Working,
) -> Result<(), Stop>
    ensures { (f : Firing) (r : Row) (x : FullTransition)
        → r.number ≡ candidate.now.instance → r.state ≡ candidate.now.state
        → IsWritten behaviour.now.outline x candidate.now.transition.now
        → Leads behaviour.now (restamped limit behaviour.now (Some f))
        (option_map_or (fired_by limit behaviour.now (situation_of working.old.system) f)
        (choice_by behaviour.now r candidate.now.number number x) (Fault Undefined))
        result working.new }
{
    let Some(chosen) = behaviour.chosen(alloc, candidate.transition, number)? else {
        return Err(Stop::Fault(BlockFault::Undefined));
    };
    perform(alloc, behaviour.text(), limit, candidate, chosen, working)
}
