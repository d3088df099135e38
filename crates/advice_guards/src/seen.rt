//! What guards see.

use crate::parts::View;
use crate::scene::Scene;
use est_meaning::mean_blocks::frame::Frame;
use est_syntax::est_items::{Items, Twin};
use plain_clauses::candidate::Candidate;
use plain_frames::plain_systems::system::Working;
use plain_guards::sight::look;
use plain_operands::site::Site;
use std::alloc::{AllocError, Global};

// How many levels calls may open within one another.
const MOST_LEVELS: u32 = 32;

/// A system as guards are evaluated in it.
pub(crate) fn working_of(alloc: Global, scene: &Scene) -> Result<Working, AllocError> {
    let system = scene.system.twin(alloc)?;
    Ok(Working {
        system,
        outs: Items::new(alloc),
        frames: Items::new(alloc),
    })
}

/// Adds the frame of the choice of a number, if there is one, and answers whether there is.
pub(crate) fn choose(
    alloc: Global,
    scene: &Scene,
    candidate: &Candidate,
    choice: u32,
    working: &mut Working,
) -> Result<bool, AllocError> {
    match scene.behaviour.chosen(alloc, candidate.transition, choice)? {
        None => Ok(false),
        Some(chosen) => {
            working.frames.push(chosen)?;
            Ok(true)
        }
    }
}

// Whether the `from` and the `when` of a choice with these values of its `any` variables hold.
fn see_chosen(
    alloc: Global,
    scene: &Scene,
    candidate: &Candidate,
    chosen: Frame,
    working: &mut Working,
) -> Result<bool, AllocError> {
    let text = scene.behaviour.text();
    let sight = look(alloc, text, scene.limit, candidate, chosen, working)?;
    let holds = sight.holds;
    drop(sight);
    Ok(holds)
}

/// Whether the `from` and the `when` of the choice of a number hold. Where they do, the frames are
/// then those of its guard.
pub(crate) fn see(
    alloc: Global,
    scene: &Scene,
    candidate: &Candidate,
    choice: u32,
    working: &mut Working,
) -> Result<bool, AllocError> {
    match scene.behaviour.chosen(alloc, candidate.transition, choice)? {
        None => Ok(false),
        Some(chosen) => see_chosen(alloc, scene, candidate, chosen, working),
    }
}

/// Where the guard of a transition of an instance is evaluated.
pub(crate) fn view_of<'v, 't>(
    scene: &Scene<'v, 't>,
    instance: u32,
    working: &'v Working,
) -> View<'v, 't> {
    View {
        site: Site {
            text: scene.behaviour.text(),
            instance,
            function: false,
            levels: MOST_LEVELS,
        },
        limit: scene.limit,
        working,
        tokens: scene.tokens,
    }
}
