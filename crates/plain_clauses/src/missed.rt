//! Choices whose `when` fails whatever else they say.
ghost use Rattle.std.specs.Prelude.{◌≡◌, true, ℕ};
ghost use Rattle.std.specs.List.{list_any};
ghost use Rattle.est_meaning.specs.mean_blocks.GlobalSituation.{Frame};
ghost use Rattle.est_meaning.specs.mean_blocks.TextByPlace.{Text};
ghost use Rattle.est_meaning.specs.TransitionChoices.{Choice};
ghost use Rattle.plain_queues.specs.plain_systems.HeldSystems.{situation_of};
ghost use Rattle.plain_clauses.specs.JudgedClauses.{is_awaited, is_awaited_first};
ghost use Rattle.plain_clauses.specs.JudgedGuards.{IsOf, IsVerdict, says_nothing};

use crate::candidate::Candidate;
use est_meaning::mean_blocks::situation::Item;
use plain_queues::plain_systems::system::{System, Waiting};
use plain_transitions::written::Fixed;

// Whether an item is what an instance awaits here, whatever the subscripts of the interaction point
// are through which it came.
fn is_awaited(instance: u32, fixed: Fixed, item: &Item) -> bool
    ensures { result ≡ is_awaited instance fixed item.now }
{
    instance == item.at.instance && fixed.point == item.at.declared && item.signal == fixed.signal
}

// Whether the first item of a queue is.
fn is_awaited_first(instance: u32, fixed: Fixed, waiting: &Waiting) -> bool
    ensures { result ≡ is_awaited_first instance fixed waiting.now }
{
    match waiting.items.head() {
        None => false,
        Some(item) => is_awaited(instance, fixed, item),
    }
}

// Whether the first item of one of these queues is.
fn is_first_of_some(instance: u32, fixed: Fixed, queues: &[Waiting]) -> bool
    ensures { result ≡ list_any (is_awaited_first instance fixed) queues.now }
{
    queues
        .iter()
        .any(|waiting| is_awaited_first(instance, fixed, waiting))
}

/// Whether what the `when` of a candidate awaits is the first of no queue, and no subscript of it
/// can pass its limit. Then each of its choices says nothing, and none needs to be looked at.
pub fn is_missed(candidate: &Candidate, system: &System) -> bool
    ensures { result ≡ true → (t : Text) (limit : ℕ) (chosen : Frame) (c : Choice)
        → IsOf t candidate.now chosen c
        → IsVerdict limit t (situation_of system.now) c says_nothing }
{
    let Some(fixed) = candidate.transition.fixed else {
        return false;
    };
    let queues = system.queues.get().as_slice();
    !is_first_of_some(candidate.instance, fixed, queues)
}
