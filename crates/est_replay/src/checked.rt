//! Replays of explanations of checked specifications.
ghost use Rattle.std.specs.Prelude.{◌≤◌, length, IfOk};
ghost use Rattle.est_meaning.specs.AllowedEvents.{IsAllowedTrace};
ghost use Rattle.est_explanation.specs.Replay.{IsReplay, most_moves};

use est_explanation::explanation::Explanation;
use est_explanation::replay::{Replaying, replay_in};
use est_explanation::verdict::{Replayed, Why};
use est_meaning::answers::Started;
use est_meaning::run::Limits;
use est_meaning::trace::Trace;
use est_plain::est_check::Checked;
use est_plain::world::PlainWorld;
use std::alloc::{AllocError, Global};

/// Replays an explanation of a trace from the start of a specification. The answer is the only one
/// that fits (`laws::one_answer`).
pub fn replay(
    alloc: Global,
    checked: &Checked,
    trace: &Trace,
    explanation: &Explanation,
    limits: &Limits,
) -> Result<Replayed, AllocError>
    requires allowed { IsAllowedTrace checked.now trace.now }
    requires few { length explanation.now.moves ≤ most_moves }
    ensures { IfOk result
        (λ answer. IsReplay limits.now.statements limits.now.silent checked.now trace.now
        explanation.now.moves explanation.now.claim answer) }
{
    let started = PlainWorld::start(alloc, checked, limits.statements)?;
    match started {
        Started::Fault(fault) => Ok(Replayed::Rejected {
            at: 0,
            why: Why::NoStart(fault),
        }),
        Started::Limit => Ok(Replayed::Rejected {
            at: 0,
            why: Why::Limit,
        }),
        Started::Ready { world, outs } => {
            let mut world = world;
            replay_in(
                alloc,
                &mut world,
                outs.as_slice(),
                &Replaying {
                    trace,
                    moves: explanation.moves.as_slice(),
                    claim: explanation.claim,
                    silent: limits.silent,
                },
            )
        }
    }
}
