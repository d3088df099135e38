//! Where a trace ends.
ghost use Rattle.std.specs.Prelude.{◌≡◌, ◌↔◌, IsTrue, IfOk};
ghost use Rattle.est_syntax.specs.declared.specification.Spec.{Spec};
ghost use Rattle.mean_blocks.specs.TextByPlace.{text_of};
ghost use Rattle.est_meaning.specs.Endings.{IsTraceEnd};
ghost use Rattle.est_meaning.specs.QuietSituations.{IsQuiet};
ghost use Rattle.est_meaning.specs.SituationStacks.{Keeps, SameStack};

use crate::answers::Offers;
use crate::trace::Trace;
use crate::world::World;
use std::alloc::{AllocError, Global};

// Whether nothing has to happen: the situation is settled, and nothing is due.
fn stands_quiet<W: World>(alloc: Global, world: &mut W) -> Result<bool, AllocError>
    ensures keeps { Keeps W.speaks W.limit world.old world.new }
    ensures fired { W.fired world.new ≡ W.fired world.old }
    ensures stack { SameStack W.speaks W.stack world.old world.new }
    ensures quiet { IfOk result (λ quiet. (spec : Spec) → W.speaks world.old spec
        → IsTrue quiet ↔ IsQuiet (W.limit world.old) (text_of spec)
        (W.stack world.old spec).now) }
{
    let mut firings = Vec::new(alloc);
    match world.options(alloc, &mut firings)? {
        Offers::Settled => {}
        Offers::Unsettled => return Ok(false),
    }
    let due = world.due_any(alloc)?;
    Ok(!due)
}

/// Whether a trace ends after so many events where a world stands: it has no more of them, and
/// where it ends quiet, nothing has to happen. Only where all events are there and the trace ends
/// quiet is the world asked.
pub fn ends_at<W: World>(
    alloc: Global,
    world: &mut W,
    trace: &Trace,
    events: usize,
) -> Result<bool, AllocError>
    ensures keeps { Keeps W.speaks W.limit world.old world.new }
    ensures fired { W.fired world.new ≡ W.fired world.old }
    ensures stack { SameStack W.speaks W.stack world.old world.new }
    ensures ends { IfOk result (λ ends. (spec : Spec) → W.speaks world.old spec
        → IsTrue ends ↔ IsTraceEnd trace.now (W.limit world.old) (text_of spec)
        (W.stack world.old spec).now events) }
{
    let all = trace.events().len();
    if events != all {
        return Ok(false);
    }
    if !trace.is_quiet() {
        return Ok(true);
    }
    stands_quiet(alloc, world)
}
