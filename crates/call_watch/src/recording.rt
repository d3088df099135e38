//! What is kept while a text is read as it comes.
ghost use Rattle.std.specs.Prelude.{◌≡◌, ◌≤◌, ◌^◌, [], true, IfOk};
ghost use Rattle.est_syntax.specs.declared.specification.Spec.{Spec};
ghost use Rattle.est_meaning.specs.mean_blocks.Outcome.{Done};
ghost use Rattle.est_meaning.specs.mean_blocks.TextByPlace.{text_of};
ghost use Rattle.est_meaning.specs.FiringSteps.{start_of};
ghost use Rattle.est_meaning.specs.RecordedTraces.{known_trace};
ghost use Rattle.est_meaning.specs.Task.{setup_of};
ghost use Rattle.call_watch.specs.Answers.{at_first};
ghost use Rattle.call_watch.specs.inside.Recordings.{IsWaiting, standing_of};

use est_meaning::event::Event;
use est_meaning::run::Limits;
use est_meaning::world::World;
use est_trace::est_check::Checked;
use est_trace::lines::LineReader;
use est_watch::watcher::Watcher;
use std::alloc::{AllocError, Global};

/// A trace that is being recorded: the watcher of its events and their number, its specification and
/// the reader of its lines, the limits, and whether the first line with tokens is still awaited.
#[derive(Drop)]
pub struct Recording<'c, W> {
    pub(crate) alloc: Global,
    pub(crate) watcher: Watcher<W>,
    pub(crate) given: u32,
    pub(crate) checked: &'c Checked,
    pub(crate) reader: LineReader<'c>,
    pub(crate) limits: Limits,
    pub(crate) is_first: bool,
}

impl<'c, W: World + Drop> Recording<'c, W> {
    /// A recording of which nothing was read, of runs from a start with these events. Of each
    /// specification of which the world speaks it stands at the start.
    pub fn new(
        alloc: Global,
        checked: &'c Checked,
        world: W,
        start_outs: Vec<Event>,
        limits: Limits,
    ) -> Result<Recording<'c, W>, AllocError>
        requires alone { (spec : Spec) → W.speaks world spec → spec ≡ checked.now }
        requires start { (spec : Spec) → W.speaks world spec
            → start_of limits.statements (text_of spec)
            ≡ Done start_outs.items (W.stack world spec).now }
        requires bottom { (spec : Spec) → W.speaks world spec → (W.stack world spec).below ≡ [] }
        requires limit { W.limit world ≡ limits.statements }
        requires room { W.fired world ≤ 2 ^ 63 }
        ensures world { IfOk result (λ r. r.watcher.world ≡ world) }
        ensures limits { IfOk result (λ r. r.limits ≡ limits) }
        ensures standing { IfOk result (λ r. standing_of r ≡ at_first) }
        ensures waiting { IfOk result (IsWaiting W.speaks W.stack W.limit W.fired
            (λ spec. setup_of limits.statements limits.silent (known_trace [])
            (W.stack world spec) start_outs.items spec)) }
    {
        let reader = LineReader::new(alloc, checked)?;
        Ok(Recording {
            alloc,
            watcher: Watcher::new(alloc, world, start_outs, limits),
            given: 0,
            checked,
            reader,
            limits,
            is_first: true,
        })
    }
}
