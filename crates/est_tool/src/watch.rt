//! The command that watches a trace while it is recorded.
ghost use Rattle.std.specs.Prelude.{◌≡◌, []};
ghost use Rattle.est_syntax.specs.declared.specification.Spec.{Spec};
ghost use Rattle.est_meaning.specs.RecordedTraces.{known_trace};
ghost use Rattle.est_meaning.specs.Run.{Setup};
ghost use Rattle.est_meaning.specs.SituationStacks.{IsFresh, StartedAs};
ghost use Rattle.est_meaning.specs.Task.{setup_of};
ghost use Rattle.call_files.specs.Seen.{seen, shelved, sent};
ghost use Rattle.est_tool.specs.inside.Watching.{IsWatchedOn, IsWatchWork, SpeaksAlone};

use crate::commands::{not_started, start_over};
use crate::sending::deliver;
use call_files::est_check::Checked;
use call_files::specification::specification_in;
use call_files::status::Status;
use call_files::{Shelf, Sink};
use call_watch::recording::Recording;
use call_watch::watch_text;
use est_meaning::answers::Started;
use est_meaning::event::Events;
use est_meaning::run::Limits;
use est_meaning::world::World;
use est_replay::PlainWorld;
use std::alloc::Global;

/// Watches runs of the specification in a file: each event of the trace, which is the text under the
/// name `-`, is answered before the next byte is asked for.
pub(crate) fn watch_file<S: Shelf, K: Sink>(
    alloc: Global,
    shelf: &mut S,
    sink: &mut K,
    specification: &str,
    limits: &Limits,
) -> Status
    ensures { IsWatchWork specification.now
        limits.now.silent limits.now.budget limits.now.statements
        (seen
        (shelved (S.told shelf.old) (S.faults shelf.old) (S.started shelf.old) (S.taken shelf.old))
        (shelved (S.told shelf.new) (S.faults shelf.new) (S.started shelf.new) (S.taken shelf.new)))
        (S.asked shelf.new)
        (sent (K.written sink.old) (K.faults sink.old) (K.written sink.new) (K.faults sink.new))
        result }
{
    match specification_in(alloc, shelf, specification) {
        Ok(checked) => watch_checked(alloc, shelf, sink, &checked, limits),
        Err(stop) => deliver(Err(stop), sink),
    }
}

// What is left of it once the specification was read.
fn watch_checked<S: Shelf, K: Sink>(
    alloc: Global,
    shelf: &mut S,
    sink: &mut K,
    checked: &Checked,
    limits: &Limits,
) -> Status
    ensures { IsWatchedOn checked.now limits.now.silent limits.now.budget limits.now.statements
        (seen
        (shelved (S.told shelf.old) (S.faults shelf.old) (S.started shelf.old) (S.taken shelf.old))
        (shelved (S.told shelf.new) (S.faults shelf.new) (S.started shelf.new) (S.taken shelf.new)))
        (S.asked shelf.new)
        (sent (K.written sink.old) (K.faults sink.old) (K.written sink.new) (K.faults sink.new))
        result }
{
    match PlainWorld::start(alloc, checked, limits.statements) {
        Ok(started) => watch_started(alloc, shelf, sink, checked, started, limits),
        Err(_) => Status::OutOfMemory,
    }
}

// What is left of it once the specification was started.
fn watch_started<S: Shelf, K: Sink, W: World + Drop>(
    alloc: Global,
    shelf: &mut S,
    sink: &mut K,
    checked: &Checked,
    started: Started<W>,
    limits: &Limits,
) -> Status
    requires started { StartedAs W.speaks W.stack W.limit W.fired limits.now.statements checked.now
        started }
    requires alone { SpeaksAlone W.speaks checked.now started }
    ensures { IsWatchedOn checked.now limits.now.silent limits.now.budget limits.now.statements
        (seen
        (shelved (S.told shelf.old) (S.faults shelf.old) (S.started shelf.old) (S.taken shelf.old))
        (shelved (S.told shelf.new) (S.faults shelf.new) (S.started shelf.new) (S.taken shelf.new)))
        (S.asked shelf.new)
        (sent (K.written sink.old) (K.faults sink.old) (K.written sink.new) (K.faults sink.new))
        result }
{
    match started {
        Started::Ready { world, outs } => {
            watch_from(alloc, shelf, sink, checked, world, outs, limits)
        }
        Started::Fault(fault) => deliver(not_started(alloc, fault), sink),
        Started::Limit => deliver(start_over(alloc, limits.statements), sink),
    }
}

// What is left of it once the start is ready, from a world that stands there and speaks of this
// specification alone.
fn watch_from<S: Shelf, K: Sink, W: World + Drop>(
    alloc: Global,
    shelf: &mut S,
    sink: &mut K,
    checked: &Checked,
    world: W,
    outs: Events,
    limits: &Limits,
) -> Status
    ghost setup: { Spec → Setup }
    requires setup { setup ≡ (λ spec. setup_of limits.now.statements limits.now.silent
        (known_trace []) (W.stack world spec) outs spec) }
    requires speaks { W.speaks world checked.now }
    requires alone { (spec : Spec) → W.speaks world spec → spec ≡ checked.now }
    requires fresh { IsFresh W.speaks W.stack W.limit W.fired limits.now.statements world outs }
    ensures { IsWatchedOn checked.now limits.now.silent limits.now.budget limits.now.statements
        (seen
        (shelved (S.told shelf.old) (S.faults shelf.old) (S.started shelf.old) (S.taken shelf.old))
        (shelved (S.told shelf.new) (S.faults shelf.new) (S.started shelf.new) (S.taken shelf.new)))
        (S.asked shelf.new)
        (sent (K.written sink.old) (K.faults sink.old) (K.written sink.new) (K.faults sink.new))
        result }
{
    match Recording::new(alloc, checked, world, outs.items, *limits) {
        Ok(recording) => watch_text(alloc, shelf, sink, recording),
        Err(_) => Status::OutOfMemory,
    }
}
