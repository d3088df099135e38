//! The answers to a line.
ghost use Rattle.std.specs.Prelude.{◌≡◌, ◌+◌, ◌<◌, ◌≤◌, [], ◌∷◌, ◌++◌, All, IfOk, false, length};
ghost use Rattle.est_syntax.specs.declared.specification.Spec.{Spec};
ghost use Rattle.est_meaning.specs.AllowedEvents.{IsAllowed, most_events};
ghost use Rattle.est_meaning.specs.Run.{Setup};
ghost use Rattle.est_meaning.specs.SituationStacks.{Keeps};
ghost use Rattle.est_watch.specs.Watchers.{given_to};
ghost use Rattle.call_files.specs.Files.{limit_of};
ghost use Rattle.call_files.specs.RefusalLines.{refusal_line};
ghost use Rattle.call_watch.specs.declared.answering.Cut.TheVariants.{OutOfMemory, Unwritten};
ghost use Rattle.call_watch.specs.inside.Recordings.{IsWaiting, standing_of, watch_of};
ghost use Rattle.call_watch.specs.inside.Work.{AnswersSink, AreGiven, IsEnded, IsPut, IsTaken};
ghost use Rattle.call_watch.specs.inside.Work.{after_events, went_by};

use crate::line::{Found, read_line};
use crate::recording::Recording;
use crate::report::{event_report, finish_report, watched_status};
use call_files::file::File;
use call_files::status::Status;
use call_files::{Failed, Sink, refusal_report, write_whole};
use est_lexer::lex::lex;
use est_meaning::event::{Event, Events};
use est_meaning::world::World;
use est_trace::lines::is_end;
use mean_watch::watched::Watched;
use std::alloc::{AllocError, Global};

/// What comes of a line: the call goes on, or it ends with this status.
#[derive(Clone, Copy, PartialEq, Eq)]
pub enum Went {
    On,
    Ended(Status),
}

/// Why a line was not answered whole: an answer could not be written, or memory ran out.
#[derive(Clone, Copy, PartialEq, Eq)]
pub enum Cut {
    Unwritten,
    OutOfMemory,
}

impl From<AllocError> for Cut {
    ghost from_gives = { λ error cut. cut ≡ OutOfMemory };

    fn from(_: AllocError) -> Cut {
        Cut::OutOfMemory
    }
}

impl From<Failed> for Cut {
    ghost from_gives = { λ failed cut. cut ≡ Unwritten };

    fn from(_: Failed) -> Cut {
        Cut::Unwritten
    }
}

/// Answers the line of a row, which has no line feed.
pub fn answer_line<K: Sink, W: World>(
    sink: &mut K,
    recording: &mut Recording<'_, W>,
    row: u32,
    bytes: &[u8],
) -> Result<Went, Cut>
    ghost setup: { Spec → Setup }
    requires waiting { IsWaiting W.speaks W.stack W.limit W.fired setup recording.old }
    requires short { length bytes.now ≤ limit_of File.Trace }
    ensures keeps { Keeps W.speaks W.limit recording.old.watcher.world recording.new.watcher.world }
    ensures limits { recording.new.limits ≡ recording.old.limits }
    ensures sink { AnswersSink result (K.faults sink.old) (K.faults sink.new) }
    ensures waiting { IfOk result (λ went. went ≡ Went.On
        → IsWaiting W.speaks W.stack W.limit W.fired setup recording.new) }
    ensures answers { (spec : Spec) → W.speaks recording.old.watcher.world spec
        → IsTaken (watch_of setup recording.old.limits.budget spec) row
        (standing_of recording.old) bytes.now (standing_of recording.new)
        result (K.written sink.old) (K.written sink.new) }
{
    let own = lex(recording.alloc, bytes)?;
    if own.count() == 0 {
        return Ok(Went::On);
    }
    if !recording.is_first && is_end(recording.alloc, &own) {
        return finish(sink, recording);
    }
    match read_line(recording, bytes, &own)? {
        Found::Events(events) => give_all(sink, recording, events),
        Found::Refused { column, why } => refuse(sink, recording.alloc, row, column, why),
    }
}

// Gives events one after the other, and writes each answer before the next one is given.
fn give_all<K: Sink, W: World>(
    sink: &mut K,
    recording: &mut Recording<'_, W>,
    events: Events,
) -> Result<Went, Cut>
    ghost setup: { Spec → Setup }
    requires waiting { IsWaiting W.speaks W.stack W.limit W.fired setup recording.old }
    requires few { length (given_to recording.old.watcher) + length events ≤ most_events }
    requires allowed { (spec : Spec) → W.speaks recording.old.watcher.world spec
        → All (IsAllowed spec) events }
    ensures keeps { Keeps W.speaks W.limit recording.old.watcher.world recording.new.watcher.world }
    ensures limits { recording.new.limits ≡ recording.old.limits }
    ensures sink { AnswersSink result (K.faults sink.old) (K.faults sink.new) }
    ensures waiting { IfOk result (λ went. went ≡ Went.On
        → IsWaiting W.speaks W.stack W.limit W.fired setup recording.new) }
    ensures first { IfOk result (λ went. went ≡ Went.On
        → recording.new.is_first ≡ false) }
    ensures answers { (spec : Spec) → W.speaks recording.old.watcher.world spec
        → AreGiven (watch_of setup recording.old.limits.budget spec)
        (given_to recording.old.watcher) events (after_events (given_to recording.new.watcher))
        result (K.written sink.old) (K.written sink.new) }
{
    for event in events.items {
        let went = give_one(sink, recording, event)?;
        match went {
            Went::On => {}
            Went::Ended(_) => return Ok(went),
        }
    }
    recording.is_first = false;
    Ok(Went::On)
}

// Gives an event, and writes its answer.
fn give_one<K: Sink, W: World>(
    sink: &mut K,
    recording: &mut Recording<'_, W>,
    event: Event,
) -> Result<Went, Cut>
    ghost setup: { Spec → Setup }
    requires waiting { IsWaiting W.speaks W.stack W.limit W.fired setup recording.old }
    requires few { length (given_to recording.old.watcher) < most_events }
    requires allowed { (spec : Spec) → W.speaks recording.old.watcher.world spec
        → IsAllowed spec event }
    ensures keeps { Keeps W.speaks W.limit recording.old.watcher.world recording.new.watcher.world }
    ensures limits { recording.new.limits ≡ recording.old.limits }
    ensures sink { AnswersSink result (K.faults sink.old) (K.faults sink.new) }
    ensures waiting { IfOk result (λ went. went ≡ Went.On
        → IsWaiting W.speaks W.stack W.limit W.fired setup recording.new) }
    ensures given { IfOk result (λ went.
        given_to recording.new.watcher ≡ given_to recording.old.watcher ++ event ∷ []) }
    ensures answers { (spec : Spec) → W.speaks recording.old.watcher.world spec
        → AreGiven (watch_of setup recording.old.limits.budget spec)
        (given_to recording.old.watcher) (event ∷ [])
        (after_events (given_to recording.new.watcher))
        result (K.written sink.old) (K.written sink.new) }
{
    let answer = recording.watcher.event(event)?;
    recording.given += 1;
    let line = event_report(recording.alloc, answer, recording.given, &recording.limits)?;
    put_line(sink, line.as_str())?;
    Ok(went_by(answer))
}

// What comes of the answer to an event.
fn went_by(answer: Watched) -> Went
    ensures { result ≡ went_by answer }
{
    match answer {
        Watched::Possible => Went::On,
        _ => Went::Ended(watched_status(answer)),
    }
}

// Tells the end, and writes the answer.
fn finish<K: Sink, W: World>(sink: &mut K, recording: &mut Recording<'_, W>) -> Result<Went, Cut>
    ghost setup: { Spec → Setup }
    requires waiting { IsWaiting W.speaks W.stack W.limit W.fired setup recording.old }
    ensures keeps { Keeps W.speaks W.limit recording.old.watcher.world recording.new.watcher.world }
    ensures limits { recording.new.limits ≡ recording.old.limits }
    ensures sink { AnswersSink result (K.faults sink.old) (K.faults sink.new) }
    ensures ends { IfOk result (λ went. went ≡ Went.On → ⊥) }
    ensures answers { (spec : Spec) → W.speaks recording.old.watcher.world spec
        → IsEnded (watch_of setup recording.old.limits.budget spec)
        (given_to recording.old.watcher) result (K.written sink.old) (K.written sink.new) }
{
    let answer = recording.watcher.finish()?;
    let line = finish_report(recording.alloc, answer, recording.given, &recording.limits)?;
    put_line(sink, line.as_str())?;
    Ok(Went::Ended(watched_status(answer)))
}

// Writes the refusal of the line of a row.
fn refuse<K: Sink>(
    sink: &mut K,
    alloc: Global,
    row: u32,
    column: u32,
    why: &str,
) -> Result<Went, Cut>
    ensures sink { AnswersSink result (K.faults sink.old) (K.faults sink.new) }
    ensures went { IfOk result (λ went. went ≡ Went.Ended Status.BadTrace) }
    ensures put { IsPut (refusal_line File.Trace row column why.now) result
        (K.written sink.old) (K.written sink.new) }
{
    let line = refusal_report(alloc, File::Trace, row, column, why)?;
    put_line(sink, line.as_str())?;
    Ok(Went::Ended(Status::BadTrace))
}

// Writes a line.
fn put_line<K: Sink>(sink: &mut K, line: &str) -> Result<(), Cut>
    ensures sink { AnswersSink result (K.faults sink.old) (K.faults sink.new) }
    ensures put { IsPut line.now result (K.written sink.old) (K.written sink.new) }
{
    write_whole(sink, line.as_bytes())?;
    Ok(())
}
