//! The text, a byte at a time.
ghost use Rattle.std.specs.Prelude.{◌≡◌, ◌≢◌, ℕ, ◌+◌, ◌-◌, ◌<◌, ◌≤◌, ◌^◌, List, [], ◌∷◌, ◌++◌};
ghost use Rattle.std.specs.Prelude.{Option, IfOk, IfSome, IfNone, OnOk, OnErr, length, min, codes};
ghost use Rattle.std.specs.Prelude.{string_bytes};
ghost use Rattle.est_syntax.specs.declared.specification.Spec.{Spec};
ghost use Rattle.est_meaning.specs.Run.{Setup};
ghost use Rattle.est_meaning.specs.SituationStacks.{Keeps};
ghost use Rattle.call_files.specs.FaultCounts.{last_count, AllStay, Rose};
ghost use Rattle.call_files.specs.Files.{limit_of};
ghost use Rattle.call_files.specs.Pieces.{SameTold, TakesOff};
ghost use Rattle.call_files.specs.RefusalLines.{refusal_line, too_long_line};
ghost use Rattle.call_files.specs.Seen.{seen, shelved};
ghost use Rattle.call_watch.specs.Lines.{HasNoFeed};
ghost use Rattle.call_watch.specs.Answers.{at_first};
ghost use Rattle.call_watch.specs.Endings.{standard_input, IsBytewise, Watches};
ghost use Rattle.call_watch.specs.inside.Reading.{IsSoFar, IsClosed, StopsWith, IsAfterByte};
ghost use Rattle.call_watch.specs.inside.Reading.{IsLastWritten, IsCounted};
ghost use Rattle.call_watch.specs.inside.Recordings.{IsWaiting, standing_of, watch_of};

use crate::answering::{Cut, Went, answer_line};
use crate::recording::Recording;
use call_files::file::File;
use call_files::status::Status;
use call_files::{Failed, Shelf, Sink, refusal_report, too_long_report, write_whole};
use est_meaning::world::World;
use std::alloc::{AllocError, Global};

// A recording, and the line that no line feed has closed yet, with its row.
#[derive(Drop)]
struct Reading<'c, W> {
    recording: Recording<'c, W>,
    line: Vec<u8>,
    row: u32,
}

// One byte, if there is one left.
fn next_byte<S: Shelf>(shelf: &mut S) -> Result<Option<u8>, Failed>
    ensures told { SameTold (S.told shelf.old) (S.told shelf.new) }
    ensures started { S.started shelf.new ≡ S.started shelf.old }
    ensures asked { S.asked shelf.new ≡ S.asked shelf.old + 1 }
    ensures reads { (name : List ℕ) → S.reads shelf.old name → S.reads shelf.new name }
    ensures quiet { OnOk result (AllStay (S.faults shelf.old) (S.faults shelf.new)) }
    ensures byte { IfOk result (λ next. IfSome next
        (λ byte. TakesOff (S.left shelf.old) (byte ∷ []) (S.left shelf.new))) }
    ensures more { IfOk result (λ next. IfSome next
        (λ byte. S.taken shelf.new ≡ min (S.taken shelf.old + 1) last_count)) }
    ensures end { IfOk result (λ next. IfNone next
        (IfSome (S.left shelf.old) (λ rest. rest ≡ []))) }
    ensures no_more { IfOk result (λ next. IfNone next
        (S.taken shelf.new ≡ min (S.taken shelf.old) last_count)) }
    ensures untaken { OnErr result (S.taken shelf.new ≡ S.taken shelf.old) }
    ensures failed { OnErr result
        ((name : List ℕ) → S.reads shelf.old name
        → Rose (S.faults shelf.old name) (S.faults shelf.new name)) }
{
    let mut into = [0u8; 1];
    if shelf.more(&mut into)? == 0 {
        return Ok(None);
    }
    Ok(Some(into[0]))
}

// Writes the last line of a report, which answers no line.
fn write_last<K: Sink>(sink: &mut K, report: Result<String, AllocError>, status: Status) -> Status
    ensures last { (last : List ℕ) → IfOk report (λ line. string_bytes line ≡ last)
        → IsLastWritten last status (K.written sink.old) (K.written sink.new) result }
    ensures unwritten { result ≡ Status.WriteFault → status ≢ Status.WriteFault
        → Rose (K.faults sink.old) (K.faults sink.new) }
    ensures written { result ≢ Status.WriteFault → K.faults sink.new ≡ K.faults sink.old }
{
    let Ok(report) = report else {
        return Status::OutOfMemory;
    };
    match write_whole(sink, report.as_bytes()) {
        Ok(()) => status,
        Err(_) => Status::WriteFault,
    }
}

// Closes the line: it is answered, and the next one begins.
fn close_line<K: Sink, W: World>(sink: &mut K, reading: &mut Reading<'_, W>) -> Went
    ghost setup: { Spec → Setup }
    requires waiting { IsWaiting W.speaks W.stack W.limit W.fired setup reading.old.recording }
    requires short { length reading.old.line.items ≤ limit_of File.Trace }
    requires row { reading.old.row < 2 ^ 32 - 1 }
    ensures keeps { Keeps W.speaks W.limit reading.old.recording.watcher.world
        reading.new.recording.watcher.world }
    ensures limits { reading.new.recording.limits ≡ reading.old.recording.limits }
    ensures waiting { result ≡ Went.On
        → IsWaiting W.speaks W.stack W.limit W.fired setup reading.new.recording }
    ensures next { result ≡ Went.On
        → (reading.new.line.items ≡ []) × (reading.new.row ≡ reading.old.row + 1) }
    ensures closed { (spec : Spec) → W.speaks reading.old.recording.watcher.world spec
        → IsClosed (watch_of setup reading.old.recording.limits.budget spec) reading.old.row
        (standing_of reading.old.recording) reading.old.line.items
        (standing_of reading.new.recording) result (K.written sink.old) (K.written sink.new) }
    ensures sink { IsCounted result (K.faults sink.old) (K.faults sink.new) }
{
    match answer_line(sink, &mut reading.recording, reading.row, &reading.line) {
        Ok(Went::On) => {
            reading.line.clear();
            reading.row += 1;
            Went::On
        }
        Ok(Went::Ended(status)) => Went::Ended(status),
        Err(Cut::Unwritten) => Went::Ended(Status::WriteFault),
        Err(Cut::OutOfMemory) => Went::Ended(Status::OutOfMemory),
    }
}

// Takes one byte: a line feed closes the line, and any other byte is one more of it.
fn take_byte<K: Sink, W: World>(sink: &mut K, reading: &mut Reading<'_, W>, byte: u8) -> Went
    ghost setup: { Spec → Setup }
    requires waiting { IsWaiting W.speaks W.stack W.limit W.fired setup reading.old.recording }
    requires short { length reading.old.line.items ≤ limit_of File.Trace }
    requires row { reading.old.row < 2 ^ 32 - 1 }
    requires one { HasNoFeed reading.old.line.items }
    ensures keeps { Keeps W.speaks W.limit reading.old.recording.watcher.world
        reading.new.recording.watcher.world }
    ensures limits { reading.new.recording.limits ≡ reading.old.recording.limits }
    ensures waiting { result ≡ Went.On
        → IsWaiting W.speaks W.stack W.limit W.fired setup reading.new.recording }
    ensures one { result ≡ Went.On → HasNoFeed reading.new.line.items }
    ensures longer { result ≡ Went.On
        → length reading.new.line.items ≤ length reading.old.line.items + 1 }
    ensures lower { result ≡ Went.On → reading.new.row ≤ reading.old.row + 1 }
    ensures after { (spec : Spec) → W.speaks reading.old.recording.watcher.world spec
        → (taken : List ℕ) (before : Option (List ℕ))
        → IsSoFar (watch_of setup reading.old.recording.limits.budget spec) taken
        reading.old.line.items reading.old.row (standing_of reading.old.recording) before
        (K.written sink.old)
        → IsAfterByte (watch_of setup reading.old.recording.limits.budget spec) taken byte
        reading.new.line.items reading.new.row (standing_of reading.new.recording) before
        (K.written sink.new) result }
    ensures sink { IsCounted result (K.faults sink.old) (K.faults sink.new) }
{
    if byte == b'\n' {
        return close_line(sink, reading);
    }
    match reading.line.push(byte) {
        Ok(()) => Went::On,
        Err(_) => Went::Ended(Status::OutOfMemory),
    }
}

// No line ended the call: at the row behind the last line there is no `end`.
fn no_end<K: Sink>(alloc: Global, sink: &mut K, row: u32) -> Status
    ensures last { IsLastWritten (refusal_line File.Trace row 1 (codes "bad token"))
        Status.BadTrace (K.written sink.old) (K.written sink.new) result }
    ensures sink { IsCounted (Went.Ended result) (K.faults sink.old) (K.faults sink.new) }
{
    write_last(
        sink,
        refusal_report(alloc, File::Trace, row, 1, "bad token"),
        Status::BadTrace,
    )
}

// The text has ended: what stands behind the last line feed is a line, and no line ended the call.
fn end_text<K: Sink, W: World>(alloc: Global, sink: &mut K, reading: &mut Reading<'_, W>) -> Status
    ghost setup: { Spec → Setup }
    requires waiting { IsWaiting W.speaks W.stack W.limit W.fired setup reading.old.recording }
    requires short { length reading.old.line.items ≤ limit_of File.Trace }
    requires row { reading.old.row < 2 ^ 32 - 1 }
    requires one { HasNoFeed reading.old.line.items }
    ensures stops { (spec : Spec) → W.speaks reading.old.recording.watcher.world spec
        → (taken : List ℕ) (before : Option (List ℕ))
        → IsSoFar (watch_of setup reading.old.recording.limits.budget spec) taken
        reading.old.line.items reading.old.row (standing_of reading.old.recording) before
        (K.written sink.old)
        → length taken ≤ limit_of File.Trace
        → StopsWith (watch_of setup reading.old.recording.limits.budget spec) taken
        (length taken) before (K.written sink.new) result }
    ensures sink { IsCounted (Went.Ended result) (K.faults sink.old) (K.faults sink.new) }
{
    if reading.line.is_empty() {
        return no_end(alloc, sink, reading.row);
    }
    match close_line(sink, reading) {
        Went::On => no_end(alloc, sink, reading.row),
        Went::Ended(status) => status,
    }
}

// The text is longer than it may be.
fn too_long<K: Sink>(alloc: Global, sink: &mut K) -> Status
    ensures last { IsLastWritten (too_long_line File.Trace) Status.TooLong (K.written sink.old)
        (K.written sink.new) result }
    ensures sink { IsCounted (Went.Ended result) (K.faults sink.old) (K.faults sink.new) }
{
    write_last(sink, too_long_report(alloc, File::Trace), Status::TooLong)
}

/// Watches the text under the name `-`: reads it a byte at a time, and answers each line once its
/// line feed, or the end, was taken. No byte behind the line that ends the call is taken.
pub fn watch_text<S: Shelf, K: Sink, W: World + Drop>(
    alloc: Global,
    shelf: &mut S,
    sink: &mut K,
    recording: Recording<'_, W>,
) -> Status
    ghost setup: { Spec → Setup }
    requires waiting { IsWaiting W.speaks W.stack W.limit W.fired setup recording }
    requires first { standing_of recording ≡ at_first }
    ensures told { SameTold (S.told shelf.old) (S.told shelf.new) }
    ensures started { S.started shelf.new ≡ S.started shelf.old ++ standard_input ∷ [] }
    ensures quiet { result ≢ Status.ReadFault → AllStay (S.faults shelf.old) (S.faults shelf.new) }
    ensures failed { result ≡ Status.ReadFault
        → Rose (S.faults shelf.old standard_input) (S.faults shelf.new standard_input) }
    ensures unwritten { result ≡ Status.WriteFault → Rose (K.faults sink.old) (K.faults sink.new) }
    ensures written { result ≢ Status.WriteFault → K.faults sink.new ≡ K.faults sink.old }
    ensures usage { result ≢ Status.Usage }
    ensures idle { S.asked shelf.new ≡ 0
        → (result ≡ Status.ReadFault) × (K.written sink.new ≡ K.written sink.old) }
    ensures bytewise { 1 ≤ S.asked shelf.new → IsBytewise (S.asked shelf.new) (S.taken shelf.new) }
    ensures watches { 1 ≤ S.asked shelf.new → (spec : Spec)
        → W.speaks recording.entry.watcher.world spec
        → Watches (watch_of setup recording.entry.limits.budget spec) (seen
        (shelved (S.told shelf.old) (S.faults shelf.old) (S.started shelf.old) (S.taken shelf.old))
        (shelved (S.told shelf.new) (S.faults shelf.new) (S.started shelf.new) (S.taken shelf.new)))
        (K.written sink.old) (K.written sink.new) result }
{
    match shelf.start("-") {
        Ok(()) => {}
        Err(_) => return Status::ReadFault,
    }
    let mut reading = Reading {
        recording,
        line: Vec::new(alloc),
        row: 1,
    };
    let limit = File::Trace.limit();
    // The last turn finds that the text is too long, or that it has ended.
    'bytes: for taken in 0..limit + 1 {
        let byte = match next_byte(shelf) {
            Ok(Some(byte)) => byte,
            Ok(None) => return end_text(alloc, sink, &mut reading),
            Err(_) => return Status::ReadFault,
        };
        if taken == limit {
            return too_long(alloc, sink);
        }
        match take_byte(sink, &mut reading, byte) {
            Went::On => {}
            Went::Ended(status) => return status,
        }
    }
    unreachable!()
}
