//! An output in memory.

ghost use Rattle.std.specs.Prelude.{◌≡◌, ◌<◌, ◌≤◌, length, vec_capacity};

use crate::calls::Calls;
use crate::counting::Count;
use crate::shelf::Failed;
use crate::writing::Sink;
use std::alloc::{AllocError, Global};

/// An output in memory, for tests. Each call of `put` has a number, from 1 on, and fails where its
/// number is listed or no room is left.
#[derive(Drop)]
pub struct MemSink {
    chunk: usize,
    calls: Calls,
    room: usize,
    written: Vec<u8>,
    faults: Count,
    ghost chunked: { 0 < chunk },
    ghost roomy: { room ≤ vec_capacity written },
    ghost within: { length written.items ≤ room },
}

impl MemSink {
    ghost use Rattle.std.specs.Prelude.{◌≡◌, ◌<◌, [], IfOk};
    ghost use Rattle.call_files.specs.MemorySink.{bytes_in, room_left, count_in};
    ghost use Rattle.call_files.specs.MemorySink.{made_in, failing_in, chunk_in};

    /// Nothing written yet.
    pub fn new(
        alloc: Global,
        chunk: usize,
        failing: &[u64],
        room: usize,
    ) -> Result<MemSink, AllocError>
        requires { 0 < chunk }
        ensures written { IfOk result (λ sink. bytes_in sink ≡ []) }
        ensures room { IfOk result (λ sink. room_left sink ≡ room) }
        ensures count { IfOk result (λ sink. count_in sink ≡ 0) }
        ensures made { IfOk result (λ sink. made_in sink ≡ 0) }
        ensures failing { IfOk result (λ sink. failing_in sink ≡ failing.now) }
        ensures chunk { IfOk result (λ sink. chunk_in sink ≡ chunk) }
    {
        Ok(MemSink {
            chunk,
            calls: Calls::new(alloc, failing)?,
            room,
            written: Vec::with_capacity(alloc, room)?,
            faults: Count::new(),
        })
    }

    /// What was written so far.
    pub fn written(&self) -> &[u8]
        ensures { result.now ≡ bytes_in self.now }
    {
        self.written.as_slice()
    }
}

impl Sink for MemSink {
    ghost use Rattle.std.specs.Prelude.{◌≡◌, ◌-◌, ◌<◌, ◌≤◌, ◌||◌, ◌==◌, IfOk};
    ghost use Rattle.std.specs.Prelude.{OnOk, OnErr, is_err, length, take, min};
    ghost use Rattle.call_files.specs.CallNumbers.{is_listed};
    ghost use Rattle.call_files.specs.FaultCounts.{last_count, Rose, GoesOn};
    ghost use Rattle.call_files.specs.Pieces.{appended};
    ghost use Rattle.call_files.specs.MemorySink.{told_in, room_left, count_in, count_in_within};
    ghost use Rattle.call_files.specs.MemorySink.{made_in, failing_in, chunk_in, NumbersPut};

    ghost written = { told_in };

    ghost faults = { count_in };

    ghost counted = { count_in_within };

    fn put(&mut self, part: &[u8]) -> Result<usize, Failed>
        requires { 0 < length part.now }
        ensures count { GoesOn (count_in self.old) (count_in self.new) }
        ensures some { IfOk result (λ n. 0 < n) }
        ensures within { IfOk result (λ n. n ≤ length part.now) }
        ensures piece { IfOk result
            (λ n. told_in self.new ≡ appended (told_in self.old) (take n part.now)) }
        ensures err { OnErr result (told_in self.new ≡ told_in self.old) }
        ensures failed { OnErr result (Rose (count_in self.old) (count_in self.new)) }

        // It fails exactly where the call is listed or no room is left.
        ensures call { NumbersPut self.old self.new }
        ensures answer { is_err result
            ≡ (is_listed (failing_in self.old) (made_in self.new) || (room_left self.old == 0)) }
        ensures amount { IfOk result
            (λ n. n ≡ min (min (chunk_in self.old) (room_left self.old)) (length part.now)) }
        ensures room { IfOk result (λ n. room_left self.new ≡ room_left self.old - n) }
        ensures same_room { OnErr result (room_left self.new ≡ room_left self.old) }
        ensures quiet { OnOk result (count_in self.new ≡ count_in self.old) }
    {
        let left = self.room - self.written.len();
        if self.calls.next_fails() || left == 0 {
            self.faults.raise();
            return Err(Failed);
        }
        let n = self.chunk.min(left).min(part.len());
        self.written.extend_from_slice(&part[..n]).unwrap();
        Ok(n)
    }
}
