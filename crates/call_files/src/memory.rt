//! A shelf in memory.

ghost use Rattle.std.specs.Prelude.{◌≡◌, ℕ, ◌<◌, ◌≤◌, length};
ghost use Rattle.std.specs.Option.{ForSome};
ghost use Rattle.call_files.specs.MemoryFiles.{place_of, name_at, bytes_at};
ghost use Rattle.std.proofs.Props.{props};

use crate::calls::Calls;
use crate::counting::Count;
use crate::memory_file::MemFile;
use crate::places::{add_last, bytes_of, first_named, raise_at, replace_at, without_place};
use crate::shelf::{Failed, Shelf};
use crate::trail::Trail;
use std::alloc::{AllocError, Global};

/// Files in memory, for tests. Each call of `start` or `more` has a number, from 1 on, and is to
/// fail where its number is listed. A name that no file has holds no bytes and cannot be started.
#[derive(Drop)]
pub struct MemShelf {
    alloc: Global,
    chunk: usize,
    calls: Calls,
    files: Vec<MemFile>,
    missing: Count,
    started: Option<usize>,
    taken: usize,
    ended: bool,
    trail: Trail,
    ghost chunked: { 0 < chunk },
    ghost held: { ForSome started (λ place. place < length files.items) },
    ghost first: { ForSome started (λ place. ForSome (name_at files.items place)
        (λ name. place_of files.items name ≡ place)) },
    ghost not_past_end: { ForSome started (λ place. ForSome (bytes_at files.items place)
        (λ bytes. taken ≤ length bytes)) },
}

impl MemShelf {
    ghost use Rattle.std.specs.Prelude.{◌≡◌, ℕ, ◌<◌, List, [], None, false, length};
    ghost use Rattle.std.specs.Prelude.{IsTrue, IfOk, OnOk, OnErr, IfSome, IfNone};
    ghost use Rattle.call_files.specs.MemoryFiles.{place_of};
    ghost use Rattle.call_files.specs.FaultCounts.{AllStay};
    ghost use Rattle.call_files.specs.Memory.{holds, bytes_under, count_under, Reads, started_name};
    ghost use Rattle.call_files.specs.Memory.{taken_from, end_seen, made_by, failing_of, chunk_of};
    ghost use Rattle.call_files.specs.Memory.{SamePlan, SameFiles, SameOtherFiles, SameReading};
    ghost use Rattle.call_files.specs.Memory.{SameCalls, names_started, times_asked};

    /// No file yet.
    pub fn new(alloc: Global, chunk: usize, failing: &[u64]) -> Result<MemShelf, AllocError>
        requires { 0 < chunk }
        ensures reads { IfOk result (λ shelf. started_name shelf ≡ None) }
        ensures empty { IfOk result (λ shelf. (name : List ℕ) → holds shelf name ≡ false) }
        ensures counts { IfOk result (λ shelf. (name : List ℕ) → count_under shelf name ≡ 0) }
        ensures begun { IfOk result (λ shelf. (taken_from shelf ≡ 0) × (end_seen shelf ≡ false)) }
        ensures made { IfOk result (λ shelf. made_by shelf ≡ 0) }
        ensures failing { IfOk result (λ shelf. failing_of shelf ≡ failing.now) }
        ensures chunk { IfOk result (λ shelf. chunk_of shelf ≡ chunk) }
        ensures called { IfOk result
            (λ shelf. (names_started shelf ≡ []) × (times_asked shelf ≡ 0)) }
    {
        Ok(MemShelf {
            alloc,
            chunk,
            calls: Calls::new(alloc, failing)?,
            files: Vec::new(alloc),
            missing: Count::new(),
            started: None,
            taken: 0,
            ended: false,
            trail: Trail::new(),
        })
    }

    /// Puts a file on the shelf, in place of one of the same name. A file that is being read is not
    /// read any more once it was replaced. After an `Err` nothing has changed.
    pub fn add(&mut self, name: &str, bytes: &[u8]) -> Result<(), AllocError>
        ensures plan { SamePlan self.old self.new }
        ensures counts { AllStay (count_under self.old) (count_under self.new) }
        ensures called { SameCalls self.old self.new }
        ensures begun { (taken_from self.new ≡ taken_from self.old)
            × (end_seen self.new ≡ end_seen self.old) }

        ensures held { OnOk result (IsTrue (holds self.new name.now)) }
        ensures bytes { OnOk result (bytes_under self.new name.now ≡ bytes.now) }
        ensures others { OnOk result (SameOtherFiles self.old self.new name.now) }
        ensures replaced { OnOk result (Reads self.old name.now → started_name self.new ≡ None) }
        ensures reading { OnOk result
            ((Reads self.old name.now → ⊥) → SameReading self.old self.new) }

        ensures err { OnErr result (SameFiles self.old self.new × SameReading self.old self.new) }
    {
        let bytes = Vec::from_slice(self.alloc, bytes)?;
        match self.place_of(name) {
            Some(place) => {
                self.started = without_place(self.started, place);
                replace_at(&mut self.files, place, bytes);
            }
            None => {
                let name = String::from_str(self.alloc, name)?;
                let faults = self.missing.copy();
                let file = MemFile {
                    name,
                    bytes,
                    faults,
                };
                add_last(&mut self.files, file)?;
            }
        }
        Ok(())
    }

    // Where the file of this name stands.
    fn place_of(&self, name: &str) -> Option<usize>
        ensures none { IfNone result
            (place_of self.now.files.items name.now ≡ length self.now.files.items) }
        ensures some { IfSome result
            (λ place. (place ≡ place_of self.now.files.items name.now)
            × (place < length self.now.files.items)) }
    {
        first_named(&self.files, name)
    }
}

impl Shelf for MemShelf {
    ghost use Rattle.std.specs.Prelude.{◌≡◌, ℕ, ◌+◌, ◌<◌, ◌≤◌, ◌↔◌, ◌||◌, ◌&&◌, ◌==◌, List};
    ghost use Rattle.std.specs.Prelude.{[], ◌∷◌, ◌++◌, false, not, Some, IfSome, OnOk, OnErr};
    ghost use Rattle.std.specs.Prelude.{IfOk, Ok, is_ok, is_err, is_some, length, take, min};
    ghost use Rattle.call_files.specs.FaultCounts.{last_count, Rose, AllGoOn, AllStay};
    ghost use Rattle.call_files.specs.Pieces.{SameTold, TakesOff};
    ghost use Rattle.call_files.specs.CallNumbers.{is_listed};
    ghost use Rattle.call_files.specs.Memory.{told_under, count_under, holds, Reads};
    ghost use Rattle.call_files.specs.Memory.{rest_of, started_name, taken_from, end_seen};
    ghost use Rattle.call_files.specs.Memory.{count_under_within, made_by, failing_of};
    ghost use Rattle.call_files.specs.Memory.{chunk_of, NumbersCall, SameFiles, SameReading};
    ghost use Rattle.call_files.specs.Memory.{SameOtherCounts, names_started, times_asked};

    ghost told = { told_under };

    ghost left = { λ shelf. Some (rest_of shelf) };

    ghost reads = { Reads };

    ghost taken = { taken_from };

    ghost ended = { end_seen };

    ghost faults = { count_under };

    ghost started = { names_started };

    ghost asked = { times_asked };

    ghost counted = { count_under_within };

    fn start(&mut self, name: &str) -> Result<(), Failed>
        ensures told { SameTold (told_under self.old) (told_under self.new) }
        ensures counts { AllGoOn (count_under self.old) (count_under self.new) }
        ensures started { names_started self.new ≡ names_started self.old ++ name.now ∷ [] }
        ensures asked { times_asked self.new ≡ 0 }
        ensures quiet { OnOk result (AllStay (count_under self.old) (count_under self.new)) }
        ensures reads { OnOk result (Reads self.new name.now) }
        ensures left { OnOk result
            (IfSome (told_under self.old name.now)
            (λ bytes. Some (rest_of self.new) ≡ Some bytes)) }
        ensures begun { OnOk result ((taken_from self.new ≡ 0) × (end_seen self.new ≡ false)) }
        ensures err { OnErr result
            ((taken_from self.new ≡ taken_from self.old)
            × (end_seen self.new ≡ end_seen self.old)) }
        ensures failed { OnErr result
            (Rose (count_under self.old name.now) (count_under self.new name.now)) }

        // It fails exactly where the call is listed or no file has this name, and then nothing but
        // the count changes.
        ensures call { NumbersCall self.old self.new }
        ensures answer { is_ok result
            ≡ (holds self.old name.now && not
            (is_listed (failing_of self.old) (made_by self.new))) }
        ensures files { SameFiles self.old self.new }
        ensures one_count { OnErr result (SameOtherCounts self.old self.new name.now) }
        ensures reading { OnErr result (SameReading self.old self.new) }
    {
        self.trail = self.trail.start(name);
        let place = self.place_of(name);
        let fails = self.calls.next_fails();
        let Some(place) = place else {
            self.missing.raise();
            return Err(Failed);
        };
        if fails {
            raise_at(&mut self.files, place);
            return Err(Failed);
        }
        self.started = Some(place);
        self.taken = 0;
        self.ended = false;
        Ok(())
    }

    fn more(&mut self, into: &mut [u8]) -> Result<usize, Failed>
        requires { 0 < length into.old }
        ensures told { SameTold (told_under self.old) (told_under self.new) }
        ensures counts { AllGoOn (count_under self.old) (count_under self.new) }
        ensures started { names_started self.new ≡ names_started self.old }
        ensures asked { times_asked self.new ≡ times_asked self.old + 1 }
        ensures quiet { OnOk result (AllStay (count_under self.old) (count_under self.new)) }
        ensures reads { (name : List ℕ) → Reads self.old name → Reads self.new name }
        ensures fits { IfOk result (λ n. n ≤ length into.new) }
        ensures piece { IfOk result
            (λ n. TakesOff (Some (rest_of self.old)) (take n into.new) (Some (rest_of self.new))) }
        ensures end { IfOk result
            (λ n. IfSome (Some (rest_of self.old)) (λ rest. (n ≡ 0) ↔ (rest ≡ []))) }
        ensures taken { IfOk result
            (λ n. taken_from self.new ≡ min (taken_from self.old + n) last_count) }
        ensures ended { IfOk result (λ n. end_seen self.new ≡ (end_seen self.old || (n == 0))) }
        ensures err { OnErr result
            ((Some (rest_of self.new) ≡ Some (rest_of self.old))
            × (taken_from self.new ≡ taken_from self.old)
            × (end_seen self.new ≡ end_seen self.old)) }
        ensures failed { OnErr result
            ((name : List ℕ) → Reads self.old name
            → Rose (count_under self.old name) (count_under self.new name)) }
        ensures idle { ((name : List ℕ) → Reads self.old name → ⊥) → result ≡ Ok 0 }

        // It fails exactly where the call is listed and a name is read, and then nothing but the
        // count changes.
        ensures call { NumbersCall self.old self.new }
        ensures answer { is_err result
            ≡ (is_some (started_name self.old) && is_listed (failing_of self.old)
            (made_by self.new)) }
        ensures amount { IfOk result
            (λ n. n ≡ min (min (chunk_of self.old) (length into.new)) (length (rest_of self.old))) }
        ensures files { SameFiles self.old self.new }
        ensures reading { started_name self.new ≡ started_name self.old }
        ensures one_count { OnErr result
            (IfSome (started_name self.old) (SameOtherCounts self.old self.new)) }
    {
        self.trail = self.trail.ask();
        let fails = self.calls.next_fails();
        let Some(place) = self.started else {
            self.ended = true;
            return Ok(0);
        };
        if fails {
            raise_at(&mut self.files, place);
            return Err(Failed);
        }
        let rest = &bytes_of(&self.files, place)[self.taken..];
        let n = self.chunk.min(into.len()).min(rest.len());
        into[..n].copy_from_slice(&rest[..n]);
        self.taken += n;
        self.ended = self.ended || n == 0;
        Ok(n)
    }
}
