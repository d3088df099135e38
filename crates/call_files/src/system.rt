//! Real files and standard output.

ghost use Rattle.std.specs.Prelude.{◌≡◌, ℕ, List, [], false};

use crate::counting::Count;
use crate::shelf::{Failed, Shelf};
use crate::trail::Trail;
use crate::writing::Sink;
use std::fs;
use std::io::Read;
use std::rt::Files;

// Where the bytes come from.
#[derive(Drop)]
enum Source<F, I> {
    Nothing,
    File(F),
    Input(I),
}

/// Real files. The name `-` is standard input. What they hold is not told, and each fault counts
/// for every name. A `more` before any `start` is a fault.
#[derive(Drop)]
pub struct FileShelf<'r, R: Files + Input> {
    rt: &'r R,
    source: Source<R::File, R::Reader>,
    taken: u64,
    ended: bool,
    faults: Count,
    trail: Trail,
}

impl<'r, R: Files + Input> FileShelf<'r, R> {
    /// Nothing is started yet.
    pub fn new(rt: &'r R) -> FileShelf<'r, R>
        ensures begun { (⟦<FileShelf<'r, R> as Shelf>⟧.taken result ≡ 0)
            × (⟦<FileShelf<'r, R> as Shelf>⟧.ended result ≡ false) }
        ensures faults { (name : List ℕ) → ⟦<FileShelf<'r, R> as Shelf>⟧.faults result name ≡ 0 }
        ensures started { ⟦<FileShelf<'r, R> as Shelf>⟧.started result ≡ [] }
        ensures asked { ⟦<FileShelf<'r, R> as Shelf>⟧.asked result ≡ 0 }
    {
        FileShelf {
            rt,
            source: Source::Nothing,
            taken: 0,
            ended: false,
            faults: Count::new(),
            trail: Trail::new(),
        }
    }
}

impl<R: Files + Input> Shelf for FileShelf<'_, R> {
    ghost use Rattle.std.specs.Prelude.{None};

    ghost told = { λ _ _. None };

    ghost left = { λ _. None };

    ghost reads = { λ _ _. Unit {0} };

    ghost taken = { λ shelf. shelf.taken };

    ghost ended = { λ shelf. shelf.ended };

    ghost faults = { λ shelf _. shelf.faults.value };

    ghost started = { λ shelf. shelf.trail.names };

    ghost asked = { λ shelf. shelf.trail.asked };

    ghost counted = { λ shelf _. shelf.faults.within };

    fn start(&mut self, name: &str) -> Result<(), Failed> {
        self.trail = self.trail.start(name);
        if name == "-" {
            self.source = Source::Input(self.rt.reader());
        } else if let Ok(file) = fs::open(self.rt, name) {
            self.source = Source::File(file);
        } else {
            self.faults.raise();
            return Err(Failed);
        }
        self.taken = 0;
        self.ended = false;
        Ok(())
    }

    fn more(&mut self, into: &mut [u8]) -> Result<usize, Failed> {
        self.trail = self.trail.ask();
        let read = match &mut self.source {
            Source::Nothing => None,
            Source::File(file) => file.read(into).ok(),
            Source::Input(input) => input.read(into).ok(),
        };
        let Some(n) = read else {
            self.faults.raise();
            return Err(Failed);
        };
        self.taken = self.taken.saturating_add(n as u64);
        self.ended = self.ended || n == 0;
        Ok(n)
    }
}

/// Standard output. What was written is not told.
#[derive(Drop)]
pub struct OutSink<'r, R: Print> {
    rt: &'r R,
    faults: Count,
}

impl<'r, R: Print> OutSink<'r, R> {
    /// Nothing is written yet.
    pub fn new(rt: &'r R) -> OutSink<'r, R>
        ensures { ⟦<OutSink<'r, R> as Sink>⟧.faults result ≡ 0 }
    {
        OutSink {
            rt,
            faults: Count::new(),
        }
    }
}

impl<R: Print> Sink for OutSink<'_, R> {
    ghost use Rattle.std.specs.Prelude.{None};

    ghost written = { λ _. None };

    ghost faults = { λ sink. sink.faults.value };

    ghost counted = { λ sink. sink.faults.within };

    fn put(&mut self, part: &[u8]) -> Result<usize, Failed> {
        match self.rt.write_some(part) {
            Ok(n) if n > 0 => Ok(n),
            _ => {
                self.faults.raise();
                Err(Failed)
            }
        }
    }
}
