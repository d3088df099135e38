//! Files of cases, run line by line.

use crate::cells::Cells;
use crate::expand::expand;
use crate::mistake::Mistake;
use crate::table::Table;
use crate::tally::Tally;
use crate::texts::Texts;
use crate::trial::Trial;
use call_files::Shelf;
use std::alloc::{AllocError, Global};

/// The texts that cases share, and what is told and counted of the cases of a file.
#[derive(Drop)]
pub struct Suite {
    alloc: Global,
    texts: Texts,
    told: Vec<u8>,
    tally: Tally,
}

// A line of a file.
#[derive(Clone, Copy)]
struct Place<'n> {
    file: &'n str,
    number: usize,
}

impl Suite {
    /// No text and no case yet.
    pub fn new(alloc: Global) -> Suite {
        Suite {
            alloc,
            texts: Texts::new(alloc),
            told: Vec::new(alloc),
            tally: Tally::new(),
        }
    }

    /// What is told of the cases that fail in the last file.
    pub fn told(&self) -> &[u8] {
        self.told.as_slice()
    }

    /// Runs the cases of a file, over these files where a case asks for real ones.
    pub fn run_file<S: Shelf>(
        &mut self,
        file: &str,
        lines: &str,
        files: &mut S,
    ) -> Result<Tally, Mistake> {
        self.told.clear();
        self.tally = Tally::new();
        let mut table = Table::new(self.alloc);
        for (number, line) in lines.lines().enumerate() {
            let place = Place {
                file,
                number: number.saturating_add(1),
            };
            self.take_line(place, &mut table, line, files)?;
        }
        Ok(self.tally)
    }

    // Takes a line: runs its case, or keeps what it says for the cases that follow.
    fn take_line<'t, S: Shelf>(
        &mut self,
        place: Place<'_>,
        table: &mut Table<'t>,
        line: &'t str,
        files: &mut S,
    ) -> Result<(), Mistake> {
        let (word, rest) = line.split_once(' ').unwrap_or((line, ""));
        if word == "case" {
            return self.run_row(place, table, rest, files);
        }
        match self.keep(table, word, rest) {
            Ok(()) => Ok(()),
            Err(mistake) => self.note_mistake(place, line, mistake),
        }
    }

    // Runs the case of a row, and notes how it ended.
    fn run_row<S: Shelf>(
        &mut self,
        place: Place<'_>,
        table: &Table<'_>,
        row: &str,
        files: &mut S,
    ) -> Result<(), Mistake> {
        match table.row(row) {
            Ok(cells) => self.run_case(place, cells, files),
            Err(mistake) => self.note_mistake(place, row, mistake),
        }
    }

    // Runs a case, and notes how it ended.
    fn run_case<S: Shelf>(
        &mut self,
        place: Place<'_>,
        cells: Cells<'_>,
        files: &mut S,
    ) -> Result<(), Mistake> {
        let mut seen = Vec::new(self.alloc);
        let trial = Trial {
            alloc: self.alloc,
            texts: &self.texts,
            cells,
        };
        match trial.run(files, &mut seen) {
            Ok(true) => {
                self.tally.note_good();
                Ok(())
            }
            Ok(false) => self.note_failed(place, cells.name, seen.as_slice()),
            Err(mistake) => self.note_mistake(place, cells.name, mistake),
        }
    }

    // Keeps what a line says that is no case.
    fn keep<'t>(
        &mut self,
        table: &mut Table<'t>,
        word: &str,
        rest: &'t str,
    ) -> Result<(), Mistake> {
        match word {
            "#" => Ok(()),
            "" if rest.is_empty() => Ok(()),
            "part" => {
                table.clear();
                Ok(())
            }
            "given" => table.give(rest),
            "columns" => table.set_columns(rest),
            "text" => self.name_text(rest),
            ">" => self.texts.add_line(rest),
            "times" => self.name_repeated_text(rest),
            _ => Err(Mistake::NoSuchLine),
        }
    }

    // Names a text, by `NAME = CELL`, or by `NAME` where its lines follow.
    fn name_text(&mut self, line: &str) -> Result<(), Mistake> {
        let (name, cell) = line.split_once('=').unwrap_or((line, ""));
        let mut bytes = Vec::new(self.alloc);
        match expand(&self.texts, cell.trim(), &mut bytes) {
            Ok(()) => Ok(self.texts.add(self.alloc, name.trim(), bytes.as_slice())?),
            Err(mistake) => Err(mistake),
        }
    }

    // Names a text that stands several times in a row, by `NAME = COUNT CELL`.
    fn name_repeated_text(&mut self, line: &str) -> Result<(), Mistake> {
        let Some((name, rest)) = line.split_once('=') else {
            return Err(Mistake::NoEquals);
        };
        let (count, cell) = rest.trim().split_once(' ').unwrap_or((rest, ""));
        let Ok(count) = count.parse::<u32>() else {
            return Err(Mistake::BadNumber);
        };
        let mut once = Vec::new(self.alloc);
        expand(&self.texts, cell.trim(), &mut once)?;
        self.add_repeated(name.trim(), once.as_slice(), count)
    }

    // Names so many of one text in a row.
    fn add_repeated(&mut self, name: &str, once: &[u8], count: u32) -> Result<(), Mistake> {
        let mut bytes = Vec::new(self.alloc);
        for _ in 0..count {
            bytes.extend_from_slice(once)?;
        }
        Ok(self.texts.add(self.alloc, name, bytes.as_slice())?)
    }

    // Notes a line that can not be taken, or a case that can not be run.
    fn note_mistake(
        &mut self,
        place: Place<'_>,
        what: &str,
        mistake: Mistake,
    ) -> Result<(), Mistake> {
        self.note_failed(place, what, b"")?;
        self.told.extend_from_slice(b"  ")?;
        self.told.extend_from_slice(mistake.text().as_bytes())?;
        Ok(self.told.push(b'\n')?)
    }

    // Notes a case that fails, and tells what was expected and what came.
    fn note_failed(&mut self, place: Place<'_>, what: &str, seen: &[u8]) -> Result<(), Mistake> {
        self.tally.note_failed();
        let line = place.line(self.alloc, what)?;
        self.told.extend_from_slice(line.as_bytes())?;
        Ok(self.told.extend_from_slice(seen)?)
    }
}

impl Place<'_> {
    // The line that names a case that fails.
    fn line(self, alloc: Global, what: &str) -> Result<String, AllocError> {
        let file = self.file;
        let number = self.number;
        format!(in alloc; "failed: {file}, line {number}: {what}\n")
    }
}
