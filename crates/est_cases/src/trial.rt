//! One case, run and compared with what it expects.

use crate::cells::Cells;
use crate::expand::expand;
use crate::mistake::Mistake;
use crate::plan::Plan;
use crate::replace::replaced;
use crate::texts::Texts;
use crate::tokens::listed_tokens;
use call_files::file::File;
use call_files::status::Status;
use call_files::{MemShelf, MemSink, Shelf};
use est_tool::top::run;
use std::alloc::Global;

// How many bytes a call takes where a specification is printed, and how many there is room for.
const PIECES: usize = 65_536;

const ROOM: usize = 8_388_608;

/// A case, and the texts that its cells name.
#[derive(Clone, Copy)]
pub struct Trial<'t, 'c> {
    pub alloc: Global,
    pub texts: &'t Texts,
    pub cells: Cells<'c>,
}

impl Trial<'_, '_> {
    /// Runs the case, over these files where it asks for real ones. Answers whether it holds, and
    /// tells what came where its expectation is not met.
    pub fn run<S: Shelf>(&self, files: &mut S, told: &mut Vec<u8>) -> Result<bool, Mistake> {
        let is_met = match self.cells.tokens {
            Some(text) => self.lists(text, told)?,
            None => self.calls(files, told)?,
        };
        match self.cells.expectation {
            None => Ok(is_met),
            Some("wrong") => refuted(is_met, told),
            Some(_) => Err(Mistake::BadExpectation),
        }
    }

    // Whether a text has the tokens that are expected.
    fn lists(&self, text: &str, told: &mut Vec<u8>) -> Result<bool, Mistake> {
        let expected = self.expected()?;
        let text = self.expanded(text)?;
        let list = listed_tokens(self.alloc, text.as_slice())?;
        if list.as_str() == expected {
            Ok(true)
        } else {
            differ(expected, b"", list.as_bytes(), told)
        }
    }

    // Whether the calls of the program end as expected.
    fn calls<S: Shelf>(&self, files: &mut S, told: &mut Vec<u8>) -> Result<bool, Mistake> {
        let words = self.words()?;
        match self.cells.shelf {
            Some("files") => self.both_calls(words.as_slice(), files, told),
            plan => self.calls_in_memory(words.as_slice(), Plan::read(plan)?, told),
        }
    }

    // The same over a shelf in memory.
    fn calls_in_memory(
        &self,
        words: &[String],
        plan: Plan,
        told: &mut Vec<u8>,
    ) -> Result<bool, Mistake> {
        if plan.pieces == 0 {
            return Err(Mistake::BadPlan);
        }
        let mut shelf = MemShelf::new(self.alloc, plan.pieces, &[plan.fails])?;
        self.fill(&mut shelf)?;
        let holds = self.both_calls(words, &mut shelf, told)?;
        if holds && self.is_good_check(words) {
            return self.prints(told);
        }
        match self.cells.replayed {
            Some(expected) => {
                let is_replayed = self.replays(words, &mut shelf, expected, told)?;
                Ok(holds && is_replayed)
            }
            None => Ok(holds),
        }
    }

    // Whether the specification is checked, and good.
    fn is_good_check(&self, words: &[String]) -> bool {
        let [command, file] = words else {
            return false;
        };
        let is_check = command.as_str() == "check" && file.as_str() == "a.est";
        is_check && self.cells.gives.unwrap_or("").starts_with("0 ")
    }

    // Whether what is printed of the specification is printed again as the same bytes, and a check of
    // it ends as expected. A text that is longer than one that is read is left out.
    fn prints(&self, told: &mut Vec<u8>) -> Result<bool, Mistake> {
        let mut shelf = MemShelf::new(self.alloc, PIECES, &[])?;
        self.fill(&mut shelf)?;
        let text = self.printed(&mut shelf)?;
        if text.written().len() > File::Specification.limit() as usize {
            return Ok(true);
        }
        shelf.add("a.est", text.written())?;
        let again = self.printed(&mut shelf)?;
        if again.written() != text.written() {
            return differ("what was printed", b"", again.written(), told);
        }
        let check = self.words_of("check")?;
        self.call(check.as_slice(), &mut shelf, self.expected()?, told)
    }

    // What is printed of the specification.
    fn printed(&self, shelf: &mut MemShelf) -> Result<MemSink, Mistake> {
        let words = self.words_of("print")?;
        let mut sink = MemSink::new(self.alloc, PIECES, &[], ROOM)?;
        match run(self.alloc, words.as_slice(), shelf, &mut sink) {
            Status::Fine => Ok(sink),
            _ => Err(Mistake::NotPrinted),
        }
    }

    // The words of a command for the specification alone.
    fn words_of(&self, command: &str) -> Result<Vec<String>, Mistake> {
        let mut words = Vec::new(self.alloc);
        for word in [command, "a.est"] {
            words.push(String::from_str(self.alloc, word)?)?;
        }
        Ok(words)
    }

    // Whether a replay of the report that is expected ends as expected.
    fn replays(
        &self,
        words: &[String],
        shelf: &mut MemShelf,
        expected: &str,
        told: &mut Vec<u8>,
    ) -> Result<bool, Mistake> {
        let given = self.expected()?;
        let (_, report) = given.split_once(' ').unwrap_or((given, "\\c"));
        let report = self.report(report)?;
        shelf.add("c", report.as_slice())?;
        let words = self.replay_words(words)?;
        self.call(words.as_slice(), shelf, expected, told)
    }

    // The words of a replay with the limits of a search, where it has some.
    fn replay_words(&self, words: &[String]) -> Result<Vec<String>, Mistake> {
        let mut replay = Vec::new(self.alloc);
        for word in ["replay", "a.est", "b", "c"] {
            replay.push(String::from_str(self.alloc, word)?)?;
        }
        if let [_, _, _, silent, _, statements] = words {
            replay.push(silent.clone()?)?;
            replay.push(statements.clone()?)?;
        }
        Ok(replay)
    }

    // One call, and where another one is expected the same call once more.
    fn both_calls<S: Shelf>(
        &self,
        words: &[String],
        shelf: &mut S,
        told: &mut Vec<u8>,
    ) -> Result<bool, Mistake> {
        let first = self.call(words, shelf, self.expected()?, told)?;
        match self.cells.then {
            Some(expected) => {
                let second = self.call(words, shelf, expected, told)?;
                Ok(first && second)
            }
            None => Ok(first),
        }
    }

    // Calls the program once.
    fn call<S: Shelf>(
        &self,
        words: &[String],
        shelf: &mut S,
        expected: &str,
        told: &mut Vec<u8>,
    ) -> Result<bool, Mistake> {
        let plan = Plan::read(self.cells.sink)?;
        if plan.pieces == 0 {
            return Err(Mistake::BadPlan);
        }
        let mut sink = MemSink::new(self.alloc, plan.pieces, &[plan.fails], plan.room)?;
        let status = run(self.alloc, words, shelf, &mut sink);
        self.compare(expected, status.code(), sink.written(), told)
    }

    // Whether a status and the bytes that were written are those that are expected.
    fn compare(
        &self,
        expected: &str,
        code: u8,
        written: &[u8],
        told: &mut Vec<u8>,
    ) -> Result<bool, Mistake> {
        let (status, report) = expected.split_once(' ').unwrap_or((expected, "\\c"));
        if status.parse::<u8>() == Ok(code) && self.is_report(report, written)? {
            return Ok(true);
        }
        let code = format!(in self.alloc; "{code} ")?;
        differ(expected, code.as_bytes(), written, told)
    }

    // Whether these bytes are those of a report.
    fn is_report(&self, report: &str, written: &[u8]) -> Result<bool, Mistake> {
        let report = self.report(report)?;
        Ok(report.as_slice() == written)
    }

    // The bytes of a report: its line with the line feed, and without it where it ends in `\c`.
    fn report(&self, report: &str) -> Result<Vec<u8>, Mistake> {
        match report.strip_suffix("\\c") {
            Some(part) => self.expanded(part),
            None => {
                let mut line = self.expanded(report)?;
                line.push(b'\n')?;
                Ok(line)
            }
        }
    }

    // What the first call is to give.
    fn expected(&self) -> Result<&str, Mistake> {
        self.cells.gives.ok_or(Mistake::NothingExpected)
    }

    // The words of the call, between blanks.
    fn words(&self) -> Result<Vec<String>, Mistake> {
        let mut words = Vec::new(self.alloc);
        for cell in self.cells.words.unwrap_or("").split_whitespace() {
            let word = self.expanded(cell)?;
            match String::from_utf8(word) {
                Ok(word) => words.push(word)?,
                Err(_) => return Err(Mistake::NotUtf8),
            }
        }
        Ok(words)
    }

    // Puts the files of the case on a shelf.
    fn fill(&self, shelf: &mut MemShelf) -> Result<(), Mistake> {
        match self.cells.specification {
            Some(cell) => self.put_specification(shelf, cell)?,
            None if self.cells.old.is_some() => return Err(Mistake::NoSpecification),
            None => (),
        }
        if let Some(cell) = self.cells.trace {
            let text = self.expanded(cell)?;
            shelf.add("b", text.as_slice())?;
        }
        if let Some(cell) = self.cells.explanation {
            let text = self.expanded(cell)?;
            shelf.add("c", text.as_slice())?;
        }
        if let Some(cell) = self.cells.input {
            let text = self.expanded(cell)?;
            shelf.add("-", text.as_slice())?;
        }
        Ok(())
    }

    // Puts the specification there; where a part is replaced, the changed text takes its place.
    fn put_specification(&self, shelf: &mut MemShelf, cell: &str) -> Result<(), Mistake> {
        let text = self.expanded(cell)?;
        shelf.add("a.est", text.as_slice())?;
        match self.cells.old {
            Some(old) => self.replace_part(shelf, text.as_slice(), old),
            None => Ok(()),
        }
    }

    // Puts the specification there with one part of it replaced.
    fn replace_part(&self, shelf: &mut MemShelf, text: &[u8], old: &str) -> Result<(), Mistake> {
        let old = self.expanded(old)?;
        let new = self.expanded(self.cells.new.unwrap_or(""))?;
        let text = replaced(self.alloc, text, old.as_slice(), new.as_slice())?;
        Ok(shelf.add("a.est", text.as_slice())?)
    }

    // What a cell stands for.
    fn expanded(&self, cell: &str) -> Result<Vec<u8>, Mistake> {
        let mut text = Vec::new(self.alloc);
        expand(self.texts, cell, &mut text)?;
        Ok(text)
    }
}

// Whether a wrong expectation is not met, as it is to be.
fn refuted(is_met: bool, told: &mut Vec<u8>) -> Result<bool, Mistake> {
    if is_met {
        told.extend_from_slice(b"  met, though it is marked as wrong\n")?;
    }
    Ok(!is_met)
}

// Tells what was expected and what came, which is another status or other bytes.
fn differ(expected: &str, status: &[u8], came: &[u8], told: &mut Vec<u8>) -> Result<bool, Mistake> {
    told.extend_from_slice(b"  expected ")?;
    told.extend_from_slice(expected.as_bytes())?;
    told.extend_from_slice(b"\n  came ")?;
    told.extend_from_slice(status)?;
    told.extend_from_slice(came)?;
    told.push(b'\n')?;
    Ok(false)
}
