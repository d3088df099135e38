//! The cases of the program: each is run through the one call of the program, over files and an
//! output in memory or over real files. Those that fail are printed, and how many there are.
#![tactic(auto)]

mod cells;
mod expand;
mod mistake;
mod plan;
mod replace;
mod suite;
mod table;
mod tally;
mod texts;
mod tokens;
mod trial;

use crate::mistake::Mistake;
use crate::suite::Suite;
use crate::tally::Tally;
use call_files::file::File;
use call_files::{FileShelf, OutSink, Shelf, Sink, read_whole, write_whole};
use std::alloc::Global;
use std::process::ExitCode;
use std::str;

// The files of cases, in the order in which they are run. The first has the texts that all share.
const FILES: [&str; 32] = [
    "texts.cases",
    "words.cases",
    "tokens.cases",
    "grammar.cases",
    "whole.cases",
    "rules.cases",
    "declarations.cases",
    "expressions.cases",
    "statements.cases",
    "modules.cases",
    "specifications.cases",
    "profile.cases",
    "prints.cases",
    "traces.cases",
    "values.cases",
    "ports.cases",
    "explanations.cases",
    "replays.cases",
    "searches.cases",
    "seen.cases",
    "quiet.cases",
    "runs.cases",
    "blocks.cases",
    "limits.cases",
    "results.cases",
    "hosts.cases",
    "stations.cases",
    "servers.cases",
    "faults.cases",
    "made.cases",
    "merges.cases",
    "watches.cases",
];

// Runs the cases, and ends with 0 where none fails.
fn main(rt: HostRuntime) -> ExitCode {
    let mut files = FileShelf::new(&rt);
    let mut out = OutSink::new(&rt);
    match run_files(rt.alloc(), &mut files, &mut out) {
        Ok(tally) if tally.failed == 0 => ExitCode::from(0),
        Ok(_) => ExitCode::from(1),
        Err(mistake) => {
            let _ = write_whole(&mut out, mistake.text().as_bytes());
            ExitCode::from(1)
        }
    }
}

// Runs all files of cases, and writes a line for each and one for all of them.
fn run_files<S: Shelf, K: Sink>(
    alloc: Global,
    files: &mut S,
    out: &mut K,
) -> Result<Tally, Mistake> {
    let mut suite = Suite::new(alloc);
    let mut all = Tally::new();
    match run_each(alloc, &mut suite, files, out, &mut all) {
        Ok(()) => write_tally(alloc, "all", all, out).map(|_| all),
        Err(mistake) => Err(mistake),
    }
}

// Runs the files one after another, and counts their cases.
fn run_each<S: Shelf, K: Sink>(
    alloc: Global,
    suite: &mut Suite,
    files: &mut S,
    out: &mut K,
    all: &mut Tally,
) -> Result<(), Mistake> {
    for file in FILES.iter() {
        all.add(run_and_tell(alloc, file, suite, files, out)?);
    }
    Ok(())
}

// Runs one file of cases, and writes which fail and how many there are.
fn run_and_tell<S: Shelf, K: Sink>(
    alloc: Global,
    file: &str,
    suite: &mut Suite,
    files: &mut S,
    out: &mut K,
) -> Result<Tally, Mistake> {
    let tally = run_file(alloc, file, suite, files)?;
    write(out, suite.told())?;
    write_tally(alloc, file, tally, out)?;
    Ok(tally)
}

// Runs one file of cases, which is no longer than a specification may be.
fn run_file<S: Shelf>(
    alloc: Global,
    file: &str,
    suite: &mut Suite,
    files: &mut S,
) -> Result<Tally, Mistake> {
    match read_whole(alloc, files, file, File::Specification.limit()) {
        Ok(bytes) => match str::from_utf8(bytes.as_slice()) {
            Ok(lines) => suite.run_file(file, lines, files),
            Err(_) => Err(Mistake::NotUtf8),
        },
        Err(_) => Err(Mistake::Unreadable),
    }
}

// Writes how many cases there were, and how many of them failed.
fn write_tally<K: Sink>(alloc: Global, of: &str, tally: Tally, out: &mut K) -> Result<(), Mistake> {
    let line = tally.line(alloc, of)?;
    write(out, line.as_bytes())
}

// Writes all the bytes.
fn write<K: Sink>(out: &mut K, bytes: &[u8]) -> Result<(), Mistake> {
    write_whole(out, bytes).map_err(|_| Mistake::Unwritable)
}
