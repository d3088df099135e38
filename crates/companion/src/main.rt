//! The second program, for what is no check, search or replay: takes the words, makes the files and
//! the output of the machine, and makes the call that the first word names.
#![tactic(auto)]

use est_advice::call::advise;
use est_show::list::list;
use est_show::top::show;
use est_tool::call_files::status::Status;
use est_tool::call_files::{FileShelf, OutSink};
use est_tool::made_trace::write_made;
use std::process::ExitCode;
use std::rt::{Env, Files};
use std::{env, io};

// The words after the name of the program.
fn words<R: Env + AllocGlobal>(rt: &R) -> io::Result<Vec<String>> {
    Ok(env::args(rt)?.skip(1).collect(rt.alloc())?)
}

// Whether a word asks for advice.
fn is_advice(command: &str) -> bool {
    command == "advise" || command == "next" || command == "warn"
}

// Does what the first word names.
fn obey<R: Env + AllocGlobal + Files + Input + Print>(rt: &R, words: &[String]) -> Status {
    match words {
        [command, ..] if command.as_str() == "trace" => write_made(
            rt.alloc(),
            words,
            &mut FileShelf::new(rt),
            &mut OutSink::new(rt),
        ),
        [command, ..] if command.as_str() == "show" || command.as_str() == "chart" => show(
            rt.alloc(),
            words,
            &mut FileShelf::new(rt),
            &mut OutSink::new(rt),
        ),
        [command, ..] if command.as_str() == "list" => list(
            rt.alloc(),
            words,
            &mut FileShelf::new(rt),
            &mut OutSink::new(rt),
        ),
        [command, ..] if is_advice(command.as_str()) => advise(
            rt.alloc(),
            words,
            &mut FileShelf::new(rt),
            &mut OutSink::new(rt),
        ),
        _ => Status::Usage,
    }
}

// A word that is no text is no word of the program.
fn answered<R: Env + AllocGlobal + Files + Input + Print>(rt: &R) -> Status {
    match words(rt) {
        Ok(words) => obey(rt, words.as_slice()),
        Err(error) if error.kind() == io::ErrorKind::OutOfMemory => Status::OutOfMemory,
        Err(_) => Status::Usage,
    }
}

fn main(rt: HostRuntime) -> ExitCode {
    ExitCode::from(answered(&rt).code())
}
