//! The program: takes the words, makes the files and the output of the machine, and calls `run`.
#![tactic(auto)]

use est_tool::call_files::status::Status;
use est_tool::call_files::{FileShelf, OutSink};
use est_tool::top::run;
use std::process::ExitCode;
use std::rt::{Env, Files};
use std::{env, io};

// The words after the name of the program.
fn words<R: Env + AllocGlobal>(rt: &R) -> io::Result<Vec<String>> {
    Ok(env::args(rt)?.skip(1).collect(rt.alloc())?)
}

// A word that is no text is no word of the program.
fn answered<R: Env + AllocGlobal + Files + Input + Print>(rt: &R) -> Status {
    match words(rt) {
        Ok(words) => run(
            rt.alloc(),
            words.as_slice(),
            &mut FileShelf::new(rt),
            &mut OutSink::new(rt),
        ),
        Err(error) if error.kind() == io::ErrorKind::OutOfMemory => Status::OutOfMemory,
        Err(_) => Status::Usage,
    }
}

fn main(rt: HostRuntime) -> ExitCode {
    ExitCode::from(answered(&rt).code())
}
