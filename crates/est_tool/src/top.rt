//! The top call.
ghost use Rattle.call_files.specs.Seen.{seen, shelved, sent};
ghost use Rattle.est_tool.specs.Result.{IsResult};
ghost use Rattle.call_files.specs.Requests.{IsCommand};
ghost use Rattle.est_tool.specs.inside.Work.{HasReportMade, IsObeyed};

use crate::commands::{
    ExplainFiles, ReplayFiles, check_file, explain_files, print_file, replay_files,
};
use crate::ports::{PortsFiles, ports_files};
use crate::self_run::self_run_file;
use crate::sending::deliver;
use crate::watch::watch_file;
use call_files::status::Status;
use call_files::words::{BadUsage, Command, read_words};
use call_files::{Report, Shelf, Sink, Stop};
use std::alloc::Global;

/// Does what the words ask for: reads the files that they name, and writes one report. The report
/// is made whole before its first byte is written. Where a trace is watched, each answer is written
/// by itself, before more of the trace is asked for.
pub fn run<S: Shelf, K: Sink>(
    alloc: Global,
    words: &[String],
    shelf: &mut S,
    sink: &mut K,
) -> Status
    ensures { IsResult words.now (seen
        (shelved (S.told shelf.old) (S.faults shelf.old) (S.started shelf.old) (S.taken shelf.old))
        (shelved (S.told shelf.new) (S.faults shelf.new) (S.started shelf.new) (S.taken shelf.new)))
        (S.asked shelf.new)
        (sent (K.written sink.old) (K.faults sink.old) (K.written sink.new) (K.faults sink.new))
        result }
{
    match read_words(words) {
        Ok(command) => match command {
            Command::Watch { limits } => {
                watch_file(alloc, shelf, sink, words[1].as_str(), &limits)
            }
            _ => deliver(obey(alloc, words, command, shelf), sink),
        },
        Err(BadUsage) => Status::Usage,
    }
}

// Makes the report of what the words ask for.
fn obey<S: Shelf>(
    alloc: Global,
    words: &[String],
    command: Command,
    shelf: &mut S,
) -> Result<Report, Stop>
    requires asked { IsCommand words.now command }
    requires made { HasReportMade command }
    ensures { IsObeyed words.now (seen
        (shelved (S.told shelf.old) (S.faults shelf.old) (S.started shelf.old) (S.taken shelf.old))
        (shelved (S.told shelf.new) (S.faults shelf.new) (S.started shelf.new) (S.taken shelf.new)))
        result }
{
    match command {
        Command::Check => check_file(alloc, shelf, words[1].as_str()),
        Command::Print => print_file(alloc, shelf, words[1].as_str()),
        Command::Explain { limits } => {
            let files = ExplainFiles {
                specification: words[1].as_str(),
                trace: words[2].as_str(),
            };
            explain_files(alloc, shelf, &files, &limits)
        }
        Command::Replay { limits } => {
            let files = ReplayFiles {
                specification: words[1].as_str(),
                trace: words[2].as_str(),
                explanation: words[3].as_str(),
            };
            replay_files(alloc, shelf, &files, &limits)
        }
        Command::SelfRun { seed, count } => {
            self_run_file(alloc, shelf, words[1].as_str(), seed, count)
        }
        Command::Ports { limits } => {
            let files = PortsFiles {
                specification: words[1].as_str(),
                lists: words[2].as_str(),
            };
            ports_files(alloc, shelf, &files, &limits)
        }
        Command::Watch { .. } => unreachable!(),
    }
}
