//! The lines that are answered.
ghost use Rattle.std.specs.Prelude.{◌≡◌, ◌+◌, ◌-◌, ◌<◌, ◌^◌, ◌++◌, codes, IfOk, string_bytes};
ghost use Rattle.std.specs.Fmt.{decimal};
ghost use Rattle.call_files.specs.ReportLines.{line_of};
ghost use Rattle.call_watch.specs.Answers.{Watch, event_line, finish_line, watched_status};
ghost use Rattle.call_watch.specs.Answers.{over_watch_line, over_limit_line, possible_line};

use call_files::status::Status;
use est_meaning::run::Limits;
use mean_watch::watched::Watched;
use std::alloc::{AllocError, Global};

/// The answer to the event of this number.
pub fn event_report(
    alloc: Global,
    answer: Watched,
    number: u32,
    limits: &Limits,
) -> Result<String, AllocError>
    ensures { IfOk result (λ line. (w : Watch) → w.budget ≡ limits.now.budget
        → w.setup.limit ≡ limits.now.statements
        → string_bytes line ≡ event_line w number answer) }
{
    match answer {
        Watched::Possible => possible(alloc, number),
        Watched::Impossible => refused_event(alloc, number),
        Watched::OverFirings => over_firings(alloc, limits.budget),
        Watched::OverAction => over_limit(alloc, limits.statements, number),
    }
}

/// The answer at the end of so many events.
pub fn finish_report(
    alloc: Global,
    answer: Watched,
    events: u32,
    limits: &Limits,
) -> Result<String, AllocError>
    requires { events < 2 ^ 32 - 1 }
    ensures { IfOk result (λ line. (w : Watch) → w.budget ≡ limits.now.budget
        → w.setup.limit ≡ limits.now.statements
        → string_bytes line ≡ finish_line w events answer) }
{
    match answer {
        Watched::Possible => accepted(alloc, events),
        Watched::Impossible => refused_end(alloc, events),
        Watched::OverFirings => over_firings(alloc, limits.budget),
        Watched::OverAction => over_limit(alloc, limits.statements, events + 1),
    }
}

/// The status of an answer.
pub fn watched_status(answer: Watched) -> Status
    ensures { result ≡ watched_status answer }
{
    match answer {
        Watched::Possible => Status::Fine,
        Watched::Impossible => Status::Refused,
        Watched::OverFirings => Status::OverBudget,
        Watched::OverAction => Status::OverBudget,
    }
}

// The line of an event that some run yields.
fn possible(alloc: Global, number: u32) -> Result<String, AllocError>
    ensures { IfOk result (λ line. string_bytes line ≡ possible_line number) }
{
    format!(in alloc; "possible {number}\n")
}

// The line of an event that no run yields.
fn refused_event(alloc: Global, number: u32) -> Result<String, AllocError>
    ensures { IfOk result (λ line. string_bytes line
        ≡ line_of (codes "refused at event " ++ decimal number)) }
{
    format!(in alloc; "refused at event {number}\n")
}

// The line of a budget that is used up.
fn over_firings(alloc: Global, budget: u32) -> Result<String, AllocError>
    ensures { IfOk result (λ line. string_bytes line ≡ over_watch_line budget) }
{
    format!(in alloc; "over budget: {budget} firings tried\n")
}

// The line of a limit that something passes.
fn over_limit(alloc: Global, limit: u32, number: u32) -> Result<String, AllocError>
    ensures { IfOk result (λ line. string_bytes line ≡ over_limit_line limit number) }
{
    format!(in alloc; "over budget: limit {limit} at event {number}\n")
}

// The line of events that some run explains.
fn accepted(alloc: Global, events: u32) -> Result<String, AllocError>
    ensures { IfOk result (λ line. string_bytes line
        ≡ line_of (codes "accepted: " ++ decimal events ++ codes " events")) }
{
    format!(in alloc; "accepted: {events} events\n")
}

// The line of events that no run explains.
fn refused_end(alloc: Global, events: u32) -> Result<String, AllocError>
    ensures { IfOk result (λ line. string_bytes line
        ≡ line_of (codes "refused at the end after " ++ decimal events ++ codes " events")) }
{
    format!(in alloc; "refused at the end after {events} events\n")
}
