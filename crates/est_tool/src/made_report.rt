//! What a call writes.
ghost use Rattle.call_files.specs.Seen.{seen, shelved};
ghost use Rattle.est_tool.specs.inside.Work.{Gives};
ghost use Rattle.est_tool.specs.inside.TraceWork.{IsToldOf, IsTraceWork, Tells};

use crate::made::make;
use crate::made_words::Asked;
use call_files::est_check::Checked;
use call_files::est_trace::written_trace::write_trace;
use call_files::search_report::{no_start_report, over_start_report};
use call_files::self_run_report::limit_report;
use call_files::specification::specification_in;
use call_files::status::Status;
use call_files::words::USUAL;
use call_files::{Report, Shelf, Stop};
use rule_ports::ports::Ports;
use run_make::made::Made;
use std::alloc::Global;

/// Makes the trace that is asked for, and its text, or the report of why there is none.
pub fn made_report<S: Shelf>(
    alloc: Global,
    shelf: &mut S,
    asked: &Asked<'_>,
) -> Result<Report, Stop>
    ensures { IsTraceWork asked.now.specification.now asked.now.seed asked.now.count (seen
        (shelved (S.told shelf.old) (S.faults shelf.old) (S.started shelf.old) (S.taken shelf.old))
        (shelved (S.told shelf.new) (S.faults shelf.new) (S.started shelf.new) (S.taken shelf.new)))
        result }
{
    let checked = specification_in(alloc, shelf, asked.specification)?;
    report_of(alloc, &checked, asked.seed, asked.count)
}

// What is written of a specification, a seed and a number of events.
fn report_of(alloc: Global, checked: &Checked, seed: u64, count: u32) -> Result<Report, Stop>
    ensures { Gives (IsToldOf checked.now seed count) result }
{
    let made = make(alloc, checked, seed, count, &USUAL)?;
    told(alloc, checked.ports(), &made)
}

// What is written of what was made.
fn told(alloc: Global, ports: &Ports, made: &Made) -> Result<Report, Stop>
    ensures { Gives (Tells ports.now made.now) result }
{
    match made {
        Made::Trace { trace, run: _ } => {
            let text = write_trace(alloc, ports, trace)?;
            Ok(Report {
                status: Status::Fine,
                text,
            })
        }
        Made::NoStart(fault) => {
            let text = no_start_report(alloc, *fault)?;
            Ok(Report {
                status: Status::NoStart,
                text: text.into_bytes(),
            })
        }
        Made::StartLimit => {
            let text = over_start_report(alloc, USUAL.statements)?;
            Ok(Report {
                status: Status::OverBudget,
                text: text.into_bytes(),
            })
        }
        Made::Limit { run } => {
            let text = limit_report(alloc, run.as_slice().len())?;
            Ok(Report {
                status: Status::OverBudget,
                text: text.into_bytes(),
            })
        }
    }
}
