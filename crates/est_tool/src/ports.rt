//! The command for one trace for each port.
ghost use Rattle.std.specs.Prelude.{[], ◌∷◌};
ghost use Rattle.mean_ports.specs.Merges.{AreAllowedLists};
ghost use Rattle.call_files.specs.declared.file.File.TheVariants as file;
ghost use Rattle.call_files.specs.Seen.{seen, shelved};
ghost use Rattle.call_files.specs.FileTexts.{Holds, OfSpecification};
ghost use Rattle.call_files.specs.Requests.{ports};
ghost use Rattle.est_tool.specs.inside.Searching.{FindsFew};
ghost use Rattle.est_tool.specs.inside.Work.{Gives, IsMergedSo, IsWork, TellsPorts};

use crate::commands::{not_started, start_over};
use crate::search::{PortsSearched, search_ports};
use call_files::est_check::Checked;
use call_files::lists::lists_in;
use call_files::port_report::{ports_report, ports_status};
use call_files::specification::specification_in;
use call_files::{Report, Shelf, Stop};
use est_meaning::run::Limits;
use mean_ports::lists::PortLists;
use rule_ports::ports::Ports;
use std::alloc::Global;

/// The names of the files of a search along one trace for each port.
#[derive(Clone, Copy)]
pub(crate) struct PortsFiles<'n> {
    pub specification: &'n str,
    pub lists: &'n str,
}

/// Searches for an explanation of some merge of lists.
pub(crate) fn ports_files<S: Shelf>(
    alloc: Global,
    shelf: &mut S,
    files: &PortsFiles<'_>,
    limits: &Limits,
) -> Result<Report, Stop>
    ensures { IsWork []
        (ports files.now.specification.now files.now.lists.now
        limits.now.silent limits.now.budget limits.now.statements)
        (seen
        (shelved (S.told shelf.old) (S.faults shelf.old) (S.started shelf.old) (S.taken shelf.old))
        (shelved (S.told shelf.new) (S.faults shelf.new) (S.started shelf.new) (S.taken shelf.new)))
        result }
{
    let checked = specification_in(alloc, shelf, files.specification)?;
    explain_lists(alloc, shelf, files, limits, &checked)
}

// What is left of a search once the specification was read.
fn explain_lists<S: Shelf>(
    alloc: Global,
    shelf: &mut S,
    files: &PortsFiles<'_>,
    limits: &Limits,
    checked: &Checked,
) -> Result<Report, Stop>
    requires { Holds file.Specification (S.told shelf.old files.now.specification.now)
        (OfSpecification checked.now) }
    ensures { IsWork (files.now.specification.now ∷ [])
        (ports files.now.specification.now files.now.lists.now
        limits.now.silent limits.now.budget limits.now.statements)
        (seen
        (shelved (S.told shelf.old) (S.faults shelf.old) (S.started shelf.old) (S.taken shelf.old))
        (shelved (S.told shelf.new) (S.faults shelf.new) (S.started shelf.new) (S.taken shelf.new)))
        result }
{
    let lists = lists_in(alloc, shelf, files.lists, checked)?;
    explained(alloc, checked, &lists, limits)
}

// The report of a search.
fn explained(
    alloc: Global,
    checked: &Checked,
    lists: &PortLists,
    limits: &Limits,
) -> Result<Report, Stop>
    requires { AreAllowedLists checked.now lists.now }
    ensures { Gives (IsMergedSo limits.now checked.now lists.now) result }
{
    let found = search_ports(alloc, checked, lists, limits)?;
    told(alloc, checked.ports(), &found, limits.statements)
}

// The report of what came of a search at these ports.
fn told(alloc: Global, ports: &Ports, found: &PortsSearched, limit: u32) -> Result<Report, Stop>
    requires { FindsFew found.now }
    ensures { Gives (TellsPorts ports.now limit found.now) result }
{
    match found {
        PortsSearched::Found(verdict) => {
            let text = ports_report(alloc, ports, verdict, limit)?;
            Ok(Report {
                status: ports_status(verdict),
                text,
            })
        }
        PortsSearched::Fault(fault) => not_started(alloc, *fault),
        PortsSearched::Limit => start_over(alloc, limit),
    }
}
