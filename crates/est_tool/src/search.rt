//! The searches for an explanation, from the start of a specification.
ghost use Rattle.std.specs.Prelude.{IfOk};
ghost use Rattle.est_meaning.specs.AllowedEvents.{IsAllowedTrace};
ghost use Rattle.mean_ports.specs.Merges.{AreAllowedLists};
ghost use Rattle.est_tool.specs.inside.Searching.{FindsFew, IsPortsSearched, IsSearched};

use call_files::est_check::Checked;
use est_meaning::answers::Started;
use est_meaning::mean_blocks::fault::BlockFault;
use est_meaning::run::Limits;
use est_meaning::trace::Trace;
use est_ports::explain::explain_ports;
use est_replay::PlainWorld;
use est_search::explain::explain;
use est_search::verdict::Verdict;
use mean_ports::lists::PortLists;
use mean_ports::verdict::PortsVerdict;
use std::alloc::{AllocError, Global};

/// What came of a search: a verdict, or, of a start that is not ready, a fault or a passed limit.
#[derive(Drop)]
pub enum Searched {
    Found(Verdict),
    Fault(BlockFault),
    Limit,
}

/// Searches for a run of a checked specification that explains a trace.
pub(crate) fn search(
    alloc: Global,
    checked: &Checked,
    trace: &Trace,
    limits: &Limits,
) -> Result<Searched, AllocError>
    requires { IsAllowedTrace checked.now trace.now }
    ensures { IfOk result (IsSearched limits.now checked.now trace.now) }
{
    let started = PlainWorld::start(alloc, checked, limits.statements)?;
    match started {
        Started::Fault(fault) => Ok(Searched::Fault(fault)),
        Started::Limit => Ok(Searched::Limit),
        Started::Ready { world, outs } => {
            let mut world = world;
            let verdict = explain(alloc, &mut world, outs.as_slice(), trace, limits)?;
            Ok(Searched::Found(verdict))
        }
    }
}

/// What came of a search along one trace for each port: a verdict, or, of a start that is not ready, a
/// fault or a passed limit.
#[derive(Drop)]
pub enum PortsSearched {
    Found(PortsVerdict),
    Fault(BlockFault),
    Limit,
}

/// Searches for a run of a checked specification that explains some merge of the lists.
pub(crate) fn search_ports(
    alloc: Global,
    checked: &Checked,
    lists: &PortLists,
    limits: &Limits,
) -> Result<PortsSearched, AllocError>
    requires { AreAllowedLists checked.now lists.now }
    ensures found { IfOk result (IsPortsSearched limits.now checked.now lists.now) }
    ensures few { IfOk result FindsFew }
{
    let started = PlainWorld::start(alloc, checked, limits.statements)?;
    match started {
        Started::Fault(fault) => Ok(PortsSearched::Fault(fault)),
        Started::Limit => Ok(PortsSearched::Limit),
        Started::Ready { world, outs } => {
            let mut world = world;
            let verdict = explain_ports(alloc, &mut world, outs.as_slice(), lists, limits)?;
            Ok(PortsSearched::Found(verdict))
        }
    }
}
