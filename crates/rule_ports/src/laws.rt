//! What holds of the ports of every tree, whatever rules it breaks.
ghost use Rattle.rule_ports.specs.PortListLaws.{PortsAreCounted, PortsDiffer, SignalsDiffer};

/// The number of ports is the one that is told of a specification.
#[tactic(auto, using(crate::proofs::Counted::ports_counted))]
pub fn ports_are_counted()
    ensures { PortsAreCounted }
{}

/// No two ports have one name and the same subscripts.
#[tactic(auto, using(crate::proofs::Different::ports_differ))]
pub fn ports_differ()
    ensures { PortsDiffer }
{}

/// No two signals of a port have one name.
#[tactic(auto, using(crate::proofs::Different::signals_differ))]
pub fn signals_differ()
    ensures { SignalsDiffer }
{}
