//! What holds of the ports of every tree, whatever rules it breaks.
ghost use Rattle.est_trace.specs.PortNameLaws.{PortsAreGood};

/// Ports are found by their names and subscripts.
pub fn ports_are_good()
    ensures { PortsAreGood }
{}
