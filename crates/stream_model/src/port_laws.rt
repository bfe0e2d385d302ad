//! What holds of operators by their ports.
ghost use Rattle.stream_model.specs.PortLaws.{ByPortsLaw, PortEndLaw, SinglePortsLaw, WaitingLaw};

/// What an event of an operator causes is what it causes at its port, where each port has a single
/// connection, after what came by ports. A final marker for whose port another is still to come causes
/// nothing. A port has ended exactly where the final marker has come on each of its connections.
pub fn ports_law()
    ensures by_ports { ByPortsLaw }
    ensures waiting { WaitingLaw }
    ensures ends { PortEndLaw }
    ensures single { SinglePortsLaw }
{}
