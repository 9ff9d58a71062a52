//! When the hosts arm scripted stops. The law is the contract of a function that does nothing.
ghost use Rattle.host_laws.specs.Stops.{StopsAreArmed};

/// Behind each line of an actor at which no trip of that actor is in force, its next line arms the next of its stops that is left.
pub fn stops_are_armed()
    ensures { StopsAreArmed }
{}
