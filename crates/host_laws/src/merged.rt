//! The lines of a run's hosts in one list by their stamps. Each law is the contract of a function that does nothing.
ghost use Rattle.host_laws.specs.Merged.{MergedLinesAreRight, MessagesAreCarried};

/// The lines of all hosts by their stamps are the right lines of their commands, and tell what the hosts did.
pub fn merged_lines_are_right()
    ensures { MergedLinesAreRight }
{}

/// No packet is left aside, and over each ring come the first messages that its script lets through, in their order.
pub fn messages_are_carried()
    ensures { MessagesAreCarried }
{}
