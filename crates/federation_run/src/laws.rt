//! The laws on the histories of hosts that a run rests on.
ghost use Rattle.host_laws.specs.Merged.{MergedLinesAreRight, MessagesAreCarried};
ghost use Rattle.host_laws.specs.Stops.{StopsAreArmed};

use host_laws::{merged_lines_are_right, messages_are_carried, stops_are_armed};

/// The lines of all hosts by their stamps are right, over each ring come the first messages that its script lets through, and scripted stops
/// are armed.
pub(crate) fn laws_hold()
    ensures right { MergedLinesAreRight }
    ensures carried { MessagesAreCarried }
    ensures armed { StopsAreArmed }
{
    merged_lines_are_right();
    messages_are_carried();
    stops_are_armed();
}
