//! What the marks of a site rest on.
ghost use Rattle.session_report.specs.Marks.{LinesMarkOne};

/// Whatever events come to a site, over all its stops, restarts and Checkpoints: a line of it adds one mark exactly where its journal grew and
/// the newest record there is a Local or a Prepared one. Such a record is forced in the line that appends it, so no later line loses it.
pub fn lines_mark_one()
    ensures { LinesMarkOne }
{}
