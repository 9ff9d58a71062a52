//! That a site calls its engine as it may, and that its answers are the rule's.
ghost use Rattle.site_history.specs.Lines.{LinesAreRight};

/// Whatever events come to a site, with stops and restarts among them, each engine line of it may come there and its answer is the
/// rule's on the lines before it, if only no attempt begins as a local one while the site is in doubt of it.
pub fn engine_lines_are_right()
    ensures { LinesAreRight }
{}
