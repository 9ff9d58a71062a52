//! What the superseded versions are kept for: a law on the definitions alone, the contract of a function with an empty body.
ghost use Rattle.multiversion_engine.specs.Laws.{GivesTheTableBefore};

/// Where the table keeps the newest version of each key, and the old versions are those that the lines ask for, each unended run finds
/// of each key the value that the committed runs with smaller numbers left.
pub fn each_run_reads_its_version()
    ensures { GivesTheTableBefore }
{}
