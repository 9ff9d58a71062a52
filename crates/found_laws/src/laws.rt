//! How a session begins that goes on from usable disks, and how its sites go on.
ghost use Rattle.found_laws.specs.FoundLines.{FoundLinesAreFew, FoundLinesFit};
ghost use Rattle.found_laws.specs.FoundSessions.{UsableSessionsBegin, UsableSessionsGoOn};

/// A session that goes on from usable disks, whoever left them, begins with the pasts that its journals stand for: that of the coordinator, and at each
/// declared site that of one of the journals.
pub fn usable_sessions_begin()
    ensures { UsableSessionsBegin }
{}

/// And each declared site's past in it is what sorted events make of a journal that was found there, behind whatever commands, halts and trips included:
/// so all laws of such pasts hold of it.
pub fn usable_sessions_go_on()
    ensures { UsableSessionsGoOn }
{}

/// A session that goes on from usable disks begins at its sites with few lines: one for each of at most eight sites, and one for each attempt that a record
/// names, at the least 5 bytes of its payload. So they are fewer than 2^27 where the payloads of no journal have more than 67,108,864 bytes.
pub fn found_lines_are_few()
    ensures few { FoundLinesAreFew }
    ensures fits { FoundLinesFit }
{}
