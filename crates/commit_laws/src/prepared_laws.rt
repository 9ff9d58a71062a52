//! What a commit finds: the decision is commit only if all participants voted yes, and a yes vote is sent only after its prepare record
//! is forced (Mohan, Lindsay, Obermarck 1986).
ghost use Rattle.commit_laws.specs.Prepared.{CommitDecisionsFindAllPrepared, CommitRecordsFindAllPrepared};

/// From the line on in which the coordinator decides that an attempt commits, a Prepared record of the attempt stands on the disk of each
/// participant, and its bytes are synced, so it stays for ever. The same holds wherever a Commit of the attempt is kept, also where
/// the line that appended it was stopped.
pub fn commits_find_all_prepared()
    ensures decisions { CommitDecisionsFindAllPrepared }
    ensures records { CommitRecordsFindAllPrepared }
{}
