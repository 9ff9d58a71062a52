//! The words that the program is called with.
ghost use Rattle.std.specs.Prelude.{◌≡◌, is_some, IfSome, map, string_bytes};
ghost use Rattle.mdb_top.specs.Verdicts as verdicts;
ghost use Rattle.mdb_top.specs.Verdicts.{CanBeDone, asked_by, command_of as commands};

use crate::made::made_by;
use session_outputs::Making;

/// What the words ask for.
#[derive(Clone, Copy, Debug, PartialEq, Eq)]
pub(crate) enum Job {
    /// A scenario's commands are carried out in their order.
    Replay,
    /// A scenario runs in threads.
    Run,
    /// A made scenario does.
    Make(Making),
    /// A printed run is compared with its scenario.
    Audit,
    /// A session goes on from the journals on its disks.
    Resume,
}

/// What the words ask for: `replay`, `run` or `audit` alone, `make NUMBER SITES TRANSACTIONS`, `store FOLDER`, which is a replay, or
/// `resume FOLDER`. Other words are no command.
pub(crate) fn job_of(words: &[String]) -> Option<Job>
    ensures exact { result ≡ asked_by (map string_bytes words.now) }
    ensures doable { IfSome result CanBeDone }
{
    match job_of_folder(words) {
        Some(job) => Some(job),
        None => command_of(words),
    }
}

/// What a word before the name of a folder asks for.
fn folder_job(word: &str) -> Option<Job>
    ensures exact { result ≡ verdicts.folder_job word.now }
    ensures doable { IfSome result CanBeDone }
{
    match word {
        "store" => Some(Job::Replay),
        "resume" => Some(Job::Resume),
        _ => None,
    }
}

/// What the words ask for, where they are `store FOLDER` or `resume FOLDER`; FOLDER isn't empty and doesn't begin with `-`.
pub(crate) fn job_of_folder(words: &[String]) -> Option<Job>
    ensures exact { result ≡ verdicts.asked_of_folder (map string_bytes words.now) }
    ensures doable { IfSome result CanBeDone }
{
    if words.len() != 2 || !is_folder(words[1].as_str()) {
        return None;
    }
    folder_job(words[0].as_str())
}

/// Whether the words are `store FOLDER` or `resume FOLDER`, which `federate_store` carries out over the journals of that folder.
pub fn names_folder(words: &[String]) -> bool
    ensures { result ≡ is_some (verdicts.asked_of_folder (map string_bytes words.now)) }
{
    job_of_folder(words).is_some()
}

/// Whether this may be the name of a folder.
fn is_folder(name: &str) -> bool
    ensures { result ≡ verdicts.is_folder name.now }
{
    !name.is_empty() && name.as_bytes()[0] != b'-'
}

/// What words without a folder ask for.
fn command_of(words: &[String]) -> Option<Job>
    ensures exact { result ≡ commands (map string_bytes words.now) }
    ensures doable { IfSome result CanBeDone }
{
    if words.len() != 1 {
        return Some(Job::Make(made_by(words)?));
    }
    match words[0].as_str() {
        "replay" => Some(Job::Replay),
        "run" => Some(Job::Run),
        "audit" => Some(Job::Audit),
        _ => None,
    }
}
