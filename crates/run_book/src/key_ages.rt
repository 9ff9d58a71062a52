//! Who accessed one key.
ghost use Rattle.std.specs.Prelude.{◌≡◌};
ghost use Rattle.run_book.specs.Ages.{no_ages, with_reader, with_writer, ended};
ghost use Rattle.run_book.specs.Ages.{younger_of as younger};
ghost use Rattle.run_book.specs.Stops.{key_stop, writer_stop, youngest_against};
ghost use Rattle.run_book.specs.Stops.{above as younger_than, below as older_than, stop_by};

use crate::rival::Rival;
use mdb_base::{PlainAct, Reply, Why};

/// How a run ends.
#[derive(Clone, Copy)]
pub(crate) enum End {
    Commit,
    Abort,
}

/// Who accessed a key in this epoch, each run by its age.
#[derive(Clone, Copy, Debug, PartialEq, Eq)]
pub struct KeyAges {
    /// The youngest run that was granted a read of it, whatever became of that run.
    pub read: Option<Rival>,
    /// The youngest committed run that wrote it.
    pub last: Option<Rival>,
    /// The unended run that wrote it: there is one at most.
    pub writer: Option<Rival>,
}

impl KeyAges {
    /// Nobody accessed the key.
    pub fn none() -> Self
        ensures { result ≡ no_ages }
    {
        KeyAges {
            read: None,
            last: None,
            writer: None,
        }
    }

    /// What stops an act of a run of this age on the key under timestamp order, if anything.
    pub fn stop(self, age: u64, act: PlainAct) -> Option<Reply>
        ensures { result ≡ key_stop self age act }
    {
        let youngest = self.youngest_against(act);
        late_or_wait(above(age, youngest), below(age, self.writer))
    }

    /// What a run of this age waits for, if anything: the older unended writer of the key.
    pub fn wait(self, age: u64) -> Option<Reply>
        ensures { result ≡ writer_stop self age }
    {
        late_or_wait(None, below(age, self.writer))
    }

    /// The youngest run with an access that the act conflicts with.
    fn youngest_against(self, act: PlainAct) -> Option<Rival>
        ensures { result ≡ youngest_against self act }
    {
        let writer = younger_of(self.last, self.writer);
        match act {
            PlainAct::Read(_) => writer,
            PlainAct::Write(_, _) => younger_of(self.read, writer),
        }
    }

    /// These ages with one more read.
    pub(crate) fn with_reader(self, run: Rival) -> Self
        ensures { result ≡ with_reader run self }
    {
        KeyAges {
            read: younger_of(self.read, Some(run)),
            ..self
        }
    }

    /// These ages with an unended writer.
    pub(crate) fn with_writer(self, run: Rival) -> Self
        ensures { result ≡ with_writer run self }
    {
        KeyAges {
            writer: Some(run),
            ..self
        }
    }

    /// These ages once the writer ends so.
    pub(crate) fn ended(self, end: End) -> Self
        ensures { result ≡ ended end self }
    {
        let last = match end {
            End::Commit => younger_of(self.last, self.writer),
            End::Abort => self.last,
        };
        KeyAges {
            read: self.read,
            last,
            writer: None,
        }
    }
}

/// The younger one of two, where both are there.
pub(crate) fn younger_of(first: Option<Rival>, other: Option<Rival>) -> Option<Rival>
    ensures { result ≡ younger first other }
{
    match (first, other) {
        (Some(first), Some(other)) if first.rank < other.rank => Some(other),
        (Some(first), _) => Some(first),
        (None, other) => other,
    }
}

/// The run, where it is younger than this age.
pub(crate) fn above(age: u64, run: Option<Rival>) -> Option<Rival>
    ensures { result ≡ younger_than age run }
{
    match run {
        Some(run) if age < run.rank => Some(run),
        _ => None,
    }
}

/// The run, where it is older than this age.
pub(crate) fn below(age: u64, run: Option<Rival>) -> Option<Rival>
    ensures { result ≡ older_than age run }
{
    match run {
        Some(run) if run.rank < age => Some(run),
        _ => None,
    }
}

/// Who comes too late behind a younger one is refused, and else waits for the older one.
pub(crate) fn late_or_wait(youngest: Option<Rival>, older: Option<Rival>) -> Option<Reply>
    ensures { result ≡ stop_by youngest older }
{
    match (youngest, older) {
        (Some(youngest), _) => Some(Reply::Refused(Why::Late { by: youngest.tid })),
        (None, Some(older)) => Some(Reply::Wait { by: older.tid }),
        (None, None) => None,
    }
}
