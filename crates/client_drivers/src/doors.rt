//! The doors of hosts.
ghost use Rattle.std.specs.Prelude.{List};
ghost use Rattle.fed_rules.specs.declared.commands.Command.TheVariants as Call;
ghost use Rattle.client_drivers.specs.Calls.{Called, Notes};

use fed_rules::Answer;
use line_text::DoorErr;
use mdb_base::{Tid, Tx};

/// What a client of a site calls.
pub trait SiteDoor: Drop {
    /// The calls with their answers, the latest first, where the door tells them; it tells nothing where none hold.
    ghost tells: { Self → List Called → Type 0 };

    /// Begins an attempt.
    fn begin(&mut self, tx: Tx) -> Result<Answer, DoorErr>
        ensures { Notes tells self.old self.new (Call.Begin tx) result };

    /// Does the next step of the attempt that is live.
    fn step(&mut self, tx: Tx) -> Result<Answer, DoorErr>
        ensures { Notes tells self.old self.new (Call.Step tx) result };

    /// Commits the attempt that is live.
    fn commit(&mut self, tx: Tx) -> Result<Answer, DoorErr>
        ensures { Notes tells self.old self.new (Call.Commit tx) result };

    /// Aborts the attempt that is live.
    fn abort(&mut self, tx: Tx) -> Result<Answer, DoorErr>
        ensures { Notes tells self.old self.new (Call.Abort tx) result };

    /// What became of the transaction.
    fn fate(&mut self, tx: Tx) -> Result<Answer, DoorErr>
        ensures { Notes tells self.old self.new (Call.Fate tx) result };
}

/// What a client of the coordinator calls.
pub trait CoordDoor: Drop {
    /// The calls with their answers, the latest first, where the door tells them; it tells nothing where none hold.
    ghost tells: { Self → List Called → Type 0 };

    /// Begins an attempt.
    fn go(&mut self, tx: Tx) -> Result<Answer, DoorErr>
        ensures { Notes tells self.old self.new (Call.Go tx) result };

    /// What became of the transaction.
    fn fate(&mut self, tx: Tx) -> Result<Answer, DoorErr>
        ensures { Notes tells self.old self.new (Call.Fate tx) result };

    /// Sends once more what is outstanding of the attempt.
    fn again(&mut self, tid: Tid) -> Result<Answer, DoorErr>
        ensures { Notes tells self.old self.new (Call.Again tid) result };

    /// Gives the attempt up.
    fn late(&mut self, tid: Tid) -> Result<Answer, DoorErr>
        ensures { Notes tells self.old self.new (Call.Late tid) result };
}

/// How a driver ended: how many calls it made, and whether the transaction is committed.
#[derive(Clone, Copy, Debug, PartialEq, Eq)]
pub struct Driven {
    pub used: u32,
    pub committed: bool,
}
