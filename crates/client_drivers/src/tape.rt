//! A door that answers from a tape.
ghost use Rattle.std.specs.Prelude.{◌≡◌, []};
ghost use Rattle.fed_rules.specs.declared.commands.Command.TheVariants as Call;
ghost use Rattle.client_drivers.specs.Calls.{Notes};
ghost use Rattle.client_drivers.specs.Tapes.{Gives, TapeTells};

use crate::doors::{CoordDoor, SiteDoor};
use fed_rules::{Answer, Command};
use line_text::DoorErr;
use mdb_base::{Tid, Tx};
use std::marker::Model;

/// A door of both kinds that gives the answers of a list, and then want of memory. It notes its calls.
#[derive(Drop)]
pub struct TapeDoor {
    /// The answers that are left, the last one first.
    answers: Vec<Answer>,
    calls: Vec<Command>,
}

impl Model for TapeDoor {
    ghost use Rattle.std.specs.Prelude.{reverse};
    ghost use Rattle.client_drivers.specs.Tapes.{Tape};

    ghost Value = { Tape };

    ghost view = { λ d. record { answers = reverse d.answers.items; calls = d.calls.items } };
}

impl TapeDoor {
    /// The door that gives these answers in their order. It made no call.
    pub fn new(answers: Vec<Answer>) -> TapeDoor
        ensures answers { result.answers ≡ answers.items }
        ensures calls { result.calls ≡ [] }
    {
        let calls = Vec::new(*answers.allocator());
        let mut answers = answers;
        answers.reverse();
        TapeDoor { answers, calls }
    }

    /// The calls that were answered from the list, in their order.
    pub fn calls(&self) -> &[Command]
        ensures { result.now ≡ self.now.calls }
    {
        self.calls.as_slice()
    }

    /// The next answer, noted as the answer of this call. Where no answer is left, or the call can't be noted for want of
    /// memory, the tape is at its end.
    fn answer(&mut self, command: Command) -> Result<Answer, DoorErr>
        ensures told { Notes TapeTells self.old self.new command result }
        ensures given { Gives self.old self.new result }
    {
        if self.calls.try_reserve(1).is_err() {
            self.answers.clear();
            return Err(DoorErr::Memory);
        }
        let Some(answer) = self.answers.pop() else {
            return Err(DoorErr::Memory);
        };
        self.calls.push_reserved(command);
        Ok(answer)
    }
}

impl SiteDoor for TapeDoor {
    ghost tells = { TapeTells };

    fn begin(&mut self, tx: Tx) -> Result<Answer, DoorErr>
        ensures told { Notes TapeTells self.old self.new (Call.Begin tx) result }
        ensures given { Gives self.old self.new result }
    {
        self.answer(Command::Begin(tx))
    }

    fn step(&mut self, tx: Tx) -> Result<Answer, DoorErr>
        ensures told { Notes TapeTells self.old self.new (Call.Step tx) result }
        ensures given { Gives self.old self.new result }
    {
        self.answer(Command::Step(tx))
    }

    fn commit(&mut self, tx: Tx) -> Result<Answer, DoorErr>
        ensures told { Notes TapeTells self.old self.new (Call.Commit tx) result }
        ensures given { Gives self.old self.new result }
    {
        self.answer(Command::Commit(tx))
    }

    fn abort(&mut self, tx: Tx) -> Result<Answer, DoorErr>
        ensures told { Notes TapeTells self.old self.new (Call.Abort tx) result }
        ensures given { Gives self.old self.new result }
    {
        self.answer(Command::Abort(tx))
    }

    fn fate(&mut self, tx: Tx) -> Result<Answer, DoorErr>
        ensures told { Notes TapeTells self.old self.new (Call.Fate tx) result }
        ensures given { Gives self.old self.new result }
    {
        self.answer(Command::Fate(tx))
    }
}

impl CoordDoor for TapeDoor {
    ghost tells = { TapeTells };

    fn go(&mut self, tx: Tx) -> Result<Answer, DoorErr>
        ensures told { Notes TapeTells self.old self.new (Call.Go tx) result }
        ensures given { Gives self.old self.new result }
    {
        self.answer(Command::Go(tx))
    }

    fn fate(&mut self, tx: Tx) -> Result<Answer, DoorErr>
        ensures told { Notes TapeTells self.old self.new (Call.Fate tx) result }
        ensures given { Gives self.old self.new result }
    {
        self.answer(Command::Fate(tx))
    }

    fn again(&mut self, tid: Tid) -> Result<Answer, DoorErr>
        ensures told { Notes TapeTells self.old self.new (Call.Again tid) result }
        ensures given { Gives self.old self.new result }
    {
        self.answer(Command::Again(tid))
    }

    fn late(&mut self, tid: Tid) -> Result<Answer, DoorErr>
        ensures told { Notes TapeTells self.old self.new (Call.Late tid) result }
        ensures given { Gives self.old self.new result }
    {
        self.answer(Command::Late(tid))
    }
}
