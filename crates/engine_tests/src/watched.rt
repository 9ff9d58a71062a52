//! An engine whose runs are noted beside it, so that each call is made only where it may come.
ghost use Rattle.std.specs.Prelude.{◌≡◌, ◌∷◌, IfOk, OnOk};
ghost use Rattle.fed_rules.specs.Runs.{Acts};
ghost use Rattle.engine_contract.specs.Past.{SomePast, AddsLine};
ghost use Rattle.engine_contract.specs.Calls.{CanAct};
ghost use Rattle.engine_tests.specs.Stages.{Agrees, IsFresh, noted, free, live, ticketless, sealed, acted, took};

use crate::stage::{Note, Stage};
use engine_contract::{LocalEngine, SealErr, begin_again, seal_again};
use mdb_base::{Memory, PlainAct, Puts, Reply, Tid, Why};
use std::alloc::Global;
use std::process::Abort;
use std::test::Fail;

/// A call for an attempt.
#[derive(Clone, Copy)]
pub enum Call {
    /// It is taken back once.
    Begin,
    Access(PlainAct),
    Take,
    /// It is taken back once.
    Seal,
    Commit,
    Abort,
}

/// What a call answers.
#[derive(Clone, Copy, PartialEq, Eq)]
pub enum Answer {
    /// The number of a begin.
    Number(u64),
    Says(Reply),
    /// The serial number of a sealing and its ticket.
    Sealed(u64, Option<u64>),
    /// Why a sealing is refused.
    Refused(Why),
    Ended,
}

impl Stage {
    fn is_free(self) -> bool
        ensures { result ≡ free self }
    {
        matches!(self, Stage::Free)
    }

    fn is_live(self) -> bool
        ensures { result ≡ live self }
    {
        matches!(self, Stage::Live | Stage::Ticketed)
    }

    fn is_ticketless(self) -> bool
        ensures { result ≡ ticketless self }
    {
        matches!(self, Stage::Live)
    }

    fn is_sealed(self) -> bool
        ensures { result ≡ sealed self }
    {
        matches!(self, Stage::Sealed)
    }

    /// The stage behind an answered access.
    fn acted(self, reply: Reply) -> Stage
        ensures { result ≡ acted reply self }
    {
        match reply {
            Reply::Refused(_) => Stage::Free,
            _ => self,
        }
    }

    /// The stage behind an answered taking of the ticket.
    fn took(self, reply: Reply) -> Stage
        ensures { result ≡ took reply self }
    {
        match reply {
            Reply::Refused(_) => Stage::Free,
            Reply::Ticket(_) => Stage::Ticketed,
            _ => self,
        }
    }
}

/// The stage in the newest note of the attempt.
fn stage_in(notes: &[Note], tid: Tid) -> Stage
    ensures { result ≡ noted notes.now tid }
{
    for note in notes {
        if note.tid == tid {
            return note.stage;
        }
    }
    Stage::Free
}

fn add_note(notes: &mut Vec<Note>, tid: Tid, stage: Stage) -> Result<(), Memory>
    ensures { OnOk result (notes.new.items ≡ (record { tid = tid; stage = stage }) ∷ notes.old.items) }
{
    notes.insert(0, Note { tid, stage })?;
    Ok(())
}

/// Reads or writes for a live run.
fn access<E: LocalEngine>(
    engine: &mut E,
    alloc: Global,
    tid: Tid,
    act: PlainAct,
) -> Result<Reply, Memory>
    requires { SomePast E.stands engine.old (CanAct tid) }
    ensures { IfOk result (λ reply. AddsLine E.stands engine.old (Acts tid act reply) engine.new) }
{
    match act {
        PlainAct::Read(key) => engine.read(alloc, tid, key),
        PlainAct::Write(key, value) => engine.write(alloc, tid, key, value),
    }
}

/// An engine, the notes of its runs, the newest first, and bounds of its numbers and tickets.
#[derive(Drop)]
pub struct Watched<E: LocalEngine> {
    engine: E,
    notes: Vec<Note>,
    counter: u64,
    published: u64,
}

impl<E: LocalEngine> Watched<E> {
    /// The engine of a new site.
    pub fn new(alloc: Global, engine: E) -> Self
        requires { SomePast E.stands engine IsFresh }
        ensures { SomePast E.stands result.engine (Agrees result.notes.items result.counter result.published) }
    {
        Watched {
            engine,
            notes: Vec::new(alloc),
            counter: 0,
            published: 0,
        }
    }

    fn stage(&self, tid: Tid) -> Stage
        ensures { result ≡ noted self.now.notes.items tid }
    {
        stage_in(self.notes.as_slice(), tid)
    }

    fn begin(&mut self, rt: &impl Abort, alloc: Global, tid: Tid) -> Result<Answer, Fail>
        requires { SomePast E.stands self.old.engine (Agrees self.old.notes.items self.old.counter self.old.published) }
        ensures { OnOk result (SomePast E.stands self.new.engine
            (Agrees self.new.notes.items self.new.counter self.new.published)) }
    {
        assert!(rt; self.stage(tid).is_free());
        assert!(rt; self.counter < 1_000_000);
        let number = begin_again(&mut self.engine, alloc, tid)?;
        add_note(&mut self.notes, tid, Stage::Live)?;
        self.counter = self.counter.max(number);
        Ok(Answer::Number(number))
    }

    fn access(
        &mut self,
        rt: &impl Abort,
        alloc: Global,
        tid: Tid,
        act: PlainAct,
    ) -> Result<Answer, Fail>
        requires { SomePast E.stands self.old.engine (Agrees self.old.notes.items self.old.counter self.old.published) }
        ensures { OnOk result (SomePast E.stands self.new.engine
            (Agrees self.new.notes.items self.new.counter self.new.published)) }
    {
        let stage = self.stage(tid);
        assert!(rt; stage.is_live());
        let reply = access(&mut self.engine, alloc, tid, act)?;
        add_note(&mut self.notes, tid, stage.acted(reply))?;
        Ok(Answer::Says(reply))
    }

    fn take(&mut self, rt: &impl Abort, alloc: Global, tid: Tid) -> Result<Answer, Fail>
        requires { SomePast E.stands self.old.engine (Agrees self.old.notes.items self.old.counter self.old.published) }
        ensures { OnOk result (SomePast E.stands self.new.engine
            (Agrees self.new.notes.items self.new.counter self.new.published)) }
    {
        let stage = self.stage(tid);
        assert!(rt; stage.is_ticketless());
        assert!(rt; self.published < 1_000_000);
        let reply = self.engine.take(alloc, tid)?;
        add_note(&mut self.notes, tid, stage.took(reply))?;
        Ok(Answer::Says(reply))
    }

    fn seal(&mut self, rt: &impl Abort, alloc: Global, tid: Tid) -> Result<Answer, Fail>
        requires { SomePast E.stands self.old.engine (Agrees self.old.notes.items self.old.counter self.old.published) }
        ensures { OnOk result (SomePast E.stands self.new.engine
            (Agrees self.new.notes.items self.new.counter self.new.published)) }
    {
        assert!(rt; self.stage(tid).is_live());
        assert!(rt; self.counter < 1_000_000);
        match seal_again(&mut self.engine, alloc, tid) {
            Ok(sealed) => {
                add_note(&mut self.notes, tid, Stage::Sealed)?;
                self.counter = self.counter.max(sealed.number);
                self.published = self.published.max(sealed.ticket.unwrap_or(0));
                Ok(Answer::Sealed(sealed.number, sealed.ticket))
            }
            Err(SealErr::Refused(why)) => {
                add_note(&mut self.notes, tid, Stage::Free)?;
                Ok(Answer::Refused(why))
            }
            Err(SealErr::Memory) => Err(Fail::from(Memory)),
        }
    }

    fn commit(&mut self, rt: &impl Abort, tid: Tid) -> Result<Answer, Fail>
        requires { SomePast E.stands self.old.engine (Agrees self.old.notes.items self.old.counter self.old.published) }
        ensures { OnOk result (SomePast E.stands self.new.engine
            (Agrees self.new.notes.items self.new.counter self.new.published)) }
    {
        assert!(rt; self.stage(tid).is_sealed());
        self.engine.commit(tid);
        add_note(&mut self.notes, tid, Stage::Free)?;
        Ok(Answer::Ended)
    }

    fn abort(&mut self, rt: &impl Abort, tid: Tid) -> Result<Answer, Fail>
        requires { SomePast E.stands self.old.engine (Agrees self.old.notes.items self.old.counter self.old.published) }
        ensures { OnOk result (SomePast E.stands self.new.engine
            (Agrees self.new.notes.items self.new.counter self.new.published)) }
    {
        assert!(rt; !self.stage(tid).is_free());
        self.engine.abort(tid);
        add_note(&mut self.notes, tid, Stage::Free)?;
        Ok(Answer::Ended)
    }

    /// Makes a call for the attempt.
    pub fn make(
        &mut self,
        rt: &impl Abort,
        alloc: Global,
        tid: Tid,
        call: Call,
    ) -> Result<Answer, Fail>
        requires { SomePast E.stands self.old.engine (Agrees self.old.notes.items self.old.counter self.old.published) }
        ensures { OnOk result (SomePast E.stands self.new.engine
            (Agrees self.new.notes.items self.new.counter self.new.published)) }
    {
        match call {
            Call::Begin => self.begin(rt, alloc, tid),
            Call::Access(act) => self.access(rt, alloc, tid, act),
            Call::Take => self.take(rt, alloc, tid),
            Call::Seal => self.seal(rt, alloc, tid),
            Call::Commit => self.commit(rt, tid),
            Call::Abort => self.abort(rt, tid),
        }
    }

    /// The table.
    pub fn rows(&self, alloc: Global) -> Result<Puts, Memory> {
        self.engine.rows(alloc)
    }
}
