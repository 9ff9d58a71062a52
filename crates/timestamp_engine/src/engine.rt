//! The timestamp engine.
use engine_contract::{Kept, LocalEngine, SealErr, Sealed};
use mdb_base::{Key, Memory, PlainAct, Puts, Reply, Tid};
use run_book::{AccessAges, Counters, Granted, RunBook, TicketAges};
use std::alloc::Global;

/// A local engine that keeps its runs in the order of their begins. It keeps them in a book, and beside it for each key who accessed
/// it, and who has taken the ticket, each run by its age.
#[derive(Drop)]
pub struct TimestampEngine {
    book: RunBook,
    accesses: AccessAges,
    takers: TicketAges,
}

impl TimestampEngine {
    ghost use Rattle.std.specs.Prelude.{◌≡◌, [], IfOk, IsSome, IfSome};
    ghost use Rattle.mdb_base.specs.declared.names.Engine.TheVariants.{Timestamp};
    ghost use Rattle.mdb_base.specs.declared.acts.PlainAct.TheVariants.{Read, Write};
    ghost use Rattle.engine_contract.specs.Calls.{fresh_start};
    ghost use Rattle.run_book.specs.Held.{held_in};
    ghost use Rattle.run_book.specs.Ages.{ages_of};
    ghost use Rattle.run_book.specs.Stops.{key_stop, IsTicketStop};
    ghost use Rattle.timestamp_engine.specs.Stands.{Stands, EndsRun, StopsRun};

    /// An engine of a new site with these rows.
    pub fn new(alloc: Global, rows: &Puts) -> Result<Self, Memory>
        ensures { IfOk result (λ engine. Stands engine (fresh_start Timestamp rows.now) []) }
    {
        let counters = Counters {
            counter: 0,
            published: 0,
            owner: None,
        };
        let book = RunBook::start(alloc, rows, &[], counters)?;
        Ok(TimestampEngine {
            book,
            accesses: AccessAges::new(alloc),
            takers: TicketAges::new(alloc),
        })
    }

    /// What stops an act of a run on a key, if anything.
    fn access_stop(&self, tid: Tid, key: Key, act: PlainAct) -> Option<Reply>
        requires { IsSome (held_in self.now.book.book.runs tid) }
        ensures { IfSome (held_in self.now.book.book.runs tid)
            (λ held. result ≡ key_stop (ages_of self.now.accesses key) held.run.age act) }
    {
        self.accesses.of(key).stop(self.book.run(tid).age(), act)
    }

    /// What stops the taking of the ticket by a run, if anything.
    fn ticket_stop(&self, tid: Tid) -> Option<Reply>
        requires { IsSome (held_in self.now.book.book.runs tid) }
        ensures { IfSome (held_in self.now.book.book.runs tid) (λ held. IsTicketStop self.now.takers held.run.age result) }
    {
        self.takers.stop(self.book.run(tid).age())
    }

    /// Ends a run otherwise than by commit.
    fn end(&mut self, tid: Tid)
        requires { IsSome (held_in self.old.book.book.runs tid) }
        ensures { EndsRun self.old tid self.new }
    {
        let run = self.book.take_out(tid);
        self.accesses.abort(&run);
        self.takers.abort(&run);
    }

    /// Ends a run that is refused.
    fn stop(&mut self, tid: Tid, stop: Reply) -> Reply
        requires { IsSome (held_in self.old.book.book.runs tid) }
        ensures answer { result ≡ stop }
        ensures stopped { StopsRun self.old tid stop self.new }
    {
        if let Reply::Refused(_) = stop {
            self.end(tid);
        }
        stop
    }
}

impl LocalEngine for TimestampEngine {
    ghost use Rattle.mdb_base.specs.declared.names.Engine.TheVariants.{Timestamp};
    ghost use Rattle.timestamp_engine.specs.Stands.{Stands};

    ghost kind = { λ _. Timestamp };

    ghost stands = { Stands };

    ghost of_kind = { λ engine start lines stood. stood.keeps.keeps.of_kind };

    ghost starts = { λ engine start lines stood. stood.keeps.keeps.starts };

    ghost right = { λ engine start lines stood. stood.keeps.keeps.right };

    fn begin(&mut self, alloc: Global, tid: Tid) -> Result<u64, Memory> {
        self.book.begin(alloc, tid)
    }

    fn read(&mut self, _alloc: Global, tid: Tid, key: Key) -> Result<Reply, Memory> {
        if let Some(stop) = self.access_stop(tid, key, PlainAct::Read(key)) {
            return Ok(self.stop(tid, stop));
        }
        let run = self.book.run(tid).by_age();
        let value = self.book.value_for(tid, key);
        self.accesses.make_room(key)?;
        self.book.grant(tid, Granted::read(key, value))?;
        self.accesses.read(key, run);
        Ok(Reply::Value(value))
    }

    fn write(&mut self, _alloc: Global, tid: Tid, key: Key, value: u64) -> Result<Reply, Memory> {
        if let Some(stop) = self.access_stop(tid, key, PlainAct::Write(key, value)) {
            return Ok(self.stop(tid, stop));
        }
        let run = self.book.run(tid).by_age();
        self.accesses.make_room(key)?;
        self.book.grant(tid, Granted::write(key, value))?;
        self.accesses.write(key, run);
        Ok(Reply::Done)
    }

    fn take(&mut self, alloc: Global, tid: Tid) -> Result<Reply, Memory> {
        if let Some(stop) = self.ticket_stop(tid) {
            return Ok(self.stop(tid, stop));
        }
        let run = self.book.run(tid).by_age();
        self.takers.enter(run)?;
        let Ok(ticket) = self.book.take(alloc, tid) else {
            self.takers.leave(run.rank);
            return Err(Memory);
        };
        self.takers.hold(run);
        Ok(Reply::Ticket(ticket))
    }

    fn seal(&mut self, alloc: Global, tid: Tid) -> Result<Sealed, SealErr> {
        let run = self.book.run(tid);
        let writes = run.puts(alloc)?;
        let ticket = run.ticket();
        let number = run.age();
        self.book.seal(alloc, tid, number)?;
        self.takers.publish(ticket);
        Ok(Sealed {
            number,
            ticket,
            writes,
        })
    }

    fn unbegin(&mut self, tid: Tid) {
        self.book.unbegin(tid);
    }

    fn unseal(&mut self, tid: Tid) {
        self.book.unseal(tid);
        self.takers.withdraw(self.book.run(tid));
    }

    fn commit(&mut self, tid: Tid) {
        let run = self.book.commit(tid);
        self.accesses.commit(&run);
        self.takers.commit(&run);
    }

    fn abort(&mut self, tid: Tid) {
        self.end(tid);
    }

    fn restart(
        &mut self,
        alloc: Global,
        rows: &Puts,
        doubtful: &[Kept],
        counter: u64,
        published: u64,
        owner: Option<Tid>,
    ) -> Result<(), Memory> {
        let counters = Counters {
            counter,
            published,
            owner,
        };
        let accesses = AccessAges::restored(alloc, doubtful)?;
        let takers = TicketAges::restored(alloc, doubtful)?;
        self.book = RunBook::start(alloc, rows, doubtful, counters)?;
        self.accesses = accesses;
        self.takers = takers;
        Ok(())
    }

    fn rows(&self, alloc: Global) -> Result<Puts, Memory> {
        self.book.rows(alloc)
    }
}
