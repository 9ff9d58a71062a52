//! The multiversion engine.
use crate::noted::{note, noted_of};
use crate::old_versions::OldVersions;
use crate::unended::Unended;
use engine_contract::{Kept, LocalEngine, SealErr, Sealed};
use mdb_base::{Key, Memory, PlainAct, Puts, Reply, Tid};
use run_book::{AccessAges, Counters, Granted, HeldRun, RunBook, TicketAges};
use std::alloc::Global;

/// A local engine that answers a read the version of its run's age. It keeps its runs in a book, and beside it who accessed each key and
/// who has taken the ticket, the unended runs by their ages, and of each key the superseded versions that one of them may read.
#[derive(Drop)]
pub struct MultiversionEngine {
    book: RunBook,
    accesses: AccessAges,
    takers: TicketAges,
    unended: Unended,
    olds: OldVersions,
}

impl MultiversionEngine {
    ghost use Rattle.std.specs.Prelude.{◌≡◌, cond, [], IfOk, IsSome, IfSome};
    ghost use Rattle.std.specs.FinMap.{remove};
    ghost use Rattle.mdb_base.specs.declared.names.Key.{Key};
    ghost use Rattle.fed_rules.specs.Replies.{has_written};
    ghost use Rattle.run_book.specs.Ages.{ages_of, unwritten};
    ghost use Rattle.run_book.specs.Takers.{without_taker};
    ghost use Rattle.mdb_base.specs.declared.names.Engine.TheVariants.{Multiversion};
    ghost use Rattle.engine_contract.specs.Calls.{fresh_start};
    ghost use Rattle.run_book.specs.Held.{held_in};
    ghost use Rattle.multiversion_engine.specs.Stands.{Stands, read_stop, write_stop, IsValueFor, EndsRun, StopsRun};

    /// An engine of a new site with these rows.
    pub fn new(alloc: Global, rows: &Puts) -> Result<Self, Memory>
        ensures { IfOk result (λ engine. Stands engine (fresh_start Multiversion rows.now) []) }
    {
        let counters = Counters {
            counter: 0,
            published: 0,
            owner: None,
        };
        let book = RunBook::start(alloc, rows, &[], counters)?;
        Ok(MultiversionEngine {
            book,
            accesses: AccessAges::new(alloc),
            takers: TicketAges::new(alloc),
            unended: Unended::new(alloc),
            olds: OldVersions::new(alloc),
        })
    }

    /// What stops a read of a run, if anything: where it hasn't written the key itself, it waits for the older writer.
    fn read_stop(&self, tid: Tid, key: Key) -> Option<Reply>
        requires { IsSome (held_in self.now.book.book.runs tid) }
        ensures { IfSome (held_in self.now.book.book.runs tid)
            (λ held. result ≡ read_stop self.now.accesses held.run key) }
    {
        let run = self.book.run(tid);
        if run.has_written(key) {
            return None;
        }
        self.accesses.of(key).wait(run.age())
    }

    /// What stops a write of a run, if anything.
    fn write_stop(&self, tid: Tid, key: Key, value: u64) -> Option<Reply>
        requires { IsSome (held_in self.now.book.book.runs tid) }
        ensures { IfSome (held_in self.now.book.book.runs tid)
            (λ held. result ≡ write_stop self.now.accesses held.run key value) }
    {
        let age = self.book.run(tid).age();
        self.accesses.of(key).stop(age, PlainAct::Write(key, value))
    }

    /// A run that ends counts no longer, but for its reads.
    fn release(&mut self, run: &HeldRun)
        ensures book { self.new.book ≡ self.old.book }
        ensures accesses { (q : Key) → ages_of self.new.accesses q ≡ cond (has_written q run.now.run) (unwritten (ages_of self.old.accesses q)) (ages_of self.old.accesses q) }
        ensures takers { self.new.takers ≡ without_taker run.now.run self.old.takers }
        ensures unended { self.new.unended ≡ remove self.old.unended run.now.run.age }
        ensures olds { self.new.olds ≡ self.old.olds }
    {
        self.accesses.abort(run);
        self.takers.abort(run);
        self.unended.remove(run.age());
    }

    /// Ends a run otherwise than by commit.
    fn end(&mut self, tid: Tid)
        requires { IsSome (held_in self.old.book.book.runs tid) }
        ensures { EndsRun self.old tid self.new }
    {
        let run = self.book.take_out(tid);
        self.release(&run);
    }

    /// Ends a run that is refused.
    fn stop(&mut self, tid: Tid, stop: Reply) -> Reply
        requires { IsSome (held_in self.old.book.book.runs tid) }
        ensures answer { result ≡ stop }
        ensures stopped { StopsRun self.old tid stop self.new }
    {
        if let Reply::Refused(_) = stop {
            self.end(tid);
        }
        stop
    }

    /// What a run reads of a key: its own last write, else the newest version where its age is above the number of that one, and else
    /// the last old version below its age.
    fn value_for(&self, tid: Tid, key: Key) -> u64
        requires { IsSome (held_in self.now.book.book.runs tid) }
        ensures { IfSome (held_in self.now.book.book.runs tid)
            (λ held. IsValueFor self.now.book.book self.now.olds held.run key result) }
    {
        let run = self.book.run(tid);
        let age = run.age();
        if let Some(value) = run.own_value(key) {
            return value;
        }
        if self.book.number(key) < age {
            return self.book.value(key);
        }
        self.olds.value_below(key, age)
    }
}

impl LocalEngine for MultiversionEngine {
    ghost use Rattle.mdb_base.specs.declared.names.Engine.TheVariants.{Multiversion};
    ghost use Rattle.fed_rules.specs.Runs.{Commits};
    ghost use Rattle.engine_contract.specs.Past.{AddsLine, SomePast};
    ghost use Rattle.engine_contract.specs.Calls.{CanCommit};
    ghost use Rattle.multiversion_engine.specs.Stands.{HasDropped, Stands};

    ghost kind = { λ _. Multiversion };

    ghost stands = { Stands };

    ghost of_kind = { λ engine start lines stood. stood.keeps.keeps.of_kind };

    ghost starts = { λ engine start lines stood. stood.keeps.keeps.starts };

    ghost right = { λ engine start lines stood. stood.keeps.keeps.right };

    fn begin(&mut self, alloc: Global, tid: Tid) -> Result<u64, Memory> {
        let age = self.book.counters().counter + 1;
        self.unended.add(age, tid)?;
        let begun = self.book.begin(alloc, tid);
        if begun.is_err() {
            self.unended.remove(age);
        }
        begun
    }

    fn read(&mut self, _alloc: Global, tid: Tid, key: Key) -> Result<Reply, Memory> {
        if let Some(stop) = self.read_stop(tid, key) {
            return Ok(self.stop(tid, stop));
        }
        let value = self.value_for(tid, key);
        let run = self.book.run(tid).by_age();
        self.accesses.make_room(key)?;
        self.book.grant(tid, Granted::read(key, value))?;
        self.accesses.read(key, run);
        Ok(Reply::Value(value))
    }

    fn write(&mut self, _alloc: Global, tid: Tid, key: Key, value: u64) -> Result<Reply, Memory> {
        if let Some(stop) = self.write_stop(tid, key, value) {
            return Ok(self.stop(tid, stop));
        }
        let run = self.book.run(tid).by_age();
        self.accesses.make_room(key)?;
        note(&self.book, &mut self.olds, key)?;
        self.book.grant(tid, Granted::write(key, value))?;
        self.accesses.write(key, run);
        Ok(Reply::Done)
    }

    fn take(&mut self, alloc: Global, tid: Tid) -> Result<Reply, Memory> {
        let run = self.book.run(tid).by_age();
        if let Some(stop) = self.takers.stop(run.rank) {
            return Ok(self.stop(tid, stop));
        }
        self.takers.enter(run)?;
        let Ok(ticket) = self.book.take(alloc, tid) else {
            self.takers.leave(run.rank);
            return Err(Memory);
        };
        self.takers.hold(run);
        Ok(Reply::Ticket(ticket))
    }

    fn seal(&mut self, alloc: Global, tid: Tid) -> Result<Sealed, SealErr> {
        let run = self.book.run(tid);
        let writes = run.puts(alloc)?;
        let ticket = run.ticket();
        let number = run.age();
        self.book.seal(alloc, tid, number)?;
        self.takers.publish(ticket);
        Ok(Sealed {
            number,
            ticket,
            writes,
        })
    }

    fn unbegin(&mut self, tid: Tid) {
        let age = self.book.run(tid).age();
        self.book.unbegin(tid);
        self.unended.remove(age);
    }

    fn unseal(&mut self, tid: Tid) {
        self.book.unseal(tid);
        self.takers.withdraw(self.book.run(tid));
    }

    fn commit(&mut self, tid: Tid)
        requires { SomePast Stands self.old (CanCommit tid) }
        ensures line { AddsLine Stands self.old (Commits tid) self.new }
        ensures dropped { HasDropped self.old tid self.new }
    {
        let run = self.book.commit(tid);
        self.accesses.commit(&run);
        self.takers.commit(&run);
        self.unended.remove(run.age());
        self.olds.drop_unread(&run, &self.unended);
    }

    fn abort(&mut self, tid: Tid) {
        self.end(tid);
    }

    fn restart(
        &mut self,
        alloc: Global,
        rows: &Puts,
        doubtful: &[Kept],
        counter: u64,
        published: u64,
        owner: Option<Tid>,
    ) -> Result<(), Memory> {
        let counters = Counters {
            counter,
            published,
            owner,
        };
        let accesses = AccessAges::restored(alloc, doubtful)?;
        let takers = TicketAges::restored(alloc, doubtful)?;
        let unended = Unended::of_doubtful(alloc, doubtful)?;
        let book = RunBook::start(alloc, rows, doubtful, counters)?;
        self.olds = noted_of(alloc, &book, doubtful)?;
        self.book = book;
        self.accesses = accesses;
        self.takers = takers;
        self.unended = unended;
        Ok(())
    }

    fn rows(&self, alloc: Global) -> Result<Puts, Memory> {
        self.book.rows(alloc)
    }
}
