//! The locking engine.
ghost use Rattle.std.specs.Prelude.{◌≡◌, ◌≤◌, None, OnOk, OnErr, IsSome, IfSome};
ghost use Rattle.fed_rules.specs.Replies.{access_key};
ghost use Rattle.run_book.specs.Held.{held_in};
ghost use Rattle.run_book.specs.Book.{grants};
ghost use Rattle.locking_engine.specs.Holders.{held_by, place_of};

use crate::holders::{Holders, writers_of};
use crate::rule::{older_of_two, wait_die};
use engine_contract::{Kept, LocalEngine, SealErr, Sealed};
use mdb_base::{Key, Memory, PlainAct, Puts, Reply, Tid};
use run_book::{Counters, Granted, HeldRun, Rival, RunBook};
use std::alloc::Global;

/// A local engine that locks what its runs read and write. It keeps its runs in a book, and beside it for each key who has read it
/// and who has written it, and who holds the ticket.
#[derive(Drop)]
pub struct LockingEngine {
    book: RunBook,
    readers: Holders,
    writers: Holders,
    taker: Option<Rival>,
}

/// Grants an access to a live run of this age, who is then a holder of its key. Without memory nothing changes.
fn grant(
    alloc: Global,
    book: &mut RunBook,
    holders: &mut Holders,
    tid: Tid,
    age: u64,
    access: Granted,
) -> Result<(), Memory>
    requires held { IsSome (held_in book.old.book.runs tid) }
    requires live { IfSome (held_in book.old.book.runs tid) (λ held. held.run.sealed ≡ None) }
    ensures granted { OnOk result (book.new.book ≡ grants tid access book.old.book) }
    ensures held { OnOk result (holders.new ≡ held_by (place_of (access_key access) age) tid holders.old) }
    ensures memory { OnErr result (book.new.book ≡ book.old.book) }
    ensures let_go { OnErr result (holders.new ≡ holders.old) }
    ensures room { book.old.room ≤ book.new.room }
{
    let key = access.key();
    let fresh = holders.hold(alloc, key, age, tid)?;
    let granted = book.grant(tid, access);
    if granted.is_err() && fresh {
        holders.let_go(key, age);
    }
    granted
}

impl LockingEngine {
    ghost use Rattle.std.specs.Prelude.{◌≡◌, [], None, IfOk, IsSome, IfSome, is_some, cond};
    ghost use Rattle.mdb_base.specs.declared.names.Engine.TheVariants.{Locking};
    ghost use Rattle.engine_contract.specs.Calls.{fresh_start};
    ghost use Rattle.run_book.specs.Held.{held_in};
    ghost use Rattle.locking_engine.specs.Holders.{IsFirstInTheWay, IsStop};
    ghost use Rattle.locking_engine.specs.Rule.{stop_by};
    ghost use Rattle.locking_engine.specs.Stands.{Stands, EndsRun, IsReleased, StopsRun};

    /// An engine of a new site with these rows.
    pub fn new(alloc: Global, rows: &Puts) -> Result<Self, Memory>
        ensures { IfOk result (λ engine. Stands engine (fresh_start Locking rows.now) []) }
    {
        let counters = Counters {
            counter: 0,
            published: 0,
            owner: None,
        };
        let book = RunBook::start(alloc, rows, &[], counters)?;
        Ok(LockingEngine {
            book,
            readers: Holders::new(alloc),
            writers: Holders::new(alloc),
            taker: None,
        })
    }

    /// The oldest of the other runs that an act of a run of this age conflicts with.
    fn in_the_way(&self, age: u64, act: PlainAct) -> Option<Rival>
        ensures { IsFirstInTheWay self.now.readers self.now.writers age act result }
    {
        match act {
            PlainAct::Read(key) => self.writers.oldest_other(key, age),
            PlainAct::Write(key, _) => {
                let reader = self.readers.oldest_other(key, age);
                older_of_two(reader, self.writers.oldest_other(key, age))
            }
        }
    }

    /// What stops an access of a run of this age, if anything.
    fn access_stop(&self, age: u64, act: PlainAct) -> Option<Reply>
        ensures { IsStop self.now.readers self.now.writers age act result }
    {
        wait_die(age, self.in_the_way(age, act))
    }

    /// What stops the taking of the ticket by a run, if anything.
    fn ticket_stop(&self, tid: Tid) -> Option<Reply>
        requires { IsSome (held_in self.now.book.book.runs tid) }
        ensures { IfSome (held_in self.now.book.book.runs tid)
            (λ held. result ≡ stop_by held.run.age self.now.taker) }
    {
        wait_die(self.book.run(tid).age(), self.taker)
    }

    /// A run that ends holds nothing any more.
    fn release(&mut self, run: &HeldRun)
        ensures book { self.new.book ≡ self.old.book }
        ensures released { IsReleased self.old run.now.run self.new }
    {
        self.readers.release(run);
        self.writers.release(run);
        if run.ticket().is_some() && run.sealed().is_none() {
            self.taker = None;
        }
    }

    /// A ticket that is published is held no longer.
    fn publish(&mut self, ticket: Option<u64>)
        ensures { self.new ≡ record self.old { taker = cond (is_some ticket) None self.old.taker } }
    {
        if ticket.is_some() {
            self.taker = None;
        }
    }

    /// Ends a run otherwise than by commit.
    fn end(&mut self, tid: Tid)
        requires { IsSome (held_in self.old.book.book.runs tid) }
        ensures { EndsRun self.old tid self.new }
    {
        let run = self.book.take_out(tid);
        self.release(&run);
    }

    /// Ends a run that is refused.
    fn stop(&mut self, tid: Tid, stop: Reply) -> Reply
        requires { IsSome (held_in self.old.book.book.runs tid) }
        ensures answer { result ≡ stop }
        ensures stopped { StopsRun self.old tid stop self.new }
    {
        if let Reply::Refused(_) = stop {
            self.end(tid);
        }
        stop
    }
}

impl LocalEngine for LockingEngine {
    ghost use Rattle.mdb_base.specs.declared.names.Engine.TheVariants.{Locking};
    ghost use Rattle.locking_engine.specs.Stands.{Stands};

    ghost kind = { λ _. Locking };

    ghost stands = { Stands };

    ghost of_kind = { λ engine start lines stood. stood.keeps.keeps.of_kind };

    ghost starts = { λ engine start lines stood. stood.keeps.keeps.starts };

    ghost right = { λ engine start lines stood. stood.keeps.keeps.right };

    fn begin(&mut self, alloc: Global, tid: Tid) -> Result<u64, Memory> {
        self.book.begin(alloc, tid)
    }

    fn read(&mut self, alloc: Global, tid: Tid, key: Key) -> Result<Reply, Memory> {
        let age = self.book.run(tid).age();
        if let Some(stop) = self.access_stop(age, PlainAct::Read(key)) {
            return Ok(self.stop(tid, stop));
        }
        let value = self.book.value_for(tid, key);
        let access = Granted::read(key, value);
        grant(alloc, &mut self.book, &mut self.readers, tid, age, access)?;
        Ok(Reply::Value(value))
    }

    fn write(&mut self, alloc: Global, tid: Tid, key: Key, value: u64) -> Result<Reply, Memory> {
        let age = self.book.run(tid).age();
        if let Some(stop) = self.access_stop(age, PlainAct::Write(key, value)) {
            return Ok(self.stop(tid, stop));
        }
        let access = Granted::write(key, value);
        grant(alloc, &mut self.book, &mut self.writers, tid, age, access)?;
        Ok(Reply::Done)
    }

    fn take(&mut self, alloc: Global, tid: Tid) -> Result<Reply, Memory> {
        if let Some(stop) = self.ticket_stop(tid) {
            return Ok(self.stop(tid, stop));
        }
        let ticket = self.book.take(alloc, tid)?;
        self.taker = Some(self.book.run(tid).by_age());
        Ok(Reply::Ticket(ticket))
    }

    fn seal(&mut self, alloc: Global, tid: Tid) -> Result<Sealed, SealErr> {
        let run = self.book.run(tid);
        let writes = run.puts(alloc)?;
        let ticket = run.ticket();
        let number = self.book.counters().counter + 1;
        self.book.seal(alloc, tid, number)?;
        self.publish(ticket);
        Ok(Sealed {
            number,
            ticket,
            writes,
        })
    }

    fn unbegin(&mut self, tid: Tid) {
        self.book.unbegin(tid);
    }

    fn unseal(&mut self, tid: Tid) {
        self.book.unseal(tid);
        let run = self.book.run(tid);
        if run.ticket().is_some() {
            self.taker = Some(run.by_age());
        }
    }

    fn commit(&mut self, tid: Tid) {
        let run = self.book.commit(tid);
        self.release(&run);
    }

    fn abort(&mut self, tid: Tid) {
        self.end(tid);
    }

    fn restart(
        &mut self,
        alloc: Global,
        rows: &Puts,
        doubtful: &[Kept],
        counter: u64,
        published: u64,
        owner: Option<Tid>,
    ) -> Result<(), Memory> {
        let counters = Counters {
            counter,
            published,
            owner,
        };
        let writers = writers_of(alloc, doubtful)?;
        self.book = RunBook::start(alloc, rows, doubtful, counters)?;
        self.readers = Holders::new(alloc);
        self.writers = writers;
        self.taker = None;
        Ok(())
    }

    fn rows(&self, alloc: Global) -> Result<Puts, Memory> {
        self.book.rows(alloc)
    }
}
