//! The validating engine.
use crate::index::{Change, Ended, Index, writers_in_doubt};
use crate::rule::seal_stop;
use engine_contract::{Kept, LocalEngine, SealErr, Sealed};
use mdb_base::{Key, Memory, Puts, Reply, Tid};
use run_book::{Counters, Granted, Rival, RunBook};
use std::alloc::Global;

/// A local engine that grants every access, and tests a run when it is sealed. It keeps its runs in a book, and beside it for each
/// key who wrote it.
#[derive(Drop)]
pub struct ValidationEngine {
    book: RunBook,
    index: Index,
}

impl ValidationEngine {
    ghost use Rattle.std.specs.Prelude.{[], IfOk};
    ghost use Rattle.mdb_base.specs.declared.names.Engine.TheVariants.{Validation};
    ghost use Rattle.engine_contract.specs.Calls.{fresh_start};
    ghost use Rattle.validation_engine.specs.Stands.{Stands};

    /// An engine of a new site with these rows.
    pub fn new(alloc: Global, rows: &Puts) -> Result<Self, Memory>
        ensures { IfOk result (λ engine. Stands engine (fresh_start Validation rows.now) []) }
    {
        let counters = Counters {
            counter: 0,
            published: 0,
            owner: None,
        };
        let book = RunBook::start(alloc, rows, &[], counters)?;
        Ok(ValidationEngine {
            book,
            index: Index::new(alloc),
        })
    }
}

impl LocalEngine for ValidationEngine {
    ghost use Rattle.mdb_base.specs.declared.names.Engine.TheVariants.{Validation};
    ghost use Rattle.validation_engine.specs.Stands.{Stands};

    ghost kind = { λ _. Validation };

    ghost stands = { Stands };

    ghost of_kind = { λ engine start lines stood. stood.keeps.keeps.of_kind };

    ghost starts = { λ engine start lines stood. stood.keeps.keeps.starts };

    ghost right = { λ engine start lines stood. stood.keeps.keeps.right };

    fn begin(&mut self, alloc: Global, tid: Tid) -> Result<u64, Memory> {
        self.book.begin(alloc, tid)
    }

    fn read(&mut self, _alloc: Global, tid: Tid, key: Key) -> Result<Reply, Memory> {
        let value = self.book.value_for(tid, key);
        self.book.grant(tid, Granted::read(key, value))?;
        Ok(Reply::Value(value))
    }

    fn write(&mut self, _alloc: Global, tid: Tid, key: Key, value: u64) -> Result<Reply, Memory> {
        self.index.add(key)?;
        self.book.grant(tid, Granted::write(key, value))?;
        Ok(Reply::Done)
    }

    fn take(&mut self, alloc: Global, tid: Tid) -> Result<Reply, Memory> {
        let ticket = self.book.take(alloc, tid)?;
        Ok(Reply::Ticket(ticket))
    }

    fn seal(&mut self, alloc: Global, tid: Tid) -> Result<Sealed, SealErr> {
        let counters = self.book.counters();
        let run = self.book.run(tid);
        if let Some(why) = seal_stop(&self.index, counters, run) {
            let _refused = self.book.take_out(tid);
            return Err(SealErr::Refused(why));
        }
        let writes = run.puts(alloc)?;
        let ticket = run.ticket();
        let number = counters.counter + 1;
        self.book.seal(alloc, tid, number)?;
        let writer = Rival { tid, rank: number };
        self.index
            .change(self.book.run(tid), Change::Sealed(writer));
        Ok(Sealed {
            number,
            ticket,
            writes,
        })
    }

    fn unbegin(&mut self, tid: Tid) {
        self.book.unbegin(tid);
    }

    fn unseal(&mut self, tid: Tid) {
        self.book.unseal(tid);
        self.index.change(self.book.run(tid), Change::Withdrawn);
    }

    fn commit(&mut self, tid: Tid) {
        let run = self.book.commit(tid);
        let ended = Ended {
            tid: run.tid(),
            number: run.number(),
            moment: self.book.counters().counter,
        };
        self.index.change(&run, Change::Committed(ended));
    }

    fn abort(&mut self, tid: Tid) {
        let run = self.book.take_out(tid);
        if run.sealed().is_some() {
            self.index.change(&run, Change::Withdrawn);
        }
    }

    fn restart(
        &mut self,
        alloc: Global,
        rows: &Puts,
        doubtful: &[Kept],
        counter: u64,
        published: u64,
        owner: Option<Tid>,
    ) -> Result<(), Memory> {
        let counters = Counters {
            counter,
            published,
            owner,
        };
        let index = writers_in_doubt(alloc, doubtful)?;
        self.book = RunBook::start(alloc, rows, doubtful, counters)?;
        self.index = index;
        Ok(())
    }

    fn rows(&self, alloc: Global) -> Result<Puts, Memory> {
        self.book.rows(alloc)
    }
}
