//! The book of a site's transactions.
ghost use Rattle.std.specs.Prelude.{◌≡◌, ◌<◌, None, Some, IfOk, IfSome, IsSome, IsTrue, OnOk, OnErr, is_some, nat_lt};
ghost use Rattle.std.specs.Option.{option_copied};
ghost use Rattle.mdb_base.specs.Words.{holds_of};
ghost use Rattle.site_book.specs.declared.progress.Progress.TheVariants as Is;
ghost use Rattle.site_book.specs.Book.{begins_global, begins_local, begun_in, blank, closes, commits_local, committed_in, enters, forgets, is_closed_in, is_sealed_in, live_in, notes_reply, notes_take, progress_of, restarted, running_in, runs_local, seals, stopped, unbegins_local};
ghost use Rattle.site_book.specs.Listing.{Lists, is_live_in};

use crate::attempt_map::{self, Attempts};
use crate::live_run::LiveRun;
use crate::local_map;
use crate::progress::{Progress, Standing};
use mdb_base::{Memory, PlainAct, Reply, Tid, Tx};
use std::alloc::Global;
use std::collections::HashMap;
use std::marker::Model;

/// How far each attempt of this epoch is, in a hash map, and in lists by number how each local transaction stands, and how many attempts
/// of each were begun behind the first. A queried entry, a begin and a change each take a time that doesn't grow with how many attempts
/// are kept, and a list is made longer where the number of a transaction is beyond its end. What may take memory changes nothing where
/// there is none, and has a call that takes it back.
#[derive(Drop)]
pub struct SiteBook {
    attempts: Attempts,
    locals: Vec<Option<Standing>>,
    again: Vec<Option<u8>>,
}

impl Model for SiteBook {
    ghost use Rattle.std.specs.Coded.{codes};
    ghost use Rattle.std.specs.FinMap.{code};
    ghost use Rattle.site_book.specs.Book.{Book};
    ghost use Rattle.site_book.specs.Named.{kept_in};
    ghost use Rattle.site_book.specs.Numbered.{by_number};

    ghost Value = { Book };

    ghost coded = { Prim.hlevel (codes, code) };

    ghost view = { λ b. record {
      attempts = kept_in b.attempts.entries;
      locals = by_number b.locals.items;
      again = by_number b.again.items;
    } };
}

impl SiteBook {
    /// The book of a site where nothing was begun.
    pub fn new(alloc: Global) -> Self
        ensures { result ≡ blank }
    {
        SiteBook {
            attempts: HashMap::new(alloc),
            locals: Vec::new(alloc),
            again: Vec::new(alloc),
        }
    }

    /// What is noted of the attempt, where it is live.
    pub fn live(&self, tid: Tid) -> Option<&LiveRun>
        ensures { option_copied result ≡ live_in self.now tid }
    {
        match attempt_map::find(&self.attempts, tid) {
            Some(Progress::Live(run)) => Some(run),
            _ => None,
        }
    }

    /// The live attempts, by rising attempt.
    pub fn live_tids(&self, alloc: Global) -> Result<Vec<Tid>, Memory>
        ensures { IfOk result (λ tids. Lists (is_live_in self.now.attempts) tids.items) }
    {
        attempt_map::live_tids(&self.attempts, alloc)
    }

    /// Whether the attempt has an entry: it is live, sealed or closed.
    pub fn has_entry(&self, tid: Tid) -> bool
        ensures { result ≡ is_some (progress_of self.now tid) }
    {
        attempt_map::find(&self.attempts, tid).is_some()
    }

    /// Whether the attempt is live with fewer than 32 granted accesses, so that the reply to a further one can be noted.
    pub fn takes_access(&self, tid: Tid) -> bool
        ensures live { IsTrue result → IsSome (live_in self.now tid) }
        ensures few { IsTrue result → IfSome (live_in self.now tid) (λ noted. noted.accesses < 32) }
        ensures full { result ≡ holds_of (λ noted. nat_lt noted.accesses 32) (live_in self.now tid) }
    {
        match self.live(tid) {
            Some(run) => run.accesses() < 32,
            None => false,
        }
    }

    /// Whether the attempt is sealed.
    pub fn is_sealed(&self, tid: Tid) -> bool
        ensures { result ≡ is_sealed_in self.now tid }
    {
        matches!(
            attempt_map::find(&self.attempts, tid),
            Some(Progress::Sealed)
        )
    }

    /// Whether the attempt is closed.
    pub fn is_closed(&self, tid: Tid) -> bool
        ensures { result ≡ is_closed_in self.now tid }
    {
        matches!(
            attempt_map::find(&self.attempts, tid),
            Some(Progress::Closed)
        )
    }

    /// The running attempt of the local transaction.
    pub fn running(&self, tx: Tx) -> Option<Tid>
        ensures { result ≡ running_in self.now tx }
    {
        match local_map::find(&self.locals, tx) {
            Some(Standing::Running(tid)) => Some(tid),
            _ => None,
        }
    }

    /// The committed attempt of the local transaction.
    pub fn committed(&self, tx: Tx) -> Option<Tid>
        ensures { result ≡ committed_in self.now tx }
    {
        match local_map::find(&self.locals, tx) {
            Some(Standing::Committed(tid)) => Some(tid),
            _ => None,
        }
    }

    /// How many attempts of the local transaction were begun.
    pub fn begun(&self, tx: Tx) -> u32
        ensures { result ≡ begun_in self.now tx }
    {
        local_map::begun(&self.again, tx)
    }

    /// Begins an attempt without an entry of a global transaction.
    pub fn begin_global(&mut self, alloc: Global, tid: Tid) -> Result<(), Memory>
        requires free { progress_of self.old tid ≡ None }
        ensures begun { OnOk result (self.new ≡ begins_global tid self.old) }
        ensures memory { OnErr result (self.new ≡ self.old) }
    {
        let run = LiveRun::begun(alloc)?;
        attempt_map::put(&mut self.attempts, tid, Progress::Live(run))
    }

    /// Closes an attempt without an entry, on which a decision was taken.
    pub fn close_unheld(&mut self, tid: Tid) -> Result<(), Memory>
        requires free { progress_of self.old tid ≡ None }
        ensures closed { OnOk result (self.new ≡ enters tid Is.Closed self.old) }
        ensures memory { OnErr result (self.new ≡ self.old) }
    {
        attempt_map::put(&mut self.attempts, tid, Progress::Closed)
    }

    /// Takes the entry of an attempt out: this takes `begin_global` and `close_unheld` back.
    pub fn forget(&mut self, tid: Tid)
        ensures { self.new ≡ forgets tid self.old }
    {
        attempt_map::take_out(&mut self.attempts, tid);
    }

    /// Begins an attempt without an entry of a local transaction that neither runs nor is committed. It is counted, at most 32 of
    /// them.
    pub fn begin_local(&mut self, alloc: Global, tid: Tid) -> Result<(), Memory>
        requires free { progress_of self.old tid ≡ None }
        requires idle { running_in self.old tid.tx ≡ None }
        requires uncommitted { committed_in self.old tid.tx ≡ None }
        requires few { begun_in self.old tid.tx < 32 }
        ensures begun { OnOk result (self.new ≡ begins_local tid self.old) }
        ensures memory { OnErr result (self.new ≡ self.old) }
    {
        self.begin_global(alloc, tid)?;
        if self.run_local(tid).is_err() {
            self.forget(tid);
            return Err(Memory);
        }
        Ok(())
    }

    /// The local transaction of the attempt runs in it, and the attempt is counted.
    fn run_local(&mut self, tid: Tid) -> Result<(), Memory>
        requires idle { running_in self.old tid.tx ≡ None }
        requires uncommitted { committed_in self.old tid.tx ≡ None }
        requires few { begun_in self.old tid.tx < 32 }
        ensures running { OnOk result (self.new ≡ runs_local tid self.old) }
        ensures memory { OnErr result (self.new ≡ self.old) }
    {
        local_map::put(&mut self.locals, tid.tx, Standing::Running(tid))?;
        if local_map::count(&mut self.again, tid.tx).is_err() {
            local_map::take_out(&mut self.locals, tid.tx);
            return Err(Memory);
        }
        Ok(())
    }

    /// Takes `begin_local` back.
    pub fn unbegin_local(&mut self, tid: Tid)
        ensures { self.new ≡ unbegins_local tid self.old }
    {
        self.forget(tid);
        local_map::take_out(&mut self.locals, tid.tx);
        local_map::uncount(&mut self.again, tid.tx);
    }

    /// Notes the reply to an access of a live attempt: a granted one is finished, a refused one closes the attempt, and a waiting one
    /// changes nothing.
    pub fn note_reply(&mut self, tid: Tid, act: PlainAct, reply: Reply)
        requires live { IsSome (live_in self.old tid) }
        requires few { IfSome (live_in self.old tid) (λ noted. noted.accesses < 32) }
        ensures { self.new ≡ notes_reply tid act reply self.old }
    {
        if let Reply::Refused(_) = reply {
            self.close(tid);
        } else {
            attempt_map::note_reply(&mut self.attempts, tid, act, reply);
        }
    }

    /// Notes the reply to the taking of the ticket by a live attempt: one that is given is kept, a refusal closes the attempt, and a
    /// waiting one changes nothing.
    pub fn note_take(&mut self, tid: Tid, reply: Reply)
        requires live { IsSome (live_in self.old tid) }
        ensures { self.new ≡ notes_take tid reply self.old }
    {
        match reply {
            Reply::Refused(_) => self.close(tid),
            _ => attempt_map::note_take(&mut self.attempts, tid, reply),
        }
    }

    /// Seals an attempt that has an entry, once its sealing can't be taken back any more.
    pub fn seal(&mut self, tid: Tid)
        requires { IsSome (progress_of self.old tid) }
        ensures { self.new ≡ seals tid self.old }
    {
        attempt_map::set(&mut self.attempts, tid, Progress::Sealed);
    }

    /// Closes an attempt that has an entry. Where its local transaction runs in it, that one has no running attempt then.
    pub fn close(&mut self, tid: Tid)
        requires { IsSome (progress_of self.old tid) }
        ensures { self.new ≡ closes tid self.old }
    {
        attempt_map::set(&mut self.attempts, tid, Progress::Closed);
        if let Some(Standing::Running(running)) = local_map::find(&self.locals, tid.tx) {
            if running == tid {
                local_map::take_out(&mut self.locals, tid.tx);
            }
        }
    }

    /// Closes the running attempt of a local transaction, which is committed by it.
    pub fn commit_local(&mut self, tid: Tid)
        requires entered { IsSome (progress_of self.old tid) }
        requires running { running_in self.old tid.tx ≡ Some tid }
        ensures { self.new ≡ commits_local tid self.old }
    {
        attempt_map::set(&mut self.attempts, tid, Progress::Closed);
        local_map::set(&mut self.locals, tid.tx, Standing::Committed(tid));
    }

    /// The site stops: no attempt has an entry, and no local transaction runs or is committed. What was begun stays counted.
    pub fn stop(&mut self, alloc: Global)
        ensures { self.new ≡ stopped self.old }
    {
        self.attempts = HashMap::new(alloc);
        self.locals = Vec::new(alloc);
    }

    /// The site starts again: these local attempts are committed, of several of one transaction the last in the list, and these
    /// attempts are sealed and in doubt. What was begun stays counted.
    pub fn restart(
        &mut self,
        alloc: Global,
        committed: &[Tid],
        doubtful: &[Tid],
    ) -> Result<(), Memory>
        ensures started { OnOk result (self.new ≡ restarted committed.now doubtful.now self.old) }
        ensures memory { OnErr result (self.new ≡ self.old) }
    {
        let attempts = attempt_map::sealed(alloc, doubtful)?;
        let locals = local_map::committed(alloc, committed)?;
        self.attempts = attempts;
        self.locals = locals;
        Ok(())
    }
}
