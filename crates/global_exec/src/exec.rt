//! The table and its calls.
ghost use Rattle.std.specs.Prelude.{◌≡◌, ◌<◌, map, reverse, length, slice_get, Some, None, [], ◌∷◌, ◌++◌, IfOk, IsTrue, OnOk, OnErr};
ghost use Rattle.mdb_base.specs.Words.{first_where, holds_of, map_some, or_else};
ghost use Rattle.mdb_base.specs.Names.{same_tx};
ghost use Rattle.indexmap.specs.IndexMap.{values};
ghost use Rattle.global_exec.specs.Counted as counted;
ghost use Rattle.global_exec.specs.Firsts.{replaced, taken_out};
ghost use Rattle.global_exec.specs.Live as spec;
ghost use Rattle.global_exec.specs.declared.ends.DidEnd.TheVariants as Did;

use crate::attempt::Attempt;
use crate::ends::DidEnd;
use crate::entries::{Entries, Name, add, at, find, take_out};
use fed_rules::Dues;
use indexmap::IndexMap;
use mdb_base::{Memory, Program, Reply, SiteId, Tid, Tx};
use std::alloc::Global;
use std::marker::Model;

/// The undecided attempts of the coordinator, seen as a list in order of submission.
#[derive(Drop)]
pub struct GlobalExec {
    attempts: Entries,
}

impl Model for GlobalExec {
    ghost use Rattle.std.specs.Prelude.{List};
    ghost use Rattle.indexmap.specs.IndexMap.{values};
    ghost use Rattle.global_exec.specs.Entries.{AreNamed};
    ghost use Rattle.global_exec.specs.Live.{Live};

    ghost Value = { List Live };

    ghost view = { λ e. values e.attempts };

    ghost invariant = { λ e. AreNamed e.attempts.entries };
}

/// The last attempt of the transaction.
fn last_of(attempts: &Entries, tx: Tx) -> Option<Tid>
    ensures { result ≡ first_where (λ tid. same_tx tid.tx tx) (reverse (map (λ live. live.tid) (values attempts.now))) }
{
    let mut last = None;
    for place in 0..attempts.len() {
        let tid = at(attempts, place).tid();
        if tid.tx == tx {
            last = Some(tid);
        }
    }
    last
}

impl GlobalExec {
    /// A table without attempts.
    pub fn new(alloc: Global) -> Result<GlobalExec, Memory>
        ensures { IfOk result (λ exec. exec ≡ []) }
    {
        Ok(GlobalExec {
            attempts: IndexMap::new(alloc),
        })
    }

    /// How many attempts there are. No two have one name.
    pub fn len(&self) -> usize
        ensures count { result ≡ length self.now }
        ensures apart { spec.AreApart (map (λ live. live.tid) self.now) }
    {
        self.attempts.len()
    }

    /// The attempt at this place, counted from 0 in order of submission.
    pub fn at(&self, place: usize) -> &Attempt
        requires { place < length self.now }
        ensures { slice_get self.now place ≡ Some result.now }
    {
        at(&self.attempts, place)
    }

    /// Takes all attempts out.
    pub fn clear(&mut self)
        ensures { self.new ≡ [] }
    {
        self.attempts.clear();
    }

    /// Adds an attempt that isn't in the table, and gives what is outstanding for it: the work of its first step. Without memory the
    /// table stays as it was.
    pub fn submit(&mut self, alloc: Global, tid: Tid, program: Program) -> Result<Dues, Memory>
        requires { spec.live_of tid self.old ≡ None }
        ensures dues { IfOk result (λ dues. dues ≡ spec.all_due (spec.submitted tid program)) }
        ensures table { OnOk result (self.new ≡ self.old ++ spec.submitted tid program ∷ []) }
        ensures kept { OnErr result (self.new ≡ self.old) }
    {
        let attempt = Attempt::new(alloc, tid, program)?;
        let dues = attempt.outstanding(alloc)?;
        add(&mut self.attempts, attempt)?;
        Ok(dues)
    }

    /// All that is outstanding for the attempt, by rising site; nothing where it isn't listed.
    pub fn outstanding(&self, alloc: Global, tid: Tid) -> Result<Dues, Memory>
        ensures { IfOk result (λ dues. dues ≡ or_else (map_some spec.all_due (spec.live_of tid self.now)) []) }
    {
        match find(&self.attempts, tid) {
            Some(attempt) => attempt.outstanding(alloc),
            None => Ok(Dues::none()),
        }
    }

    /// What a site's reply comes to. It counts where an operation with its count is outstanding at its site, the operation can have the
    /// reply, and its epoch is the attempt's there, or that one is 0. A reply that counts and is no wait and no refusal gives what becomes
    /// outstanding by it. Without memory nothing is answered.
    pub fn answers(
        &self,
        alloc: Global,
        tid: Tid,
        site: SiteId,
        epoch: u32,
        n: u8,
        reply: Reply,
    ) -> Result<DidEnd, Memory>
        ensures { IfOk result (λ end. end ≡ or_else (map_some (counted.did_end site epoch n reply) (spec.live_of tid self.now)) Did.Ignored) }
    {
        match find(&self.attempts, tid) {
            Some(attempt) => attempt.answers(alloc, site, epoch, n, reply),
            None => Ok(DidEnd::Ignored),
        }
    }

    /// What becomes outstanding by a site's reply that counts and is no wait and no refusal. Without memory nothing is answered.
    pub fn news(
        &self,
        alloc: Global,
        tid: Tid,
        site: SiteId,
        epoch: u32,
        n: u8,
        reply: Reply,
    ) -> Result<Dues, Memory>
        requires counts { IsTrue (holds_of (counted.counts site epoch n reply) (spec.live_of tid self.now)) }
        requires answers { IsTrue (counted.is_answer reply) }
        ensures { IfOk result (λ dues. dues ≡ or_else (map_some (counted.news_by site epoch reply) (spec.live_of tid self.now)) []) }
    {
        match find(&self.attempts, tid) {
            Some(attempt) => attempt.news(alloc, site, epoch, n, reply),
            None => Ok(Dues::none()),
        }
    }

    /// Takes a site's reply, as `answers` counts it, without memory: a wait fixes the epoch, a refusal and Unknown change nothing here,
    /// and another reply is answered.
    pub fn take(&mut self, tid: Tid, site: SiteId, epoch: u32, n: u8, reply: Reply)
        ensures { self.new ≡ replaced (spec.is_of tid) (counted.after_did site epoch n reply) self.old }
    {
        let attempt = match self.attempts.get_mut(&Name::of(tid)) {
            Some(attempt) => attempt,
            None => return,
        };
        attempt.take(site, epoch, n, reply);
    }

    /// Takes a site's reply, and answers what it comes to: `answers` and then `take`. Without memory the table stays as it was.
    pub fn did(
        &mut self,
        alloc: Global,
        tid: Tid,
        site: SiteId,
        epoch: u32,
        n: u8,
        reply: Reply,
    ) -> Result<DidEnd, Memory>
        ensures end { IfOk result (λ end. end ≡ or_else (map_some (counted.did_end site epoch n reply) (spec.live_of tid self.old)) Did.Ignored) }
        ensures table { OnOk result (self.new ≡ replaced (spec.is_of tid) (counted.after_did site epoch n reply) self.old) }
        ensures kept { OnErr result (self.new ≡ self.old) }
    {
        let end = self.answers(alloc, tid, site, epoch, n, reply)?;
        self.take(tid, site, epoch, n, reply);
        Ok(end)
    }

    /// Whether a site's reply counts, as `did` takes it.
    pub fn counts(&self, tid: Tid, site: SiteId, epoch: u32, n: u8, reply: Reply) -> bool
        ensures { result ≡ holds_of (counted.counts site epoch n reply) (spec.live_of tid self.now) }
    {
        match find(&self.attempts, tid) {
            Some(attempt) => attempt.counts(site, epoch, n, reply),
            None => false,
        }
    }

    /// Whether a Prepare is outstanding at the site.
    pub fn awaits_vote(&self, tid: Tid, site: SiteId) -> bool
        ensures { result ≡ holds_of (spec.awaits_vote site) (spec.live_of tid self.now) }
    {
        match find(&self.attempts, tid) {
            Some(attempt) => attempt.awaits_vote(site),
            None => false,
        }
    }

    /// The last submitted attempt of the transaction.
    pub fn running(&self, tx: Tx) -> Option<Tid>
        ensures { result ≡ first_where (λ tid. same_tx tid.tx tx) (reverse (map (λ live. live.tid) self.now)) }
    {
        last_of(&self.attempts, tx)
    }

    /// The values that the attempt read, in program order; none where it isn't listed.
    pub fn reads(&self, tid: Tid) -> &[u64]
        ensures { result.now ≡ or_else (map_some spec.reads_of_live (spec.live_of tid self.now)) [] }
    {
        match find(&self.attempts, tid) {
            Some(attempt) => attempt.reads(),
            None => &[],
        }
    }

    /// Notes a yes vote that counted, after which no Prepare is outstanding at the site.
    pub fn voted(&mut self, tid: Tid, site: SiteId)
        ensures { self.new ≡ replaced (spec.is_of tid) (spec.voted site) self.old }
    {
        let attempt = match self.attempts.get_mut(&Name::of(tid)) {
            Some(attempt) => attempt,
            None => return,
        };
        attempt.vote(site);
    }

    /// Takes the attempt out.
    pub fn refuse(&mut self, tid: Tid)
        ensures { self.new ≡ taken_out (spec.is_of tid) self.old }
    {
        take_out(&mut self.attempts, tid);
    }
}
