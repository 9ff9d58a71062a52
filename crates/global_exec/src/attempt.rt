//! An undecided attempt.
ghost use Rattle.std.specs.Prelude.{◌≡◌, ◌<◌, ◌≤◌, ◌++◌, [], length, IsTrue, IfOk, IfSome, OnOk, OnErr, vec_len, ◌+◌, option_to_list};
ghost use Rattle.std.specs.Vec.{vec_capacity};
ghost use Rattle.mdb_base.specs.declared.names.SiteId.{SiteId as TheSite};
ghost use Rattle.mdb_base.specs.Words.{Each, found, some_of};
ghost use Rattle.global_exec.specs.Sets.{has_site};
ghost use Rattle.global_exec.specs.Counted as counted;
ghost use Rattle.global_exec.specs.Firsts.{place_where, replaced};
ghost use Rattle.global_exec.specs.Live as spec;
ghost use Rattle.global_exec.specs.declared.ends.DidEnd.TheVariants as Did;

use crate::ends::DidEnd;
use crate::following::next_behind;
use crate::news::{news, put_some};
use crate::policy::SiteSet;
use crate::progress::{Progress, fits, is_due_vote, steps_of, visits};
use fed_rules::Dues;
use mdb_base::{Few, Memory, Program, Reply, SiteId, Step, Tid};
use std::alloc::Global;
use std::marker::Model;

/// The sites that there can be.
const ALL_SITES: [SiteId; 8] = [
    SiteId(1),
    SiteId(2),
    SiteId(3),
    SiteId(4),
    SiteId(5),
    SiteId(6),
    SiteId(7),
    SiteId(8),
];

/// An undecided attempt: its program, the values that it read, how many of its steps were answered, and its participants.
#[derive(Drop)]
pub struct Attempt {
    tid: Tid,
    program: Program,
    reads: Vec<u64>,
    done: usize,
    sites: Vec<Progress>,
}

impl Model for Attempt {
    ghost use Rattle.std.specs.Prelude.{◌≤◌, length};
    ghost use Rattle.std.specs.Vec.{vec_capacity};
    ghost use Rattle.global_exec.specs.Live.{IsLive, Live};

    ghost Value = { Live };

    ghost view = { λ a. record { tid = a.tid; program = a.program; reads = a.reads.items; done = a.done; sites = a.sites.items } };

    ghost invariant = { λ a. IsLive (record { tid = a.tid; program = a.program; reads = a.reads.items; done = a.done; sites = a.sites.items }) × (length a.program ≤ vec_capacity a.reads) };
}

/// The participants of a program, by rising site, before their first replies.
fn sites_of(alloc: Global, steps: &[Step]) -> Result<Vec<Progress>, Memory>
    ensures { IfOk result (λ sites. sites.items ≡ found (spec.fresh_at steps.now) spec.all_sites) }
{
    let mut sites = Vec::new(alloc);
    for site in &ALL_SITES {
        if !visits(steps, *site) {
            continue;
        }
        sites.push(Progress::fresh(*site))?;
    }
    Ok(sites)
}

/// The place of the participant at the site.
fn place_of(sites: &[Progress], site: SiteId) -> Option<usize>
    ensures place { result ≡ place_where (spec.is_at site) sites.now }
    ensures within { IfSome result (λ place. place < length sites.now) }
{
    for (place, progress) in sites.iter().enumerate() {
        if progress.site == site {
            return Some(place);
        }
    }
    None
}

/// Notes the epoch of the site's wait.
fn wait_at(sites: &mut [Progress], site: SiteId, epoch: u32)
    ensures { sites.new ≡ replaced (spec.is_at site) (counted.with_epoch epoch) sites.old }
{
    let place = match place_of(sites, site) {
        Some(place) => place,
        None => return,
    };
    sites[place].epoch = epoch;
}

/// Notes the site's yes vote.
fn vote_at(sites: &mut [Progress], site: SiteId)
    ensures { sites.new ≡ replaced (spec.is_at site) spec.with_vote sites.old }
{
    let place = match place_of(sites, site) {
        Some(place) => place,
        None => return,
    };
    sites[place].voted = true;
}

/// Counts one more reply of the site, with this epoch.
fn answer_at(sites: &mut [Progress], site: SiteId, epoch: u32, reply: Reply)
    requires { Each counted.HasRoom sites.old }
    ensures { sites.new ≡ replaced (spec.is_at site) (counted.answered epoch reply) sites.old }
{
    let place = match place_of(sites, site) {
        Some(place) => place,
        None => return,
    };
    sites[place] = sites[place].answered(epoch, reply);
}

/// Adds the value that was read, where there is room.
fn put_value(reads: &mut Vec<u64>, reply: Reply)
    requires { vec_len reads.old + length (counted.value_of reply) ≤ vec_capacity reads.old }
    ensures items { reads.new.items ≡ reads.old.items ++ counted.value_of reply }
    ensures room { vec_capacity reads.new ≡ vec_capacity reads.old }
{
    if let Reply::Value(value) = reply {
        reads.push_reserved(value);
    }
}

impl Attempt {
    /// An attempt before its first reply.
    pub(crate) fn new(alloc: Global, tid: Tid, program: Program) -> Result<Attempt, Memory>
        ensures { IfOk result (λ attempt. attempt ≡ spec.submitted tid program) }
    {
        let sites = sites_of(alloc, program.steps())?;
        let reads = Vec::with_capacity(alloc, program.len())?;
        Ok(Attempt {
            tid,
            program,
            reads,
            done: 0,
            sites,
        })
    }

    /// The attempt's name.
    pub fn tid(&self) -> Tid
        ensures { result ≡ self.now.tid }
    {
        self.tid
    }

    /// The values that it read, in program order.
    pub fn reads(&self) -> &[u64]
        ensures { result.now ≡ self.now.reads }
    {
        self.reads.as_slice()
    }

    /// All that is outstanding.
    pub(crate) fn outstanding(&self, alloc: Global) -> Result<Dues, Memory>
        ensures { IfOk result (λ dues. dues ≡ spec.all_due self.now) }
    {
        let mut dues = Few::none();
        for progress in &self.sites {
            let due = progress.due(&self.program, self.done, self.reads.as_slice());
            put_some(alloc, &mut dues, due)?;
        }
        Ok(Dues::of_few(dues))
    }

    /// The sites of its participants, of 1 to 8.
    pub fn sites(&self) -> SiteSet
        ensures { (site : TheSite) → 1 ≤ site.0 → site.0 ≤ 8 → has_site result site ≡ some_of (spec.is_at site) self.now.sites }
    {
        let mut set = SiteSet::none();
        for progress in &self.sites {
            set = set.with(progress.site);
        }
        set
    }

    /// Notes the site's yes vote.
    pub(crate) fn vote(&mut self, site: SiteId)
        ensures { self.new ≡ spec.voted site self.old }
    {
        vote_at(&mut self.sites, site);
    }

    /// Whether a reply of the site counts.
    pub(crate) fn counts(&self, site: SiteId, epoch: u32, n: u8, reply: Reply) -> bool
        ensures { result ≡ counted.counts site epoch n reply self.now }
    {
        let place = match place_of(self.sites.as_slice(), site) {
            Some(place) => place,
            None => return false,
        };
        let progress = self.sites[place];
        let due = progress.due(&self.program, self.done, self.reads.as_slice());
        if !fits(due, n, reply) {
            return false;
        }
        progress.knows(epoch)
    }

    /// Whether a Prepare is outstanding at the site.
    pub(crate) fn awaits_vote(&self, site: SiteId) -> bool
        ensures { result ≡ spec.awaits_vote site self.now }
    {
        let place = match place_of(self.sites.as_slice(), site) {
            Some(place) => place,
            None => return false,
        };
        let progress = self.sites[place];
        is_due_vote(progress.due(&self.program, self.done, self.reads.as_slice()))
    }

    /// Notes the epoch of the site's wait.
    fn wait(&mut self, site: SiteId, epoch: u32)
        ensures { self.new ≡ counted.waited site epoch self.old }
    {
        wait_at(&mut self.sites, site, epoch);
    }

    /// Counts an answer of the site other than a wait and a refusal, which counts by its epoch and count.
    fn advance(&mut self, site: SiteId, epoch: u32, n: u8, reply: Reply)
        requires counts { IsTrue (counted.counts site epoch n reply self.old) }
        requires answers { IsTrue (counted.is_answer reply) }
        ensures { self.new ≡ counted.advanced site epoch reply self.old }
    {
        put_value(&mut self.reads, reply);
        answer_at(&mut self.sites, site, epoch, reply);
        self.done += steps_of(reply);
    }

    /// What becomes outstanding by an answer of the site other than a wait and a refusal, which counts by its epoch and count.
    pub(crate) fn news(
        &self,
        alloc: Global,
        site: SiteId,
        epoch: u32,
        n: u8,
        reply: Reply,
    ) -> Result<Dues, Memory>
        requires counts { IsTrue (counted.counts site epoch n reply self.now) }
        requires answers { IsTrue (counted.is_answer reply) }
        ensures { IfOk result (λ dues. dues ≡ counted.news_by site epoch reply self.now) }
    {
        let done = self.done + steps_of(reply);
        let next = next_behind(&self.program, done, self.reads.as_slice(), reply);
        news(
            alloc,
            &self.program.steps()[done..],
            next,
            self.sites.as_slice(),
            site,
            epoch,
            reply,
        )
    }

    /// What a site's reply comes to.
    pub(crate) fn answers(
        &self,
        alloc: Global,
        site: SiteId,
        epoch: u32,
        n: u8,
        reply: Reply,
    ) -> Result<DidEnd, Memory>
        ensures { IfOk result (λ end. end ≡ counted.did_end site epoch n reply self.now) }
    {
        if !self.counts(site, epoch, n, reply) {
            return Ok(DidEnd::Ignored);
        }
        match reply {
            Reply::Wait { .. } => Ok(DidEnd::Waits),
            Reply::Refused(_) | Reply::Unknown => Ok(DidEnd::Refused),
            Reply::Done | Reply::Value(_) | Reply::Ticket(_) => {
                Ok(DidEnd::Next(self.news(alloc, site, epoch, n, reply)?))
            }
        }
    }

    /// Takes a site's reply, if it counts.
    pub(crate) fn take(&mut self, site: SiteId, epoch: u32, n: u8, reply: Reply)
        ensures { self.new ≡ counted.after_did site epoch n reply self.old }
    {
        if !self.counts(site, epoch, n, reply) {
            return;
        }
        match reply {
            Reply::Wait { .. } => self.wait(site, epoch),
            Reply::Refused(_) | Reply::Unknown => {}
            Reply::Done | Reply::Value(_) | Reply::Ticket(_) => self.advance(site, epoch, n, reply),
        }
    }
}
