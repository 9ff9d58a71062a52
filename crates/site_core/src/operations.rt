//! The operations of a global transaction: its acts, and the taking of its ticket.
ghost use Rattle.std.specs.Prelude.{◌≡◌, IfOk, IfErr, OnErr, Some, None, Ok};
ghost use Rattle.std.specs.Option.{option_copied};
ghost use Rattle.fed_rules.specs.Site.{of_take, of_work};
ghost use Rattle.fed_rules.specs.declared.answers.Answer.TheVariants as Say;
ghost use Rattle.fed_rules.specs.declared.messages.FromSite.TheVariants as From;
ghost use Rattle.site_book.specs.Book.{live_in};
ghost use Rattle.site_core.specs.Operations.{taken_again, worked_again};
ghost use Rattle.site_core.specs.Stands.{Holds, Remembers};
ghost use Rattle.site_core.specs.Steps.{AddsWhere, CanTakeTicket, CanWork, EachPast, SomePast};

use crate::locals::access;
use crate::site::SiteCore;
use actor_store::{Standing, StepErr};
use engine_contract::LocalEngine;
use fed_rules::{Answer, FromSite, SiteStep};
use mdb_base::{PlainAct, Reply, Tid};
use site_book::LiveRun;
use std::alloc::Global;

impl<E: LocalEngine> SiteCore<E> {
    /// An act of a subtransaction as its operation `n`: the first one, in epoch 0, begins it, and a later one names an epoch of the site.
    pub(crate) fn work(
        &mut self,
        alloc: Global,
        tid: Tid,
        epoch: u32,
        n: u8,
        act: PlainAct,
    ) -> Result<SiteStep, StepErr>
        requires up { self.old.store.standing ≡ Standing.Up }
        requires may { SomePast (Holds E.stands self.old) (CanWork tid) }
        ensures answered { IfOk result (AddsWhere E.stands self.old self.new (CanWork tid) (λ home past. of_work home past tid epoch n act)) }
        ensures memory { OnErr result (EachPast (Holds E.stands self.old) (Remembers E.stands self.new)) }
        ensures want { IfErr result (λ why. why ≡ StepErr.Memory) }
        ensures store { self.new.store ≡ self.old.store }
    {
        let live = self.book.live(tid);
        if live.is_none() {
            return self.first_work(alloc, tid, epoch, n, act);
        }
        if let Some(reply) = worked_again(live, self.epoch, epoch, n) {
            return self.did(tid, n, reply);
        }
        let reply = access(&mut self.engine, alloc, tid, act)?;
        self.book.note_reply(tid, act, reply);
        self.did(tid, n, reply)
    }

    /// An act of an attempt that isn't live: the first one of a new subtransaction begins it, and any other one is unknown.
    fn first_work(
        &mut self,
        alloc: Global,
        tid: Tid,
        epoch: u32,
        n: u8,
        act: PlainAct,
    ) -> Result<SiteStep, StepErr>
        requires up { self.old.store.standing ≡ Standing.Up }
        requires not_live { live_in self.old.book tid ≡ None }
        requires may { SomePast (Holds E.stands self.old) (CanWork tid) }
        ensures answered { IfOk result (AddsWhere E.stands self.old self.new (CanWork tid) (λ home past. of_work home past tid epoch n act)) }
        ensures memory { OnErr result (EachPast (Holds E.stands self.old) (Remembers E.stands self.new)) }
        ensures want { IfErr result (λ why. why ≡ StepErr.Memory) }
        ensures store { self.new.store ≡ self.old.store }
    {
        if self.book.has_entry(tid) || epoch != 0 || n != 0 {
            return self.did(tid, n, Reply::Unknown);
        }
        self.book.begin_global(alloc, tid)?;
        let Ok(_) = self.engine.begin(alloc, tid) else {
            self.book.forget(tid);
            return Err(StepErr::Memory);
        };
        let Ok(reply) = access(&mut self.engine, alloc, tid, act) else {
            self.engine.unbegin(tid);
            self.book.forget(tid);
            return Err(StepErr::Memory);
        };
        self.book.note_reply(tid, act, reply);
        self.did(tid, n, reply)
    }

    /// A live subtransaction takes the site's ticket as its operation `n`, in an epoch of the site, or as the first one in epoch 0.
    pub(crate) fn take(
        &mut self,
        alloc: Global,
        tid: Tid,
        epoch: u32,
        n: u8,
    ) -> Result<SiteStep, StepErr>
        requires up { self.old.store.standing ≡ Standing.Up }
        requires may { SomePast (Holds E.stands self.old) (CanTakeTicket tid) }
        ensures answered { IfOk result (AddsWhere E.stands self.old self.new (CanTakeTicket tid) (λ home past. of_take home past tid epoch n)) }
        ensures memory { OnErr result (EachPast (Holds E.stands self.old) (Remembers E.stands self.new)) }
        ensures want { IfErr result (λ why. why ≡ StepErr.Memory) }
        ensures store { self.new.store ≡ self.old.store }
    {
        if let Some(reply) = taken_again(self.book.live(tid), self.epoch, epoch, n) {
            return self.did(tid, n, reply);
        }
        let reply = self.engine.take(alloc, tid)?;
        self.book.note_take(tid, reply);
        self.did(tid, n, reply)
    }

    /// The answer to an operation, which names the epoch of the site.
    fn did(&self, tid: Tid, n: u8, reply: Reply) -> Result<SiteStep, StepErr>
        ensures { result ≡ Ok (record { answer = Say.Did tid reply; sends = Some (From.Did tid self.now.epoch n reply) }) }
    {
        Ok(SiteStep {
            answer: Answer::Did(tid, reply),
            sends: Some(FromSite::Did {
                tid,
                epoch: self.epoch,
                n,
                reply,
            }),
        })
    }
}

/// The reply to an act that is not the next operation of a live attempt: that of the last finished one again, or unknown.
fn worked_again(live: Option<&LiveRun>, here: u32, epoch: u32, n: u8) -> Option<Reply>
    ensures { result ≡ worked_again (option_copied live.entry) here epoch n }
{
    let Some(run) = live else {
        return Some(Reply::Unknown);
    };
    let n = u32::from(n);
    let done = run.done();
    if !(epoch == here || (epoch == 0 && n == 0)) || run.has_ticket() || n > 31 {
        return Some(Reply::Unknown);
    }
    if n == done {
        return None;
    }
    if n + 1 == done {
        Some(run.reply())
    } else {
        Some(Reply::Unknown)
    }
}

/// The reply to a taking of the ticket that is not the next operation of a live attempt: that of the last finished one again, or
/// unknown.
fn taken_again(live: Option<&LiveRun>, here: u32, epoch: u32, n: u8) -> Option<Reply>
    ensures { result ≡ taken_again (option_copied live.entry) here epoch n }
{
    let Some(run) = live else {
        return Some(Reply::Unknown);
    };
    let n = u32::from(n);
    let done = run.done();
    if !(epoch == here || (epoch == 0 && n == 0)) || (run.has_ticket() && n == done) {
        return Some(Reply::Unknown);
    }
    if n == done {
        return None;
    }
    if n + 1 == done {
        Some(run.reply())
    } else {
        Some(Reply::Unknown)
    }
}
