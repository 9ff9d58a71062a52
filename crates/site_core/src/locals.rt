//! The events of local attempts that call no disk.
ghost use Rattle.std.specs.Prelude.{◌≡◌, IfOk, IfErr, OnErr, IsOkAnd};
ghost use Rattle.fed_rules.specs.Runs.{Acts};
ghost use Rattle.fed_rules.specs.Site.{of_abort, of_act, of_begin, of_fate};
ghost use Rattle.engine_contract.specs.Past.{AddsLine, KeepsPast, SomePast as SomeLines};
ghost use Rattle.engine_contract.specs.Calls.{CanAct as CanRunAct};
ghost use Rattle.site_core.specs.Stands.{Holds, Remembers};
ghost use Rattle.site_core.specs.Steps.{AddsWhere, AnyPast, CanStep, EachPast, SomePast};

use crate::answers::{act_answer, said};
use crate::site::SiteCore;
use actor_store::{Standing, StepErr};
use engine_contract::LocalEngine;
use fed_rules::{Answer, SiteEvent, SiteStep};
use mdb_base::{Memory, PlainAct, Reply, Tid, Tx};
use std::alloc::Global;

impl<E: LocalEngine> SiteCore<E> {
    /// A local attempt begins, unless its transaction has committed or has a live attempt.
    pub(crate) fn begin(&mut self, alloc: Global, tid: Tid) -> Result<SiteStep, StepErr>
        requires up { self.old.store.standing ≡ Standing.Up }
        requires may { SomePast (Holds E.stands self.old) (CanStep (SiteEvent.Begin tid)) }
        ensures answered { IfOk result (AddsWhere E.stands self.old self.new (CanStep (SiteEvent.Begin tid)) (λ home past. of_begin home past tid)) }
        ensures memory { OnErr result (EachPast (Holds E.stands self.old) (Remembers E.stands self.new)) }
        ensures want { IfErr result (λ why. why ≡ StepErr.Memory) }
        ensures store { self.new.store ≡ self.old.store }
    {
        if let Some(committed) = self.book.committed(tid.tx) {
            return said(Answer::Committed(committed));
        }
        if let Some(running) = self.book.running(tid.tx) {
            return said(Answer::Running(running));
        }
        self.book.begin_local(alloc, tid)?;
        match self.engine.begin(alloc, tid) {
            Ok(_) => said(Answer::Begun(tid)),
            Err(Memory) => {
                self.book.unbegin_local(tid);
                Err(StepErr::Memory)
            }
        }
    }

    /// The next access of a local attempt.
    pub(crate) fn act(
        &mut self,
        alloc: Global,
        tid: Tid,
        act: PlainAct,
    ) -> Result<SiteStep, StepErr>
        requires up { self.old.store.standing ≡ Standing.Up }
        requires may { SomePast (Holds E.stands self.old) (CanStep (SiteEvent.Act tid act)) }
        ensures answered { IfOk result (AddsWhere E.stands self.old self.new AnyPast (λ home past. of_act home past tid act)) }
        ensures memory { OnErr result (EachPast (Holds E.stands self.old) (Remembers E.stands self.new)) }
        ensures want { IfErr result (λ why. why ≡ StepErr.Memory) }
        ensures store { self.new.store ≡ self.old.store }
    {
        if self.book.live(tid).is_none() {
            return said(Answer::Idle);
        }
        let reply = access(&mut self.engine, alloc, tid, act)?;
        self.book.note_reply(tid, act, reply);
        said(act_answer(reply, act))
    }

    /// A local attempt aborts.
    pub(crate) fn abort(&mut self, tid: Tid) -> Result<SiteStep, StepErr>
        requires up { self.old.store.standing ≡ Standing.Up }
        requires may { SomePast (Holds E.stands self.old) (CanStep (SiteEvent.Abort tid)) }
        ensures answered { IsOkAnd result (AddsWhere E.stands self.old self.new AnyPast (λ home past. of_abort home past tid)) }
        ensures store { self.new.store ≡ self.old.store }
    {
        if self.book.live(tid).is_none() {
            return said(Answer::Idle);
        }
        self.engine.abort(tid);
        self.book.close(tid);
        said(Answer::Aborted(tid))
    }

    /// How a local transaction ended.
    pub(crate) fn fate(&self, tx: Tx) -> Result<SiteStep, StepErr>
        requires up { self.now.store.standing ≡ Standing.Up }
        ensures { IsOkAnd result (AddsWhere E.stands self.now self.now (CanStep (SiteEvent.Fate tx)) (λ home past. of_fate home past tx)) }
    {
        if let Some(committed) = self.book.committed(tx) {
            return said(Answer::Committed(committed));
        }
        if let Some(running) = self.book.running(tx) {
            return said(Answer::Running(running));
        }
        if self.book.begun(tx) == 0 {
            said(Answer::Unbegun)
        } else {
            said(Answer::Ended)
        }
    }
}

/// Reads or writes a key for a live run.
pub(crate) fn access<E: LocalEngine>(
    engine: &mut E,
    alloc: Global,
    tid: Tid,
    act: PlainAct,
) -> Result<Reply, Memory>
    requires { SomeLines E.stands engine.old (CanRunAct tid) }
    ensures answered { IfOk result (λ reply. AddsLine E.stands engine.old (Acts tid act reply) engine.new) }
    ensures memory { OnErr result (KeepsPast E.stands engine.old engine.new) }
{
    match act {
        PlainAct::Read(key) => engine.read(alloc, tid, key),
        PlainAct::Write(key, value) => engine.write(alloc, tid, key, value),
    }
}
