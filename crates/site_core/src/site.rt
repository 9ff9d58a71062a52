//! The core of a site and its step.
ghost use Rattle.std.specs.Prelude.{◌≡◌, ◌≤◌, [], false, length, reverse, is_some, IfOk, IfErr, IsErrOf, IsTrue};
ghost use Rattle.std.specs.Option.{option_copied};
ghost use Rattle.mdb_base.specs.Counts.{HasCauseOf};
ghost use Rattle.mdb_base.specs.Words.{map_some};
ghost use Rattle.mdb_base.specs.declared.names.Tid.{Tid};
ghost use Rattle.record_fields.specs.Named.{IsSite};
ghost use Rattle.fed_rules.specs.declared.records.SiteRecord.{SiteRecord};
ghost use Rattle.fed_rules.specs.Disk.{empty_disk};
ghost use Rattle.fed_rules.specs.Found.{Journal};
ghost use Rattle.fed_rules.specs.Reopened.{opened_site};
ghost use Rattle.fed_rules.specs.SiteRecords.{Home};
ghost use Rattle.fed_rules.specs.Happenings.{is_down};
ghost use Rattle.fed_rules.specs.Runs.{rows as rows_after};
ghost use Rattle.fed_rules.specs.Site.{site_line};
ghost use Rattle.fed_rules.specs.SitePast.{attempts_of, engine_lines, epoch_start, journal, live, live_of_tx, records, set_up_calls, trip};
ghost use Rattle.fed_rules.specs.SiteRecords.{doubt_of, local_of, site_rows};
ghost use Rattle.engine_contract.specs.Calls.{fresh_start};
ghost use Rattle.site_book.specs.Noted.{noted_of};
ghost use Rattle.journal_disk.specs.Disk.{TakesCalls, reads};
ghost use Rattle.actor_store.specs.Store.{is_up};
ghost use Rattle.prepared_state.specs.Book.{doubt_about};
ghost use Rattle.journal_sums.specs.Starts.{doubt_held};
ghost use Rattle.site_core.specs.Made.{was_global};
ghost use Rattle.site_core.specs.Found.{IsFoundOn, SomeJournal};
ghost use Rattle.site_core.specs.Stands.{Holds, IsOfKind, Stands, beside_rules};
ghost use Rattle.site_core.specs.Steps.{AnswersBeside, AnswersWhere, BreaksBeside, BreaksWhere, CanStep, EachPast, FailsOn, SomePast, StepsOn};
ghost use Rattle.site_core.specs.Store.{SomeStop};

use crate::answers::said;
use crate::store::{SiteStore, first_protocol, set_up_store};
use actor_store::{Standing, StepErr};
use engine_contract::LocalEngine;
use fed_rules::{Answer, SiteEvent, SiteRecord, SiteStep};
use journal_disk::Disk;
use mdb_base::{Engine, Memory, Puts, SiteId, Tid, Tx};
use prepared_state::PreparedBook;
use presumptions::Protocol;
use site_book::{LiveRun, SiteBook};
use std::alloc::Global;

/// The core of one site: its local engine, the book of its transactions, the prepared ones that it is in doubt of, and its journal; with
/// the number of its epoch and the protocol of its site.
#[derive(Drop)]
pub struct SiteCore<E: LocalEngine> {
    pub(crate) engine: E,
    pub(crate) book: SiteBook,
    pub(crate) doubts: PreparedBook,
    pub(crate) store: SiteStore,
    pub(crate) epoch: u32,
    pub(crate) protocol: Protocol,
}

impl<E: LocalEngine> SiteCore<E> {
    /// Sets a new site up on an empty disk: its Setup record and its first Start, synced. `local` is an engine of this rule with these
    /// rows and no call yet. Without memory the disk stays empty. Where a disk call fails, the disk holds what some stop within the
    /// calls of the set-up leaves.
    pub fn set_up<D: Disk>(
        alloc: Global,
        disk: &mut D,
        site: SiteId,
        engine: Engine,
        items: Puts,
        protocol: Protocol,
        local: E,
    ) -> Result<SiteCore<E>, StepErr>
        requires told { IsTrue D.tells }
        requires empty { (D.seen disk.old).size ≡ 0 }
        requires site { IsSite site }
        requires few { length items ≤ 4096 }
        requires fresh { E.stands local (fresh_start engine items) [] }
        ensures stands { IfOk result (λ core. Stands E.stands D.tells core (D.seen disk.new)
            (record { site = site; engine = engine; protocol = protocol; items = items }) []) }
        ensures memory { IsErrOf result StepErr.Memory → (D.seen disk.new).image ≡ (D.seen disk.old).image }
        ensures untouched { IsErrOf result StepErr.Memory → (D.seen disk.new).size ≡ 0 }
        ensures broken { IsErrOf result StepErr.Disk → SomeStop (D.seen disk.new).image empty_disk
            (set_up_calls (record { site = site; engine = engine; protocol = protocol; items = items })) }
        ensures called { TakesCalls 3 (D.seen disk.old) (D.seen disk.new) result }
        ensures cause { HasCauseOf StepErr.Disk (D.seen disk.old).faults (D.seen disk.new).faults result }
    {
        let Ok(doubts) = PreparedBook::new(alloc) else {
            return Err(StepErr::Memory);
        };
        match set_up_store(alloc, disk, site, engine, items, protocol) {
            Ok(store) => Ok(SiteCore {
                engine: local,
                book: SiteBook::new(alloc),
                doubts,
                store,
                epoch: 1,
                protocol,
            }),
            Err(why) => Err(why),
        }
    }

    /// Goes on from the journal that is found on the disk: the site is down, and a `Back` starts it. The disk isn't changed. `local` is an
    /// engine of the journal's rule.
    pub fn reopen<D: Disk>(alloc: Global, disk: &mut D, local: E) -> Result<SiteCore<E>, StepErr>
        requires told { IsTrue D.tells }
        requires found { SomeJournal E.stands local (D.seen disk.old).image }
        ensures stands { IfOk result (λ core. (home : Home) (journal : Journal SiteRecord) → IsFoundOn (D.seen disk.old).image home journal
            → IsOfKind E.stands local home.engine → Stands E.stands D.tells core (D.seen disk.new) home (opened_site journal)) }
        ensures image { (D.seen disk.new).image ≡ (D.seen disk.old).image }
        ensures size { (D.seen disk.new).size ≡ (D.seen disk.old).size }
        ensures called { TakesCalls (reads (D.seen disk.old).size) (D.seen disk.old) (D.seen disk.new) result }
        ensures cause { HasCauseOf StepErr.Disk (D.seen disk.old).faults (D.seen disk.new).faults result }
    {
        let Ok(doubts) = PreparedBook::new(alloc) else {
            return Err(StepErr::Memory);
        };
        match SiteStore::found(alloc, disk) {
            Ok(store) => {
                let protocol = first_protocol(store.records());
                Ok(SiteCore {
                    engine: local,
                    book: SiteBook::new(alloc),
                    doubts,
                    store,
                    epoch: 0,
                    protocol,
                })
            }
            Err(why) => Err(why),
        }
    }

    /// Answers the next event. Without memory neither the core nor the disk changes. Where a disk call fails, which comes only where
    /// the disk's count of faults rose, the site is down, as after a stop within the disk calls of the event: behind the whole frames stand
    /// the first bytes of the frame that it tore. The disk gets each disk call of the event once. A start reads it too, and behind a failed
    /// call it cuts back where nothing is torn.
    pub fn step<D: Disk>(
        &mut self,
        alloc: Global,
        disk: &mut D,
        event: SiteEvent,
    ) -> Result<SiteStep, StepErr>
        requires told { IsTrue D.tells }
        requires may { SomePast (Stands E.stands D.tells self.old (D.seen disk.old)) (CanStep event) }
        ensures answered { IfOk result (StepsOn E.stands D.tells self.old (D.seen disk.old) self.new (D.seen disk.new) event) }
        ensures failed { IfErr result (FailsOn E.stands D.tells self.old (D.seen disk.old) self.new (D.seen disk.new) event) }
        ensures cause { HasCauseOf StepErr.Disk (D.seen disk.old).faults (D.seen disk.new).faults result }
    {
        match self.store.standing {
            Standing::Up => self.serve(alloc, disk, event),
            Standing::Down => self.wait(alloc, disk, event),
            Standing::Failing => self.wait(alloc, disk, event),
        }
    }

    /// The records that stand on the disk, oldest first: the last Checkpoint that was trimmed to, and those behind it.
    pub fn records(&self) -> &[SiteRecord]
        ensures { EachPast (Holds E.stands self.now) (λ home past. result.now ≡ reverse (journal home past)) }
    {
        self.store.records()
    }

    /// The prepared transactions that a site that is up is in doubt of, each with the epoch and the ticket of its record.
    pub fn doubts(&self) -> &PreparedBook
        ensures { EachPast (Holds E.stands self.now) (λ home past. is_down past ≡ false → (tid : Tid) →
            doubt_about tid result.now.doubts ≡ map_some doubt_held (doubt_of (records home past) tid)) }
    {
        &self.doubts
    }

    /// Whether the attempt is live.
    pub fn is_live(&self, tid: Tid) -> bool
        ensures { EachPast (Holds E.stands self.now) (λ home past. result ≡ is_some (live home past tid)) }
    {
        self.store.is_up() && self.book.live(tid).is_some()
    }

    /// The attempt of a local transaction that committed here, at a site that is up.
    pub fn committed(&self, tx: Tx) -> Option<Tid>
        ensures { EachPast (Holds E.stands self.now) (λ home past. is_down past ≡ false → result ≡ local_of (records home past) tx) }
    {
        self.book.committed(tx)
    }

    /// The running attempt of a transaction that no message was about, at a site that is up.
    pub fn running(&self, tx: Tx) -> Option<Tid>
        ensures { EachPast (Holds E.stands self.now) (λ home past. is_down past ≡ false → was_global tx past ≡ false → result ≡ live_of_tx home past tx) }
    {
        self.book.running(tx)
    }

    /// How many attempts of a local transaction were begun.
    pub fn begun(&self, tx: Tx) -> u32
        ensures { EachPast (Holds E.stands self.now) (λ home past. result ≡ attempts_of past tx) }
    {
        self.book.begun(tx)
    }

    /// What is noted of the attempt, where it is live, at a site that is up.
    pub fn live(&self, tid: Tid) -> Option<&LiveRun>
        ensures { EachPast (Holds E.stands self.now) (λ home past. is_down past ≡ false → option_copied result ≡ map_some noted_of (live home past tid)) }
    {
        self.book.live(tid)
    }

    /// Whether the site is down: between a stop and the next start that comes through.
    pub fn is_down(&self) -> bool
        ensures { EachPast (Holds E.stands self.now) (λ home past. result ≡ is_down past) }
    {
        !self.store.is_up()
    }

    /// Whether a trip is set.
    pub fn is_armed(&self) -> bool
        ensures { EachPast (Holds E.stands self.now) (λ home past. result ≡ is_some (trip past)) }
    {
        self.store.trip.is_some()
    }

    /// The rows of a site that is up: those that the epoch started from, and every key that a committed transaction wrote since. They are
    /// the table of all its records.
    pub fn rows(&self, alloc: Global) -> Result<Puts, Memory>
        ensures epoch { IfOk result (λ rows. EachPast (Holds E.stands self.now)
            (λ home past. is_down past ≡ false → rows ≡ rows_after (epoch_start home past) (engine_lines past))) }
        ensures table { IfOk result (λ rows. EachPast (Holds E.stands self.now)
            (λ home past. is_down past ≡ false → rows ≡ site_rows home (records home past))) }
    {
        self.engine.rows(alloc)
    }

    /// Answers an event of a site that is up.
    fn serve<D: Disk>(
        &mut self,
        alloc: Global,
        disk: &mut D,
        event: SiteEvent,
    ) -> Result<SiteStep, StepErr>
        requires told { IsTrue D.tells }
        requires up { self.old.store.standing ≡ Standing.Up }
        requires may { SomePast (Stands E.stands D.tells self.old (D.seen disk.old)) (CanStep event) }
        ensures answered { IfOk result (AnswersWhere E.stands D.tells self.old (D.seen disk.old) self.new (D.seen disk.new) (CanStep event) (λ home past. site_line home past event)) }
        ensures failed { IfErr result (BreaksWhere E.stands D.tells self.old (D.seen disk.old) self.new (D.seen disk.new) (CanStep event) event) }
        ensures cause { HasCauseOf StepErr.Disk (D.seen disk.old).faults (D.seen disk.new).faults result }
    {
        match event {
            SiteEvent::Begin(tid) => self.begin(alloc, tid),
            SiteEvent::Act { tid, act } => self.act(alloc, tid, act),
            SiteEvent::Commit(tid) => self.commit(alloc, disk, tid),
            SiteEvent::Abort(tid) => self.abort(tid),
            SiteEvent::Fate(tx) => self.fate(tx),
            SiteEvent::Halt { cut } => self.halt(disk, cut),
            SiteEvent::Trip { calls, cut } => self.trips(calls, cut),
            SiteEvent::Back => said(Answer::Awake),
            SiteEvent::Check => self.check(alloc, disk),
            SiteEvent::Ask(tid) => self.ask(tid),
            SiteEvent::Drop(tid) => self.give_up(tid),
            SiteEvent::Give(message) => self.give(alloc, disk, message),
        }
    }

    /// Answers an event of a site that is down.
    fn wait<D: Disk>(
        &mut self,
        alloc: Global,
        disk: &mut D,
        event: SiteEvent,
    ) -> Result<SiteStep, StepErr>
        requires told { IsTrue D.tells }
        requires down { is_up self.old.store.standing ≡ false }
        requires may { SomePast (Stands E.stands D.tells self.old (D.seen disk.old)) (CanStep event) }
        ensures answered { IfOk result (AnswersBeside E.stands D.tells self.old (D.seen disk.old) self.new (D.seen disk.new) (beside_rules event self.old (D.seen disk.old)) (CanStep event) (λ home past. site_line home past event)) }
        ensures failed { IfErr result (BreaksBeside E.stands D.tells self.old (D.seen disk.old) self.new (D.seen disk.new) (beside_rules event self.old (D.seen disk.old)) (CanStep event) event) }
        ensures cause { HasCauseOf StepErr.Disk (D.seen disk.old).faults (D.seen disk.new).faults result }
    {
        match event {
            SiteEvent::Trip { calls, cut } => self.trips(calls, cut),
            SiteEvent::Back => self.back(alloc, disk),
            _ => said(Answer::Down),
        }
    }
}
