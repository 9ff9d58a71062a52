//! The core of the coordinator and its step.
ghost use Rattle.std.specs.Prelude.{◌≡◌, Bool, [], false, is_some, reverse, IfOk, IfErr, IsOkAnd, IsTrue};
ghost use Rattle.mdb_base.specs.Counts.{HasCauseOf};
ghost use Rattle.mdb_base.specs.Words.{Each};
ghost use Rattle.presumptions.specs.declared.Participant.{Participant as TheParticipant};
ghost use Rattle.record_fields.specs.Named.{IsSite};
ghost use Rattle.fed_rules.specs.CoordPast.{attempts_of, journal, records, standing, trip, undecided_of};
ghost use Rattle.fed_rules.specs.CoordRecords.{commits, committed_of};
ghost use Rattle.fed_rules.specs.Happenings.{is_down};
ghost use Rattle.journal_disk.specs.Disk.{Seen};
ghost use Rattle.protocol_table.specs.Agreement.{IsKnownAs};
ghost use Rattle.protocol_table.specs.Attempts.{known_of};
ghost use Rattle.mdb_base.specs.declared.names.Tid.{Tid as TheTid};
ghost use Rattle.ticket_graph.specs.Graph.{AreHeld, StandsFor};
ghost use Rattle.actor_store.specs.Store.{is_up};
ghost use Rattle.coord_core.specs.Stands.{Holds, IsEmptyDisk, Stands};
ghost use Rattle.coord_core.specs.Steps.{CanStep, EachPast, FailsOn, SomePast, StepsOn};
ghost use Rattle.coord_tables.specs.Waiting.{waiting};

use actor_store::{Standing, StepErr, Store};
use coord_journal::{CoordFormat, CoordRecord};
use coord_tables::{Begun, Tables};
use fed_rules::{Answer, CoordEvent, CoordStep, Sends};
use global_exec::TakePolicy;
use journal_disk::Disk;
use mdb_base::{Memory, Tid, Tx};
use presumptions::Participants;
use protocol_table::ProtocolTable;
use std::alloc::Global;
use ticket_graph::TicketGraph;

/// The store of the coordinator.
pub(crate) type CoordStore = Store<CoordRecord, CoordFormat>;

/// The core of the coordinator: the sites with their protocols, the policy of its tickets, its tables, how many attempts of each
/// transaction were begun, and its journal.
#[derive(Drop)]
pub struct CoordCore<P: TakePolicy> {
    pub(crate) protocols: Participants,
    pub(crate) policy: P,
    pub(crate) tables: Tables,
    pub(crate) begun: Begun,
    pub(crate) store: CoordStore,
}

/// An answer that sends nothing.
pub(crate) fn silent(alloc: Global, answer: Answer) -> CoordStep
    ensures answer { result.answer ≡ answer }
    ensures sends { result.sends ≡ [] }
{
    CoordStep {
        answer,
        sends: Sends::of(Vec::new(alloc)),
    }
}

/// The same as the result of a step, which is always there.
pub(crate) fn says(alloc: Global, answer: Answer) -> Result<CoordStep, StepErr>
    ensures { IsOkAnd result (λ step. (step.answer ≡ answer) × (step.sends ≡ [])) }
{
    Ok(silent(alloc, answer))
}

/// A message is ignored.
pub(crate) fn ignored(alloc: Global) -> Result<CoordStep, StepErr>
    ensures { IsOkAnd result (λ step. (step.answer ≡ Answer.Ignored) × (step.sends ≡ [])) }
{
    says(alloc, Answer::Ignored)
}

/// A coordinator that is up is started.
fn awake(alloc: Global) -> Result<CoordStep, StepErr>
    ensures { IsOkAnd result (λ step. (step.answer ≡ Answer.Awake) × (step.sends ≡ [])) }
{
    says(alloc, Answer::Awake)
}

impl<P: TakePolicy> CoordCore<P> {
    /// A coordinator of these sites, which are of 1 to 8, to which nothing happened yet. Its disk has to be an empty one.
    pub fn new(alloc: Global, protocols: Participants, policy: P) -> Result<CoordCore<P>, Memory>
        requires { Each (λ (member : TheParticipant). IsSite member.site) protocols }
        ensures { IfOk result (λ core. (tells : Bool) (seen : Seen) → IsEmptyDisk tells seen
            → Stands P.policy tells core seen (record { protocols = protocols; policy = P.policy policy }) []) }
    {
        let tables = Tables::new(alloc)?;
        let _ = protocols.len();
        Ok(CoordCore {
            protocols,
            policy,
            tables,
            begun: Begun::new(alloc),
            store: CoordStore::create(alloc),
        })
    }

    /// Answers the next event. Without memory neither the core nor the disk changes. Where a disk call fails, which comes only where the
    /// disk's count of faults rose, the coordinator is down, as after a stop before or within the event: behind the whole frames stand the
    /// first bytes of the frame that it tore. It may be started again. The disk gets each disk call of the event once. A start reads it too,
    /// and behind a failed call it cuts back where nothing is torn.
    pub fn step<D: Disk>(
        &mut self,
        alloc: Global,
        disk: &mut D,
        event: CoordEvent,
    ) -> Result<CoordStep, StepErr>
        requires told { IsTrue D.tells }
        requires may { SomePast (Stands P.policy D.tells self.old (D.seen disk.old)) (CanStep event) }
        ensures answered { IfOk result (StepsOn P.policy D.tells self.old (D.seen disk.old) self.new (D.seen disk.new) event) }
        ensures failed { IfErr result (FailsOn P.policy D.tells self.old (D.seen disk.old) self.new (D.seen disk.new) event) }
        ensures cause { HasCauseOf StepErr.Disk (D.seen disk.old).faults (D.seen disk.new).faults result }
    {
        match self.store.standing {
            Standing::Up => match event {
                CoordEvent::Take { site, message } => self.take(alloc, disk, site, message),
                CoordEvent::Go { tid, program } => self.go(alloc, tid, program),
                CoordEvent::Again(tid) => self.again(alloc, disk, tid),
                CoordEvent::Late(tid) => self.late(alloc, disk, tid),
                CoordEvent::Fate(tx) => self.fate(alloc, tx),
                CoordEvent::Halt { cut } => self.halt(alloc, disk, cut),
                CoordEvent::Trip { calls, cut } => self.set_trip(alloc, calls, cut),
                CoordEvent::Back => awake(alloc),
                CoordEvent::Check => self.check(alloc, disk),
            },
            Standing::Down | Standing::Failing => self.wait(alloc, disk, event),
        }
    }

    /// The records that stand on the disk, oldest first.
    pub fn records(&self) -> &[CoordRecord]
        ensures { EachPast (Holds P.policy self.now) (λ terms past. result.now ≡ reverse (journal past)) }
    {
        self.store.records()
    }

    /// The attempts that a coordinator that is up knows.
    pub fn table(&self) -> &ProtocolTable
        ensures { EachPast (Holds P.policy self.now) (λ terms past. is_down past ≡ false
            → (tid : TheTid) → IsKnownAs terms.protocols past tid (standing terms.protocols past tid) (known_of tid result.now)) }
    {
        &self.tables.known
    }

    /// The tickets of the committed attempts of a coordinator that is up, but for those that were dropped: what could be dropped beside the
    /// tickets that wait isn't kept.
    pub fn graph(&self) -> &TicketGraph
        ensures stands { EachPast (Holds P.policy self.now) (λ terms past. is_down past ≡ false → StandsFor (commits (records past)) result.now) }
        ensures held { EachPast (Holds P.policy self.now) (λ terms past. is_down past ≡ false → AreHeld (waiting past) result.now) }
        ensures empty { EachPast (Holds P.policy self.now) (λ terms past. is_down past ≡ false → Each (λ tickets. tickets ≡ []) (waiting past) → result.now.kept ≡ []) }
    {
        self.tables.graph.graph()
    }

    /// Whether the coordinator is down: between a stop and the next start that comes through.
    pub fn is_down(&self) -> bool
        ensures { EachPast (Holds P.policy self.now) (λ terms past. result ≡ is_down past) }
    {
        match self.store.standing {
            Standing::Up => false,
            Standing::Down => true,
            Standing::Failing => true,
        }
    }

    /// Whether a trip is set.
    pub fn is_armed(&self) -> bool
        ensures { EachPast (Holds P.policy self.now) (λ terms past. result ≡ is_some (trip past)) }
    {
        self.store.trip.is_some()
    }

    /// How many attempts of the transaction were begun.
    pub fn begun(&self, tx: Tx) -> u8
        ensures { EachPast (Holds P.policy self.now) (λ terms past. result ≡ attempts_of past tx) }
    {
        self.begun.attempts_of(tx)
    }

    /// The committed attempt of the transaction, of a coordinator that is up.
    pub fn committed(&self, tx: Tx) -> Option<Tid>
        ensures { EachPast (Holds P.policy self.now) (λ terms past. is_down past ≡ false → result ≡ committed_of (records past) tx) }
    {
        self.tables.committed.last_of(tx)
    }

    /// The undecided attempt of the transaction, of a coordinator that is up.
    pub fn running(&self, tx: Tx) -> Option<Tid>
        ensures { EachPast (Holds P.policy self.now) (λ terms past. is_down past ≡ false → result ≡ undecided_of past tx) }
    {
        self.tables.stages.last_of(tx)
    }

    /// Answers an event of a coordinator that is down.
    fn wait<D: Disk>(
        &mut self,
        alloc: Global,
        disk: &mut D,
        event: CoordEvent,
    ) -> Result<CoordStep, StepErr>
        requires told { IsTrue D.tells }
        requires down { is_up self.old.store.standing ≡ false }
        requires may { SomePast (Stands P.policy D.tells self.old (D.seen disk.old)) (CanStep event) }
        ensures answered { IfOk result (StepsOn P.policy D.tells self.old (D.seen disk.old) self.new (D.seen disk.new) event) }
        ensures failed { IfErr result (FailsOn P.policy D.tells self.old (D.seen disk.old) self.new (D.seen disk.new) event) }
        ensures cause { HasCauseOf StepErr.Disk (D.seen disk.old).faults (D.seen disk.new).faults result }
    {
        match event {
            CoordEvent::Trip { calls, cut } => self.set_trip(alloc, calls, cut),
            CoordEvent::Back => self.back(alloc, disk),
            _ => says(alloc, Answer::Down),
        }
    }

    /// Stops the coordinator with this cut.
    fn halt<D: Disk>(&mut self, alloc: Global, disk: &mut D, cut: u64) -> Result<CoordStep, StepErr>
        requires told { IsTrue D.tells }
        requires up { self.old.store.standing ≡ Standing.Up }
        requires may { SomePast (Stands P.policy D.tells self.old (D.seen disk.old)) (CanStep (CoordEvent.Halt cut)) }
        ensures answered { IsOkAnd result (StepsOn P.policy D.tells self.old (D.seen disk.old) self.new (D.seen disk.new) (CoordEvent.Halt cut)) }
        ensures faults { (D.seen disk.new).faults ≡ (D.seen disk.old).faults }
    {
        let kept = self.store.stop(disk, cut);
        says(alloc, Answer::Stopped(kept))
    }

    /// Sets a trip; one of no calls disarms.
    fn set_trip(&mut self, alloc: Global, calls: u32, cut: u64) -> Result<CoordStep, StepErr>
        ensures answered { IsOkAnd result (λ step. (tells : Bool) (seen : Seen) → StepsOn P.policy tells self.old seen self.new seen (CoordEvent.Trip calls cut) step) }
    {
        self.store.set_trip(calls, cut);
        says(alloc, Answer::Set)
    }
}
