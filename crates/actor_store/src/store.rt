//! An actor's journal on its disk, with the trip that is set: each disk call may be the last one before a stop.
ghost use Rattle.std.specs.Prelude.{◌≡◌, ◌≤◌, ◌<◌, ◌+◌, [], ◌∷◌, ◌++◌, false, true, Option, None, IfOk, IsErrOf, OnOk, OnErr, IsTrue, length};
ghost use Rattle.mdb_base.specs.Counts.{HasCauseOf};
ghost use Rattle.fed_rules.specs.Disk.{Append, CutBack, Sync, TrimFront, Disk as RulesDisk, after_calls};
ghost use Rattle.fed_rules.specs.Happenings.{Trip as RulesTrip};
ghost use Rattle.journal_disk.specs.Disk.{HasCalled, TakesCalls, reads};
ghost use Rattle.frame_journal.specs.Journal.{EndsWith, HasRoom, new_journal, records, with_entry, with_room_for, written_size};
ghost use Rattle.journal_disk.specs.Frames.{IsPayload};
ghost use Rattle.actor_store.specs.Store.{Called, Counts, Ends, IsFoundBehind, KeepsBehind, Old, SomeFound, SomeKeptBehind, StopsWith, cut_calls, is_failing, is_up, old_standing, reloads, stored, trip_to, uncounted};

use crate::errors::StepErr;
use frame_journal::{Format, Journal};
use journal_disk::{Disk, Failed, JournalErr};
use mdb_base::Memory;
use std::alloc::Global;
use std::mem::replace;

/// A trip that is set: the actor stops right after so many further disk calls, 1 or more, with this cut.
#[derive(Clone, Copy)]
pub struct SetTrip {
    pub calls: u32,
    pub cut: u64,
}

/// Whether an actor is up.
#[derive(Clone, Copy)]
pub enum Standing {
    Up,
    /// It stopped, and what is left on the disk is synced.
    Down,
    /// A disk call failed. What is on the disk may not be synced.
    Failing,
}

/// Why a line ended before its time.
#[derive(Clone, Copy)]
pub enum Break {
    /// A trip stopped the actor, and so many records are kept.
    Stopped(u64),
    /// A disk call failed.
    Failed,
}

/// The journal of an actor, the trip that is set, and whether the actor is up.
#[derive(Drop)]
pub struct Store<R: Drop, F: Format<R>> {
    pub journal: Journal<R, F>,
    pub trip: Option<SetTrip>,
    pub standing: Standing,
    /// Whether the journal was found and not read again since: a first start needn't read it once more.
    pub is_fresh: bool,
}

impl<R: Drop, F: Format<R>> Store<R, F> {
    /// The store of a new actor on an empty disk. It takes no memory and makes no disk call.
    pub fn create(alloc: Global) -> Self
        ensures { stored result ≡ record { journal = new_journal; trip = None; standing = Standing.Up } }
    {
        Store {
            journal: Journal::new(alloc),
            trip: None,
            standing: Standing::Up,
            is_fresh: false,
        }
    }

    /// The store of an actor that is down, whose journal is found on the disk, in frames of either version. The disk isn't changed: what is
    /// written later is of version 2, and the old frames stay as they are until a trim drops them. Fails only where the disk does, or memory.
    pub fn found<D: Disk>(alloc: Global, disk: &mut D) -> Result<Self, StepErr>
        requires told { IsTrue D.tells }
        requires found { SomeFound F.spelling F.is_record F.frame_bytes (D.seen disk.old).image }
        ensures keeps { IfOk result (λ store. (old : Old R) (rules : RulesDisk R) → IsFoundBehind F.spelling F.is_record F.frame_bytes (D.seen disk.old).image old rules
            → KeepsBehind F.spelling F.is_record F.frame_bytes D.tells (D.seen disk.new) (stored store) old rules None) }
        ensures down { IfOk result (λ store. store.standing ≡ Standing.Down) }
        ensures image { (D.seen disk.new).image ≡ (D.seen disk.old).image }
        ensures size { (D.seen disk.new).size ≡ (D.seen disk.old).size }
        ensures called { TakesCalls (reads (D.seen disk.old).size) (D.seen disk.old) (D.seen disk.new) result }
        ensures cause { HasCauseOf StepErr.Disk (D.seen disk.old).faults (D.seen disk.new).faults result }
    {
        match Journal::load(alloc, disk) {
            Ok(journal) => Ok(Store {
                journal,
                trip: None,
                standing: Standing::Down,
                is_fresh: true,
            }),
            Err(JournalErr::Failed) => Err(StepErr::Disk),
            Err(JournalErr::Memory) => Err(StepErr::Memory),
            Err(JournalErr::Malformed { .. } | JournalErr::Damaged { .. }) => unreachable!(),
        }
    }

    /// The records, oldest first.
    pub fn records(&self) -> &[R]
        ensures { result.now ≡ records self.now.journal }
    {
        self.journal.records()
    }

    /// Whether the actor is up.
    pub fn is_up(&self) -> bool
        ensures { result ≡ is_up self.now.standing }
    {
        matches!(self.standing, Standing::Up)
    }

    /// Sets a trip; one of no calls disarms.
    pub fn set_trip(&mut self, calls: u32, cut: u64)
        ensures { self.new ≡ record self.old { trip = trip_to calls cut } }
    {
        self.trip = if calls == 0 {
            None
        } else {
            Some(SetTrip { calls, cut })
        };
    }

    /// Stops the disk with this cut, and answers how many records are kept. Behind their frames stand the first bytes of the frame that the
    /// cut tore. The trip is disarmed.
    pub fn stop<D: Disk>(&mut self, disk: &mut D, cut: u64) -> u64
        requires told { IsTrue D.tells }
        requires kept { SomeKeptBehind (KeepsBehind F.spelling F.is_record F.frame_bytes D.tells (D.seen disk.old) (stored self.old)) }
        requires sound { is_failing self.old.standing ≡ false }
        ensures stops { (old : Old R) (rules : RulesDisk R) (trip : Option RulesTrip) → KeepsBehind F.spelling F.is_record F.frame_bytes D.tells (D.seen disk.old) (stored self.old) old rules trip
            → StopsWith F.frame_bytes (KeepsBehind F.spelling F.is_record F.frame_bytes D.tells (D.seen disk.new) (stored self.new) old) rules cut result }
        ensures down { self.new.standing ≡ Standing.Down }
        ensures called { (D.seen disk.new).calls ≡ (D.seen disk.old).calls }
        ensures faults { (D.seen disk.new).faults ≡ (D.seen disk.old).faults }
    {
        self.trip = None;
        self.standing = Standing::Down;
        self.journal.stop(disk, cut) as u64
    }

    /// Counts a disk call that was made: where it was the last one of the trip, the actor stops.
    fn counted<D: Disk>(&mut self, disk: &mut D) -> Result<(), Break>
        requires told { IsTrue D.tells }
        requires kept { SomeKeptBehind (KeepsBehind F.spelling F.is_record F.frame_bytes D.tells (D.seen disk.old) (stored self.old)) }
        requires sound { is_failing self.old.standing ≡ false }
        ensures ends { (old : Old R) (rules : RulesDisk R) (trip : Option RulesTrip) → KeepsBehind F.spelling F.is_record F.frame_bytes D.tells (D.seen disk.old) (stored self.old) old rules trip
            → Counts F.frame_bytes (KeepsBehind F.spelling F.is_record F.frame_bytes D.tells (D.seen disk.new) (stored self.new) old) rules trip result }
        ensures journal { OnOk result (self.new.journal ≡ self.old.journal) }
        ensures standing { OnOk result (self.new.standing ≡ self.old.standing) }
        ensures down { OnErr result (is_up self.new.standing ≡ false) }
        ensures called { (D.seen disk.new).calls ≡ (D.seen disk.old).calls }
        ensures cause { HasCauseOf Break.Failed (D.seen disk.old).faults (D.seen disk.new).faults result }
    {
        match self.trip {
            None => Ok(()),
            Some(trip) => {
                if trip.calls > 1 {
                    self.trip = Some(SetTrip {
                        calls: trip.calls - 1,
                        cut: trip.cut,
                    });
                    Ok(())
                } else {
                    Err(Break::Stopped(self.stop(disk, trip.cut)))
                }
            }
        }
    }

    /// Makes room for so many records whose frames have so many bytes in all. Where there is that much already, nothing is added.
    pub fn make_room<D: Disk>(
        &mut self,
        alloc: Global,
        disk: &mut D,
        places: usize,
        bytes: usize,
    ) -> Result<(), Memory>
        requires told { IsTrue D.tells }
        requires kept { SomeKeptBehind (KeepsBehind F.spelling F.is_record F.frame_bytes D.tells (D.seen disk.old) (stored self.old)) }
        ensures keeps { (old : Old R) (rules : RulesDisk R) (trip : Option RulesTrip) → KeepsBehind F.spelling F.is_record F.frame_bytes D.tells (D.seen disk.old) (stored self.old) old rules trip
            → KeepsBehind F.spelling F.is_record F.frame_bytes D.tells (D.seen disk.new) (stored self.new) old rules trip }
        ensures room { OnOk result (self.new.journal ≡ with_room_for places bytes self.old.journal) }
        ensures memory { OnErr result (self.new.journal ≡ self.old.journal) }
        ensures standing { self.new.standing ≡ self.old.standing }
        ensures image { (D.seen disk.new).image ≡ (D.seen disk.old).image }
        ensures called { (D.seen disk.new).calls ≡ (D.seen disk.old).calls }
        ensures faults { (D.seen disk.new).faults ≡ (D.seen disk.old).faults }
    {
        self.journal.make_room(alloc, disk, places, bytes)
    }

    /// Cuts a torn rest back, and comes up.
    fn cut_torn<D: Disk>(&mut self, disk: &mut D) -> Result<(), Break>
        requires told { IsTrue D.tells }
        requires kept { SomeKeptBehind (KeepsBehind F.spelling F.is_record F.frame_bytes D.tells (D.seen disk.old) (stored self.old)) }
        requires stopped { is_up self.old.standing ≡ false }
        ensures ends { (old : Old R) (rules : RulesDisk R) (trip : Option RulesTrip) → KeepsBehind F.spelling F.is_record F.frame_bytes D.tells (D.seen disk.old) (stored self.old) old rules trip
            → Ends F.frame_bytes (KeepsBehind F.spelling F.is_record F.frame_bytes D.tells (D.seen disk.new) (stored self.new) old) rules trip (CutBack ∷ []) result }
        ensures journal { OnOk result (self.new.journal ≡ record self.old.journal { is_torn = false }) }
        ensures standing { OnOk result (self.new.standing ≡ Standing.Up) }
        ensures down { OnErr result (is_up self.new.standing ≡ false) }
        ensures called { HasCalled 1 (D.seen disk.old) (D.seen disk.new) }
        ensures cause { HasCauseOf Break.Failed (D.seen disk.old).faults (D.seen disk.new).faults result }
    {
        match self.journal.cut(disk) {
            Ok(()) => {
                self.standing = Standing::Up;
                self.counted(disk)
            }
            Err(Failed) => {
                self.trip = None;
                self.standing = Standing::Failing;
                Err(Break::Failed)
            }
        }
    }

    /// Comes up where nothing is torn. Where a disk call failed, a cut back to the end of the whole frames syncs them; it doesn't count.
    fn come_up<D: Disk>(&mut self, disk: &mut D) -> Result<(), Break>
        requires told { IsTrue D.tells }
        requires kept { SomeKeptBehind (KeepsBehind F.spelling F.is_record F.frame_bytes D.tells (D.seen disk.old) (stored self.old)) }
        requires stopped { is_up self.old.standing ≡ false }
        requires whole { self.old.journal.is_torn ≡ false }
        ensures ends { (old : Old R) (rules : RulesDisk R) (trip : Option RulesTrip) → KeepsBehind F.spelling F.is_record F.frame_bytes D.tells (D.seen disk.old) (stored self.old) old rules trip
            → Ends F.frame_bytes (KeepsBehind F.spelling F.is_record F.frame_bytes D.tells (D.seen disk.new) (stored self.new) old) rules trip [] result }
        ensures journal { OnOk result (self.new.journal ≡ record self.old.journal { is_torn = false }) }
        ensures standing { OnOk result (self.new.standing ≡ Standing.Up) }
        ensures down { OnErr result (is_up self.new.standing ≡ false) }
        ensures called { HasCalled (uncounted (stored self.old)) (D.seen disk.old) (D.seen disk.new) }
        ensures cause { HasCauseOf Break.Failed (D.seen disk.old).faults (D.seen disk.new).faults result }
    {
        if let Standing::Down = self.standing {
            self.standing = Standing::Up;
            return Ok(());
        }
        match self.journal.cut(disk) {
            Ok(()) => {
                self.standing = Standing::Up;
                Ok(())
            }
            Err(Failed) => {
                self.trip = None;
                self.standing = Standing::Failing;
                Err(Break::Failed)
            }
        }
    }

    /// Begins a start: a torn rest is cut back, and the actor is up.
    pub fn open<D: Disk>(&mut self, disk: &mut D) -> Result<(), Break>
        requires told { IsTrue D.tells }
        requires kept { SomeKeptBehind (KeepsBehind F.spelling F.is_record F.frame_bytes D.tells (D.seen disk.old) (stored self.old)) }
        requires stopped { is_up self.old.standing ≡ false }
        ensures ends { (old : Old R) (rules : RulesDisk R) (trip : Option RulesTrip) → KeepsBehind F.spelling F.is_record F.frame_bytes D.tells (D.seen disk.old) (stored self.old) old rules trip
            → Ends F.frame_bytes (KeepsBehind F.spelling F.is_record F.frame_bytes D.tells (D.seen disk.new) (stored self.new) old) rules trip (cut_calls F.frame_bytes rules) result }
        ensures journal { OnOk result (self.new.journal ≡ record self.old.journal { is_torn = false }) }
        ensures standing { OnOk result (self.new.standing ≡ Standing.Up) }
        ensures down { OnErr result (is_up self.new.standing ≡ false) }
        ensures called { (old : Old R) (rules : RulesDisk R) (trip : Option RulesTrip) → KeepsBehind F.spelling F.is_record F.frame_bytes D.tells (D.seen disk.old) (stored self.old) old rules trip
            → Called (uncounted (stored self.old)) trip (cut_calls F.frame_bytes rules) (D.seen disk.old) (D.seen disk.new) result }
        ensures cause { HasCauseOf Break.Failed (D.seen disk.old).faults (D.seen disk.new).faults result }
    {
        if self.journal.is_torn() {
            self.cut_torn(disk)
        } else {
            self.come_up(disk)
        }
    }

    /// Reads the journal again: a stop loses what was in memory. One that was found, and not read again since, is as it was read. A failed
    /// read changes nothing.
    pub fn reload<D: Disk>(&mut self, alloc: Global, disk: &mut D) -> Result<(), StepErr>
        requires told { IsTrue D.tells }
        requires kept { SomeKeptBehind (KeepsBehind F.spelling F.is_record F.frame_bytes D.tells (D.seen disk.old) (stored self.old)) }
        ensures keeps { (old : Old R) (rules : RulesDisk R) (trip : Option RulesTrip) → KeepsBehind F.spelling F.is_record F.frame_bytes D.tells (D.seen disk.old) (stored self.old) old rules trip
            → KeepsBehind F.spelling F.is_record F.frame_bytes D.tells (D.seen disk.new) (stored self.new) old rules trip }
        ensures journal { OnOk result (self.new.journal ≡ record self.old.journal { places = 0; room = 0 }) }
        ensures same { OnErr result (self.new.journal ≡ self.old.journal) }
        ensures standing { self.new.standing ≡ self.old.standing }
        ensures trip { self.new.trip ≡ self.old.trip }
        ensures image { (D.seen disk.new).image ≡ (D.seen disk.old).image }
        ensures called { TakesCalls (reloads self.old.is_fresh (D.seen disk.old).size) (D.seen disk.old) (D.seen disk.new) result }
        ensures cause { HasCauseOf StepErr.Disk (D.seen disk.old).faults (D.seen disk.new).faults result }
    {
        if self.is_fresh {
            self.is_fresh = false;
            self.journal.give_up_room();
            return Ok(());
        }
        match Journal::load(alloc, disk) {
            Ok(journal) => {
                drop(replace(&mut self.journal, journal));
                Ok(())
            }
            Err(JournalErr::Failed) => Err(StepErr::Disk),
            Err(JournalErr::Memory) => Err(StepErr::Memory),
            Err(JournalErr::Malformed { .. } | JournalErr::Damaged { .. }) => unreachable!(),
        }
    }

    /// Appends a record, which isn't synced yet.
    pub fn append<D: Disk>(&mut self, disk: &mut D, entry: R) -> Result<(), Break>
        requires told { IsTrue D.tells }
        requires kept { SomeKeptBehind (KeepsBehind F.spelling F.is_record F.frame_bytes D.tells (D.seen disk.old) (stored self.old)) }
        requires up { self.old.standing ≡ Standing.Up }
        requires reserved { HasRoom (written_size F.spelling entry) self.old.journal }
        requires in_range { F.in_range entry }
        requires payload { IsPayload (F.spelling entry) }
        ensures ends { (old : Old R) (rules : RulesDisk R) (trip : Option RulesTrip) → KeepsBehind F.spelling F.is_record F.frame_bytes D.tells (D.seen disk.old) (stored self.old) old rules trip
            → Ends F.frame_bytes (KeepsBehind F.spelling F.is_record F.frame_bytes D.tells (D.seen disk.new) (stored self.new) old) rules trip (Append entry ∷ []) result }
        ensures journal { OnOk result (self.new.journal ≡ with_entry F.spelling entry self.old.journal) }
        ensures standing { OnOk result (self.new.standing ≡ Standing.Up) }
        ensures down { OnErr result (is_up self.new.standing ≡ false) }
        ensures called { HasCalled 1 (D.seen disk.old) (D.seen disk.new) }
        ensures cause { HasCauseOf Break.Failed (D.seen disk.old).faults (D.seen disk.new).faults result }
    {
        match self.journal.note(disk, entry) {
            Ok(()) => self.counted(disk),
            Err(Failed) => {
                self.trip = None;
                self.standing = Standing::Failing;
                Err(Break::Failed)
            }
        }
    }

    /// Syncs the disk.
    fn sync<D: Disk>(&mut self, disk: &mut D) -> Result<(), Break>
        requires told { IsTrue D.tells }
        requires kept { SomeKeptBehind (KeepsBehind F.spelling F.is_record F.frame_bytes D.tells (D.seen disk.old) (stored self.old)) }
        requires up { self.old.standing ≡ Standing.Up }
        ensures ends { (old : Old R) (rules : RulesDisk R) (trip : Option RulesTrip) → KeepsBehind F.spelling F.is_record F.frame_bytes D.tells (D.seen disk.old) (stored self.old) old rules trip
            → Ends F.frame_bytes (KeepsBehind F.spelling F.is_record F.frame_bytes D.tells (D.seen disk.new) (stored self.new) old) rules trip (Sync ∷ []) result }
        ensures journal { OnOk result (self.new.journal ≡ self.old.journal) }
        ensures standing { OnOk result (self.new.standing ≡ Standing.Up) }
        ensures down { OnErr result (is_up self.new.standing ≡ false) }
        ensures called { HasCalled 1 (D.seen disk.old) (D.seen disk.new) }
        ensures cause { HasCauseOf Break.Failed (D.seen disk.old).faults (D.seen disk.new).faults result }
    {
        match disk.sync() {
            Ok(()) => self.counted(disk),
            Err(Failed) => {
                self.trip = None;
                self.standing = Standing::Failing;
                Err(Break::Failed)
            }
        }
    }

    /// Appends a record and syncs.
    pub fn force<D: Disk>(&mut self, disk: &mut D, entry: R) -> Result<(), Break>
        requires told { IsTrue D.tells }
        requires kept { SomeKeptBehind (KeepsBehind F.spelling F.is_record F.frame_bytes D.tells (D.seen disk.old) (stored self.old)) }
        requires up { self.old.standing ≡ Standing.Up }
        requires reserved { HasRoom (written_size F.spelling entry) self.old.journal }
        requires in_range { F.in_range entry }
        requires payload { IsPayload (F.spelling entry) }
        ensures ends { (old : Old R) (rules : RulesDisk R) (trip : Option RulesTrip) → KeepsBehind F.spelling F.is_record F.frame_bytes D.tells (D.seen disk.old) (stored self.old) old rules trip
            → Ends F.frame_bytes (KeepsBehind F.spelling F.is_record F.frame_bytes D.tells (D.seen disk.new) (stored self.new) old) rules trip (Append entry ∷ Sync ∷ []) result }
        ensures journal { OnOk result (self.new.journal ≡ with_entry F.spelling entry self.old.journal) }
        ensures standing { OnOk result (self.new.standing ≡ Standing.Up) }
        ensures down { OnErr result (is_up self.new.standing ≡ false) }
        ensures called { (old : Old R) (rules : RulesDisk R) (trip : Option RulesTrip) → KeepsBehind F.spelling F.is_record F.frame_bytes D.tells (D.seen disk.old) (stored self.old) old rules trip
            → Called 0 trip (Append entry ∷ Sync ∷ []) (D.seen disk.old) (D.seen disk.new) result }
        ensures cause { HasCauseOf Break.Failed (D.seen disk.old).faults (D.seen disk.new).faults result }
    {
        match self.append(disk, entry) {
            Ok(()) => self.sync(disk),
            Err(why) => Err(why),
        }
    }

    /// Trims the disk up to the last record, a checkpoint, where all is synced.
    fn trim<D: Disk>(&mut self, disk: &mut D) -> Result<(), Break>
        requires told { IsTrue D.tells }
        requires kept { SomeKeptBehind (λ old rules trip. KeepsBehind F.spelling F.is_record F.frame_bytes D.tells (D.seen disk.old) (stored self.old) old rules trip × (rules.synced ≡ rules.length) × (length (old_standing old rules) < length self.old.journal.entries)) }
        requires up { self.old.standing ≡ Standing.Up }
        requires checkpoint { EndsWith F.is_checkpoint (records self.old.journal) }
        ensures ends { (old : Old R) (rules : RulesDisk R) (trip : Option RulesTrip) → KeepsBehind F.spelling F.is_record F.frame_bytes D.tells (D.seen disk.old) (stored self.old) old rules trip
            → rules.synced ≡ rules.length → length (old_standing old rules) < length self.old.journal.entries → Ends F.frame_bytes (KeepsBehind F.spelling F.is_record F.frame_bytes D.tells (D.seen disk.new) (stored self.new) old) rules trip (TrimFront ∷ []) result }
        ensures standing { OnOk result (self.new.standing ≡ Standing.Up) }
        ensures down { OnErr result (is_up self.new.standing ≡ false) }
        ensures called { HasCalled 1 (D.seen disk.old) (D.seen disk.new) }
        ensures cause { HasCauseOf Break.Failed (D.seen disk.old).faults (D.seen disk.new).faults result }
    {
        match self.journal.trim(disk) {
            Ok(()) => self.counted(disk),
            Err(Failed) => {
                self.trip = None;
                self.standing = Standing::Failing;
                Err(Break::Failed)
            }
        }
    }

    /// Forces a checkpoint, and then trims what stands before it.
    pub fn check<D: Disk>(&mut self, disk: &mut D, entry: R) -> Result<(), Break>
        requires told { IsTrue D.tells }
        requires kept { SomeKeptBehind (KeepsBehind F.spelling F.is_record F.frame_bytes D.tells (D.seen disk.old) (stored self.old)) }
        requires up { self.old.standing ≡ Standing.Up }
        requires reserved { HasRoom (written_size F.spelling entry) self.old.journal }
        requires in_range { F.in_range entry }
        requires payload { IsPayload (F.spelling entry) }
        requires checkpoint { F.is_checkpoint entry }
        ensures ends { (old : Old R) (rules : RulesDisk R) (trip : Option RulesTrip) → KeepsBehind F.spelling F.is_record F.frame_bytes D.tells (D.seen disk.old) (stored self.old) old rules trip
            → Ends F.frame_bytes (KeepsBehind F.spelling F.is_record F.frame_bytes D.tells (D.seen disk.new) (stored self.new) old) rules trip (Append entry ∷ Sync ∷ TrimFront ∷ []) result }
        ensures standing { OnOk result (self.new.standing ≡ Standing.Up) }
        ensures down { OnErr result (is_up self.new.standing ≡ false) }
        ensures called { (old : Old R) (rules : RulesDisk R) (trip : Option RulesTrip) → KeepsBehind F.spelling F.is_record F.frame_bytes D.tells (D.seen disk.old) (stored self.old) old rules trip
            → Called 0 trip (Append entry ∷ Sync ∷ TrimFront ∷ []) (D.seen disk.old) (D.seen disk.new) result }
        ensures cause { HasCauseOf Break.Failed (D.seen disk.old).faults (D.seen disk.new).faults result }
    {
        match self.force(disk, entry) {
            Ok(()) => self.trim(disk),
            Err(why) => Err(why),
        }
    }

    /// Starts an actor that is down: a torn rest is cut back, and this record is appended and synced.
    pub fn start<D: Disk>(&mut self, disk: &mut D, entry: R) -> Result<(), Break>
        requires told { IsTrue D.tells }
        requires kept { SomeKeptBehind (KeepsBehind F.spelling F.is_record F.frame_bytes D.tells (D.seen disk.old) (stored self.old)) }
        requires stopped { is_up self.old.standing ≡ false }
        requires reserved { HasRoom (written_size F.spelling entry) self.old.journal }
        requires in_range { F.in_range entry }
        requires payload { IsPayload (F.spelling entry) }
        ensures ends { (old : Old R) (rules : RulesDisk R) (trip : Option RulesTrip) → KeepsBehind F.spelling F.is_record F.frame_bytes D.tells (D.seen disk.old) (stored self.old) old rules trip
            → Ends F.frame_bytes (KeepsBehind F.spelling F.is_record F.frame_bytes D.tells (D.seen disk.new) (stored self.new) old) rules trip (cut_calls F.frame_bytes rules ++ Append entry ∷ Sync ∷ []) result }
        ensures standing { OnOk result (self.new.standing ≡ Standing.Up) }
        ensures down { OnErr result (is_up self.new.standing ≡ false) }
        ensures called { (old : Old R) (rules : RulesDisk R) (trip : Option RulesTrip) → KeepsBehind F.spelling F.is_record F.frame_bytes D.tells (D.seen disk.old) (stored self.old) old rules trip
            → Called (uncounted (stored self.old)) trip (cut_calls F.frame_bytes rules ++ Append entry ∷ Sync ∷ []) (D.seen disk.old) (D.seen disk.new) result }
        ensures cause { HasCauseOf Break.Failed (D.seen disk.old).faults (D.seen disk.new).faults result }
    {
        match self.open(disk) {
            Ok(()) => self.force(disk, entry),
            Err(why) => Err(why),
        }
    }
}
