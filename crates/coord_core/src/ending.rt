//! How a line ends whose tables stand already.
ghost use Rattle.std.specs.Prelude.{◌≡◌, ◌+◌, [], ◌∷◌, option_to_list, IfErr, IfOk, IfSome, IsTrue, OnOk};
ghost use Rattle.mdb_base.specs.Counts.{HasCauseOf};
ghost use Rattle.fed_rules.specs.declared.records.CoordRecord.{CoordRecord as TheRecord};
ghost use Rattle.fed_rules.specs.Coord.{forced};
ghost use Rattle.fed_rules.specs.Disk.{Append, Disk as RulesDisk};
ghost use Rattle.fed_rules.specs.Happenings.{Trip as RulesTrip};
ghost use Rattle.std.specs.Prelude.{Option as OptionOf};
ghost use Rattle.journal_disk.specs.Frames.{IsPayload};
ghost use Rattle.frame_journal.specs.Journal.{HasRoom, written_size};
ghost use Rattle.coord_journal.specs.Spelling.{InRange, spelling};
ghost use Rattle.actor_store.specs.Store.{Old, SomeKeptBehind};
ghost use Rattle.coord_core.specs.Pending.{EachLine, IsPending};
ghost use Rattle.coord_core.specs.Stands.{Fails, Steps, calls_for};
ghost use Rattle.coord_core.specs.Store.{KeepsBehind};
ghost use Rattle.coord_tables.specs.Terms.{line_of};

use crate::coord::{CoordCore, CoordStore, silent};
use actor_store::{Break, Standing, StepErr};
use coord_journal::{CoordJournal, CoordRecord};
use fed_rules::{Answer, CoordStep};
use global_exec::TakePolicy;
use journal_disk::Disk;
use mdb_base::Memory;
use std::alloc::Global;

/// Makes room for a record, where there is one.
pub(crate) fn room_for<D: Disk>(
    store: &mut CoordStore,
    alloc: Global,
    disk: &mut D,
    entry: &Option<CoordRecord>,
) -> Result<(), Memory>
    requires told { IsTrue D.tells }
    requires kept { SomeKeptBehind (KeepsBehind D.tells (D.seen disk.old) store.old) }
    requires fits { IfSome entry.now (λ entry. IsPayload (spelling entry)) }
    ensures keeps { (old : Old TheRecord) (rules : RulesDisk TheRecord) (trip : OptionOf RulesTrip) → KeepsBehind D.tells (D.seen disk.old) store.old old rules trip
        → KeepsBehind D.tells (D.seen disk.new) store.new old rules trip }
    ensures room { OnOk result (IfSome entry.now (λ entry. HasRoom (written_size spelling entry) store.new.journal)) }
    ensures standing { store.new.standing ≡ store.old.standing }
    ensures called { (D.seen disk.new).calls ≡ (D.seen disk.old).calls }
    ensures faults { (D.seen disk.new).faults ≡ (D.seen disk.old).faults }
{
    match entry {
        None => Ok(()),
        Some(entry) => {
            let bytes = CoordJournal::frame_len(entry);
            store.make_room(alloc, disk, 1, bytes)
        }
    }
}

impl<P: TakePolicy> CoordCore<P> {
    /// Ends a line whose tables stand already: its record, where it has one, is forced, and the step is answered, unless the trip or a
    /// failure comes within its disk calls.
    pub(crate) fn end<D: Disk>(
        &mut self,
        alloc: Global,
        disk: &mut D,
        entry: Option<CoordRecord>,
        step: CoordStep,
    ) -> Result<CoordStep, StepErr>
        requires told { IsTrue D.tells }
        requires kept { SomeKeptBehind (KeepsBehind D.tells (D.seen disk.old) self.old.store) }
        requires up { self.old.store.standing ≡ Standing.Up }
        requires reserved { IfSome entry (λ entry. HasRoom (written_size spelling entry) self.old.store.journal) }
        requires in_range { IfSome entry InRange }
        requires payload { IfSome entry (λ entry. IsPayload (spelling entry)) }
        ensures answered { IfOk result (λ ended. EachLine (IsPending P.policy D.tells (forced (option_to_list entry)) step self.old (D.seen disk.old))
            (λ terms past event x. Steps P.policy D.tells 0 (D.seen disk.old) ended self.new (D.seen disk.new) terms past (line_of terms past event))) }
        ensures failed { IfErr result (λ why. EachLine (IsPending P.policy D.tells (forced (option_to_list entry)) step self.old (D.seen disk.old))
            (λ terms past event x. Fails P.policy D.tells (0 + calls_for terms past event) (D.seen disk.old) why self.new (D.seen disk.new) terms past event)) }
        ensures cause { HasCauseOf StepErr.Disk (D.seen disk.old).faults (D.seen disk.new).faults result }
    {
        match entry {
            None => Ok(step),
            Some(entry) => match self.store.force(disk, entry) {
                Ok(()) => Ok(step),
                Err(Break::Stopped(kept)) => {
                    drop(step);
                    Ok(silent(alloc, Answer::Stopped(kept)))
                }
                Err(Break::Failed) => {
                    drop(step);
                    Err(StepErr::Disk)
                }
            },
        }
    }

    /// Ends a line whose tables stand already: its record is appended and not synced, and the step is answered, unless the trip or a failure
    /// comes within this disk call.
    pub(crate) fn note<D: Disk>(
        &mut self,
        alloc: Global,
        disk: &mut D,
        entry: CoordRecord,
        step: CoordStep,
    ) -> Result<CoordStep, StepErr>
        requires told { IsTrue D.tells }
        requires kept { SomeKeptBehind (KeepsBehind D.tells (D.seen disk.old) self.old.store) }
        requires up { self.old.store.standing ≡ Standing.Up }
        requires reserved { HasRoom (written_size spelling entry) self.old.store.journal }
        requires in_range { InRange entry }
        requires payload { IsPayload (spelling entry) }
        ensures answered { IfOk result (λ ended. EachLine (IsPending P.policy D.tells (Append entry ∷ []) step self.old (D.seen disk.old))
            (λ terms past event x. Steps P.policy D.tells 0 (D.seen disk.old) ended self.new (D.seen disk.new) terms past (line_of terms past event))) }
        ensures failed { IfErr result (λ why. EachLine (IsPending P.policy D.tells (Append entry ∷ []) step self.old (D.seen disk.old))
            (λ terms past event x. Fails P.policy D.tells (0 + calls_for terms past event) (D.seen disk.old) why self.new (D.seen disk.new) terms past event)) }
        ensures cause { HasCauseOf StepErr.Disk (D.seen disk.old).faults (D.seen disk.new).faults result }
    {
        match self.store.append(disk, entry) {
            Ok(()) => Ok(step),
            Err(Break::Stopped(kept)) => {
                drop(step);
                Ok(silent(alloc, Answer::Stopped(kept)))
            }
            Err(Break::Failed) => {
                drop(step);
                Err(StepErr::Disk)
            }
        }
    }
}
