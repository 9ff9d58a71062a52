//! The start of a site that is down.
ghost use Rattle.std.specs.Prelude.{◌≡◌, [], false, map, IfOk, IfErr, IsTrue, OnOk, OnErr};
ghost use Rattle.mdb_base.specs.Counts.{HasCauseOf};
ghost use Rattle.fed_rules.specs.Site.{site_line};
ghost use Rattle.actor_store.specs.Store.{is_up, stored, uncounted};
ghost use Rattle.mdb_base.specs.declared.names.Tid.{Tid};
ghost use Rattle.mdb_base.specs.declared.names.Tx.{Tx};
ghost use Rattle.fed_rules.specs.EngineLines.{IsStart};
ghost use Rattle.fed_rules.specs.SiteRecords.{kept_held};
ghost use Rattle.engine_contract.specs.Calls.{start_from};
ghost use Rattle.engine_contract.specs.Past.{EachPast as EachLines, KeepsPast};
ghost use Rattle.prepared_state.specs.Book.{AreApart, doubt_about};
ghost use Rattle.journal_sums.specs.Starts.{doubt_held};
ghost use Rattle.site_book.specs.Book.{begun_in, restarted};
ghost use Rattle.site_core.specs.Recovered.{held_tid};
ghost use Rattle.site_core.specs.Stands.{Stands, beside_rules};
ghost use Rattle.site_core.specs.Steps.{AnswersEach, BreaksEach, CanStep, SomePast};

use crate::answers::says;
use crate::site::SiteCore;
use actor_store::{Break, StepErr};
use engine_contract::LocalEngine;
use fed_rules::{Answer, DoubtfulSums, SiteEvent, SiteRecord, SiteStep, SiteSum};
use journal_disk::Disk;
use journal_sums::{doubts_of, kept_of, read_sum};
use mdb_base::{Memory, Tid};
use site_journal::SiteJournal;
use std::alloc::Global;

impl<E: LocalEngine> SiteCore<E> {
    /// Starts a site that is down: it reads its records again and starts the next epoch from what they say. A failed read disarms the
    /// trip, as a stop does.
    pub(crate) fn back<D: Disk>(&mut self, alloc: Global, disk: &mut D) -> Result<SiteStep, StepErr>
        requires told { IsTrue D.tells }
        requires down { is_up self.old.store.standing ≡ false }
        requires may { SomePast (Stands E.stands D.tells self.old (D.seen disk.old)) (CanStep SiteEvent.Back) }
        ensures answered { IfOk result (AnswersEach E.stands D.tells self.old (D.seen disk.old) self.new (D.seen disk.new) (beside_rules SiteEvent.Back self.old (D.seen disk.old)) (λ home past. site_line home past SiteEvent.Back)) }
        ensures failed { IfErr result (BreaksEach E.stands D.tells self.old (D.seen disk.old) self.new (D.seen disk.new) (beside_rules SiteEvent.Back self.old (D.seen disk.old)) SiteEvent.Back) }
        ensures cause { HasCauseOf StepErr.Disk (D.seen disk.old).faults (D.seen disk.new).faults result }
    {
        match self.store.reload(alloc, disk) {
            Ok(()) => self.start_epoch(alloc, disk),
            Err(StepErr::Memory) => Err(StepErr::Memory),
            Err(StepErr::Disk) => {
                self.store.trip = None;
                Err(StepErr::Disk)
            }
        }
    }

    /// Starts the next epoch from what the journal says: what is kept in memory and the engine first, and then the disk, with a torn
    /// rest cut back and the Start record forced.
    fn start_epoch<D: Disk>(&mut self, alloc: Global, disk: &mut D) -> Result<SiteStep, StepErr>
        requires told { IsTrue D.tells }
        requires down { is_up self.old.store.standing ≡ false }
        requires may { SomePast (Stands E.stands D.tells self.old (D.seen disk.old)) (CanStep SiteEvent.Back) }
        ensures answered { IfOk result (AnswersEach E.stands D.tells self.old (D.seen disk.old) self.new (D.seen disk.new) (uncounted (stored self.old.store)) (λ home past. site_line home past SiteEvent.Back)) }
        ensures failed { IfErr result (BreaksEach E.stands D.tells self.old (D.seen disk.old) self.new (D.seen disk.new) (uncounted (stored self.old.store)) SiteEvent.Back) }
        ensures cause { HasCauseOf StepErr.Disk (D.seen disk.old).faults (D.seen disk.new).faults result }
    {
        let Ok(sum) = read_sum(alloc, self.store.records()) else {
            return Err(StepErr::Memory);
        };
        let epoch = sum.epoch + 1;
        let doubtful = sum.doubtful.len() as u32;
        let start = SiteRecord::Start { epoch };
        let bytes = SiteJournal::frame_len(&start);
        let Ok(()) = self.store.make_room(alloc, disk, 1, bytes) else {
            return Err(StepErr::Memory);
        };
        let Ok(()) = self.recover(alloc, sum) else {
            return Err(StepErr::Memory);
        };
        self.epoch = epoch;
        match self.store.start(disk, start) {
            Ok(()) => Ok(says(Answer::UpSite { epoch, doubtful })),
            Err(Break::Stopped(kept)) => Ok(says(Answer::Stopped(kept))),
            Err(Break::Failed) => Err(StepErr::Disk),
        }
    }

    /// Makes what is kept in memory of a site that is up what this Sum says: the book, the doubts and the engine. Without memory some of
    /// it may be made so, which nothing asks of a site that is down.
    fn recover(&mut self, alloc: Global, sum: SiteSum) -> Result<(), Memory>
        requires start { IsStart (start_from (E.kind self.old.engine) sum.rows (map kept_held sum.doubtful) sum.counter sum.published sum.owner) }
        requires apart { AreApart (map doubt_held sum.doubtful) }
        ensures engine { OnOk result (EachLines E.stands self.old.engine (λ start lines.
            E.stands self.new.engine (start_from start.kind sum.rows (map kept_held sum.doubtful) sum.counter sum.published sum.owner) [])) }
        ensures book { OnOk result (self.new.book ≡ restarted sum.locals (map held_tid sum.doubtful) self.old.book) }
        ensures doubts { OnOk result ((tid : Tid) → doubt_about tid self.new.doubts.doubts ≡ doubt_about tid (map doubt_held sum.doubtful)) }
        ensures memory { OnErr result (KeepsPast E.stands self.old.engine self.new.engine) }
        ensures begun { (tx : Tx) → begun_in self.new.book tx ≡ begun_in self.old.book tx }
        ensures rest { self.new ≡ record self.old { engine = self.new.engine; book = self.new.book; doubts = self.new.doubts } }
    {
        let SiteSum {
            counter,
            published,
            owner,
            rows,
            locals,
            doubtful,
            ..
        } = sum;
        let doubts = doubts_of(alloc, &doubtful)?;
        let attempts = attempts_of(alloc, &doubtful)?;
        self.book.restart(alloc, locals.as_slice(), &attempts)?;
        self.doubts.restore(alloc, &doubts)?;
        let kept = kept_of(alloc, doubtful)?;
        self.engine
            .restart(alloc, &rows, &kept, counter, published, owner)
    }
}

/// The attempts in doubt.
fn attempts_of(alloc: Global, doubtful: &DoubtfulSums) -> Result<Vec<Tid>, Memory>
    ensures { IfOk result (λ tids. tids.items ≡ map held_tid doubtful.now) }
{
    let mut tids = Vec::with_capacity(alloc, doubtful.len())?;
    for held in doubtful.as_slice() {
        tids.push(held.tid)?;
    }
    Ok(tids)
}
