//! What the records of a journal said so far.
ghost use Rattle.std.specs.Prelude.{◌≡◌, IfOk, OnOk, List, [], ◌∷◌, ◌++◌, reverse};
ghost use Rattle.fed_rules.specs.declared.records.SiteRecord.{SiteRecord};
ghost use Rattle.fed_rules.specs.declared.records.SiteRecord.TheVariants as Rec;
ghost use Rattle.fed_rules.specs.declared.sums.SiteSum.{SiteSum};
ghost use Rattle.fed_rules.specs.SiteRecords.{Home};
ghost use Rattle.fed_rules.specs.SiteSums.{sum_with};
ghost use Rattle.journal_sums.specs.Journals.{Begins, IsFirst, first_sum};
ghost use Rattle.journal_sums.specs.Readings.{Adds, Says, SaysJournal};

use crate::copies::copy_rows;
use crate::counters::SiteCounters;
use crate::doubtful::{by_attempt, first_doubtful, put, settle};
use crate::locals::all_locals;
use crate::versions::{Versions, first_versions, install, rows_of};
use fed_rules::{DoubtfulSum, DoubtfulSums, SiteRecord, SiteSum};
use mdb_base::{Engine, Memory, Puts, SiteId, Tid, Tids};
use presumptions::{Decision, Protocol};
use std::alloc::Global;
use std::collections::BTreeMap;

/// What a Checkpoint and the records behind it say together.
#[derive(Drop)]
pub(crate) struct Reading {
    pub site: SiteId,
    pub engine: Engine,
    pub protocol: Protocol,
    pub counters: SiteCounters,
    /// Each key with its value and the number that wrote it.
    pub versions: Versions,
    /// The local attempts of the Checkpoint.
    pub first_locals: Tids,
    /// Those of the records behind it, the oldest first.
    pub locals: Vec<Tid>,
    pub doubtful: BTreeMap<Tid, DoubtfulSum>,
}

impl Reading {
    /// Reads the oldest record, a Setup or a Checkpoint.
    pub fn begin(alloc: Global, oldest: &SiteRecord) -> Result<Reading, Memory>
        requires { IsFirst oldest.now }
        ensures { IfOk result (λ reading. (home : Home) → Begins home oldest.now → SaysJournal reading home (oldest.now ∷ [])) }
    {
        match oldest {
            SiteRecord::Setup {
                site,
                engine,
                protocol,
                items,
            } => {
                let sum = set_up(alloc, *site, *engine, *protocol, items)?;
                Reading::of(alloc, &sum)
            }
            SiteRecord::Checkpoint(sum) => Reading::of(alloc, sum),
            _ => unreachable!(),
        }
    }

    /// What this Checkpoint says.
    fn of(alloc: Global, sum: &SiteSum) -> Result<Reading, Memory>
        ensures { IfOk result (λ reading. Says reading sum.now []) }
    {
        Ok(Reading {
            site: sum.site,
            engine: sum.engine,
            protocol: sum.protocol,
            counters: SiteCounters::of(sum),
            versions: first_versions(alloc, &sum.rows)?,
            first_locals: Tids::of(Vec::from_slice(alloc, sum.locals.as_slice())?),
            locals: Vec::new(alloc),
            doubtful: first_doubtful(alloc, &sum.doubtful)?,
        })
    }

    /// Reads these records, the oldest first. After want of memory the reading says nothing.
    pub fn take_all(&mut self, alloc: Global, entries: &[SiteRecord]) -> Result<(), Memory>
        ensures { OnOk result ((home : Home) (journal : List SiteRecord) → SaysJournal self.old home journal
            → SaysJournal self.new home (reverse entries.now ++ journal)) }
    {
        for entry in entries {
            self.take(alloc, entry)?;
        }
        Ok(())
    }

    /// Reads the next record: a Checkpoint stands for all before it.
    fn take(&mut self, alloc: Global, entry: &SiteRecord) -> Result<(), Memory>
        ensures { OnOk result ((home : Home) (journal : List SiteRecord) → SaysJournal self.old home journal
            → SaysJournal self.new home (entry.now ∷ journal)) }
    {
        if let SiteRecord::Checkpoint(sum) = entry {
            *self = Reading::of(alloc, sum)?;
            Ok(())
        } else {
            self.counters = self.counters.after(entry);
            self.hold(alloc, entry)
        }
    }

    /// Holds what a record says beside the counters. A Checkpoint says nothing new.
    fn hold(&mut self, alloc: Global, entry: &SiteRecord) -> Result<(), Memory>
        ensures held { OnOk result (Adds self.old self.new entry.now) }
        ensures counters { self.new.counters ≡ self.old.counters }
    {
        match entry {
            SiteRecord::Prepared {
                tid,
                epoch,
                number,
                ticket,
                writes,
            } => {
                let held = DoubtfulSum {
                    tid: *tid,
                    epoch: *epoch,
                    number: *number,
                    ticket: *ticket,
                    writes: copy_rows(alloc, writes)?,
                };
                put(&mut self.doubtful, held)
            }
            SiteRecord::Ended { tid, decision } => self.end(*tid, *decision),
            SiteRecord::Local {
                tid,
                number,
                writes,
            } => {
                install(&mut self.versions, writes, *number)?;
                self.locals.push(*tid)?;
                Ok(())
            }
            _ => Ok(()),
        }
    }

    /// An attempt ended: it is settled, and its writes are installed at a commit, if it was in doubt.
    fn end(&mut self, tid: Tid, decision: Decision) -> Result<(), Memory>
        ensures ended { OnOk result (Adds self.old self.new (Rec.Ended tid decision)) }
        ensures counters { self.new.counters ≡ self.old.counters }
    {
        let held = settle(&mut self.doubtful, tid);
        match decision {
            Decision::Commit => match held {
                Some(held) => install(&mut self.versions, &held.writes, held.number),
                None => Ok(()),
            },
            Decision::Abort => Ok(()),
        }
    }

    /// All that was read, as the content of a Checkpoint.
    pub fn into_sum(self, alloc: Global) -> Result<SiteSum, Memory>
        ensures { IfOk result (λ all. (sum : SiteSum) (newer : List SiteRecord) → Says self sum newer → all ≡ sum_with sum newer) }
    {
        let Reading {
            site,
            engine,
            protocol,
            counters,
            versions,
            first_locals,
            locals,
            doubtful,
        } = self;
        let rows = rows_of(alloc, &versions)?;
        let locals = all_locals(alloc, first_locals.as_slice(), locals)?;
        let doubtful = by_attempt(alloc, doubtful)?;
        Ok(SiteSum {
            site,
            engine,
            protocol,
            epoch: counters.epoch,
            counter: counters.counter,
            published: counters.published,
            owner: counters.owner,
            rows,
            locals,
            doubtful,
        })
    }
}

/// What a site says that was just set up.
fn set_up(
    alloc: Global,
    site: SiteId,
    engine: Engine,
    protocol: Protocol,
    items: &Puts,
) -> Result<SiteSum, Memory>
    ensures { IfOk result (λ sum. sum ≡ first_sum (record { site = site; engine = engine; protocol = protocol; items = items.now })) }
{
    Ok(SiteSum {
        site,
        engine,
        protocol,
        epoch: 0,
        counter: 0,
        published: 0,
        owner: None,
        rows: copy_rows(alloc, items)?,
        locals: Tids::of(Vec::new(alloc)),
        doubtful: DoubtfulSums::of(Vec::new(alloc)),
    })
}
