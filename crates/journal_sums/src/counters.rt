//! The epoch, the greatest serial number, and the greatest ticket with its owner.
ghost use Rattle.std.specs.Prelude.{◌≡◌, max, nat_lt, cond, Some, List, [], ◌∷◌};
ghost use Rattle.fed_rules.specs.declared.records.SiteRecord.{SiteRecord};
ghost use Rattle.fed_rules.specs.declared.sums.SiteSum.{SiteSum};
ghost use Rattle.journal_sums.specs.Readings.{TellsCounters};

use fed_rules::{SiteRecord, SiteSum};
use mdb_base::Tid;

/// What a site counts.
#[derive(Clone, Copy)]
pub(crate) struct SiteCounters {
    /// The epoch of the last Start.
    pub epoch: u32,
    /// The greatest serial number.
    pub counter: u64,
    /// The greatest ticket, or 0, and the attempt that it belongs to.
    pub published: u64,
    pub owner: Option<Tid>,
}

impl SiteCounters {
    /// What a Checkpoint says of them.
    pub fn of(sum: &SiteSum) -> SiteCounters
        ensures { TellsCounters result sum.now [] }
    {
        SiteCounters {
            epoch: sum.epoch,
            counter: sum.counter,
            published: sum.published,
            owner: sum.owner,
        }
    }

    /// What they are with this record behind.
    pub fn after(self, entry: &SiteRecord) -> SiteCounters
        ensures { (sum : SiteSum) (newer : List SiteRecord) → TellsCounters self sum newer → TellsCounters result sum (entry.now ∷ newer) }
    {
        match entry {
            SiteRecord::Start { epoch } => SiteCounters {
                epoch: *epoch,
                ..self
            },
            SiteRecord::Prepared {
                tid,
                number,
                ticket,
                ..
            } => self.counting(*number).taking(*tid, *ticket),
            SiteRecord::Local { number, .. } => self.counting(*number),
            _ => self,
        }
    }

    // A number was given out.
    fn counting(self, number: u64) -> SiteCounters
        ensures { result ≡ record { epoch = self.epoch; counter = max number self.counter; published = self.published; owner = self.owner } }
    {
        SiteCounters {
            counter: self.counter.max(number),
            ..self
        }
    }

    // An attempt was prepared with this ticket.
    fn taking(self, tid: Tid, ticket: u64) -> SiteCounters
        ensures { result ≡ record {
          epoch = self.epoch;
          counter = self.counter;
          published = max ticket self.published;
          owner = cond (nat_lt self.published ticket) (Some tid) self.owner;
        } }
    {
        if self.published < ticket {
            SiteCounters {
                published: ticket,
                owner: Some(tid),
                ..self
            }
        } else {
            self
        }
    }
}
