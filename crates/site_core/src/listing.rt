//! Which attempts are live at a site, and which ones it is in doubt of, by rising attempt.
ghost use Rattle.std.specs.Prelude.{◌≡◌, false, is_some, map, IfOk};
ghost use Rattle.fed_rules.specs.Happenings.{is_down};
ghost use Rattle.fed_rules.specs.SitePast.{live, records};
ghost use Rattle.fed_rules.specs.SiteRecords.{doubt_of};
ghost use Rattle.site_book.specs.Listing.{Lists};
ghost use Rattle.site_core.specs.Stands.{Holds};
ghost use Rattle.site_core.specs.Steps.{EachPast};

use crate::site::SiteCore;
use engine_contract::LocalEngine;
use mdb_base::{Memory, Tid};
use prepared_state::PreparedBook;
use std::alloc::Global;

/// The attempts of a book of doubts, in its order.
fn tids_of(alloc: Global, doubts: &PreparedBook) -> Result<Vec<Tid>, Memory>
    ensures { IfOk result (λ tids. tids.items ≡ map (λ doubt. doubt.tid) doubts.now.doubts) }
{
    let mut tids = Vec::new(alloc);
    for place in 0..doubts.len() {
        tids.push(doubts.at(place).tid)?;
    }
    Ok(tids)
}

impl<E: LocalEngine> SiteCore<E> {
    /// The live attempts of a site that is up, by rising attempt.
    pub fn live_tids(&self, alloc: Global) -> Result<Vec<Tid>, Memory>
        ensures { IfOk result (λ tids. EachPast (Holds E.stands self.now) (λ home past. is_down past ≡ false → Lists (λ tid. is_some (live home past tid)) tids.items)) }
    {
        self.book.live_tids(alloc)
    }

    /// The attempts that a site that is up is in doubt of, by rising attempt.
    pub fn doubtful_tids(&self, alloc: Global) -> Result<Vec<Tid>, Memory>
        ensures { IfOk result (λ tids. EachPast (Holds E.stands self.now) (λ home past. is_down past ≡ false → Lists (λ tid. is_some (doubt_of (records home past) tid)) tids.items)) }
    {
        let _ = self.doubts.len();
        tids_of(alloc, &self.doubts)
    }
}
