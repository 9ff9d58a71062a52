//! What a site does by itself: it asks about a subtransaction in doubt, and drops one that is live.
ghost use Rattle.std.specs.Prelude.{◌≡◌, IsOkAnd};
ghost use Rattle.fed_rules.specs.Site.{of_ask, of_drop};
ghost use Rattle.site_core.specs.Stands.{Holds};
ghost use Rattle.site_core.specs.Steps.{AddsWhere, AnyPast, SomePast};

use crate::answers::said;
use crate::site::SiteCore;
use actor_store::{Standing, StepErr};
use engine_contract::LocalEngine;
use fed_rules::{Answer, FromSite, SiteStep};
use mdb_base::Tid;

impl<E: LocalEngine> SiteCore<E> {
    /// An inquiry about a subtransaction in doubt, which goes to the coordinator.
    pub(crate) fn ask(&self, tid: Tid) -> Result<SiteStep, StepErr>
        requires up { self.now.store.standing ≡ Standing.Up }
        ensures { IsOkAnd result (AddsWhere E.stands self.now self.now AnyPast (λ home past. of_ask home past tid)) }
    {
        match self.doubts.doubtful(tid) {
            None => said(Answer::Idle),
            Some(_) => Ok(SiteStep {
                answer: Answer::Asks(tid),
                sends: Some(FromSite::Inquiry { tid }),
            }),
        }
    }

    /// A live subtransaction is dropped; an attempt of a local transaction isn't.
    pub(crate) fn give_up(&mut self, tid: Tid) -> Result<SiteStep, StepErr>
        requires up { self.old.store.standing ≡ Standing.Up }
        requires may { SomePast (Holds E.stands self.old) AnyPast }
        ensures answered { IsOkAnd result (AddsWhere E.stands self.old self.new AnyPast (λ home past. of_drop home past tid)) }
        ensures store { self.new.store ≡ self.old.store }
    {
        if self.book.begun(tid.tx) != 0 {
            return said(Answer::Idle);
        }
        if self.book.live(tid).is_none() {
            return said(Answer::Idle);
        }
        self.engine.abort(tid);
        self.book.close(tid);
        said(Answer::Dropped(tid))
    }
}
