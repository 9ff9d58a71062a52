//! A halt, and the setting of a trip.
ghost use Rattle.std.specs.Prelude.{◌≡◌, None, Ok, IsOkAnd, IsTrue};
ghost use Rattle.fed_rules.specs.Site.{site_line};
ghost use Rattle.actor_store.specs.Store.{trip_to};
ghost use Rattle.site_core.specs.Stands.{Stands};
ghost use Rattle.site_core.specs.Steps.{AnswersEach, AnyPast, SomePast};

use crate::answers::{said, says};
use crate::site::SiteCore;
use actor_store::{Standing, StepErr};
use engine_contract::LocalEngine;
use fed_rules::{Answer, SiteEvent, SiteStep};
use journal_disk::Disk;

impl<E: LocalEngine> SiteCore<E> {
    /// Stops the site with this cut.
    pub(crate) fn halt<D: Disk>(&mut self, disk: &mut D, cut: u64) -> Result<SiteStep, StepErr>
        requires told { IsTrue D.tells }
        requires up { self.old.store.standing ≡ Standing.Up }
        requires may { SomePast (Stands E.stands D.tells self.old (D.seen disk.old)) AnyPast }
        ensures answered { IsOkAnd result (AnswersEach E.stands D.tells self.old (D.seen disk.old) self.new (D.seen disk.new) 0 (λ home past. site_line home past (SiteEvent.Halt cut))) }
        ensures faults { (D.seen disk.new).faults ≡ (D.seen disk.old).faults }
    {
        let kept = self.store.stop(disk, cut);
        said(Answer::Stopped(kept))
    }

    /// Sets a trip at an event.
    pub(crate) fn trips(&mut self, calls: u32, cut: u64) -> Result<SiteStep, StepErr>
        ensures said { result ≡ Ok (record { answer = Answer.Set; sends = None }) }
        ensures trip { self.new ≡ record self.old { store = record self.old.store { trip = trip_to calls cut } } }
    {
        Ok(self.set_trip(calls, cut))
    }

    /// Sets a trip; one of no calls disarms.
    pub(crate) fn set_trip(&mut self, calls: u32, cut: u64) -> SiteStep
        ensures said { result ≡ record { answer = Answer.Set; sends = None } }
        ensures trip { self.new ≡ record self.old { store = record self.old.store { trip = trip_to calls cut } } }
    {
        self.store.set_trip(calls, cut);
        says(Answer::Set)
    }
}
