//! The setting of a trip by itself.
ghost use Rattle.std.specs.Prelude.{◌≡◌, ◌∷◌, Bool};
ghost use Rattle.fed_rules.specs.declared.events.SiteEvent.TheVariants as Ev;
ghost use Rattle.fed_rules.specs.Site.{site_line};
ghost use Rattle.fed_rules.specs.SitePast.{SitePast};
ghost use Rattle.fed_rules.specs.SiteRecords.{Home};
ghost use Rattle.journal_disk.specs.Disk.{Seen};
ghost use Rattle.site_core.specs.Stands.{Stands};
ghost use Rattle.site_core.specs.Steps.{EachPast};

use crate::site::SiteCore;
use engine_contract::LocalEngine;
use fed_rules::Answer;

impl<E: LocalEngine> SiteCore<E> {
    /// Sets a trip, which stops the site right after so many further disk calls; one of no calls disarms. It is the step of a trip, but
    /// takes no memory and touches no disk.
    pub fn arm(&mut self, calls: u32, cut: u64) -> Answer
        ensures said { (home : Home) (past : SitePast) → result ≡ (site_line home past (Ev.Trip calls cut)).answer }
        ensures stood { (tells : Bool) (disk : Seen) → EachPast (Stands E.stands tells self.old disk)
            (λ home past. Stands E.stands tells self.new disk home (site_line home past (Ev.Trip calls cut) ∷ past)) }
    {
        let step = self.set_trip(calls, cut);
        step.answer
    }
}
