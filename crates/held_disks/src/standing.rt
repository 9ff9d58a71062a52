//! What is on the disk of an actor that stands for its past with it.
ghost use Rattle.std.specs.Prelude.{◌≡◌, Bool, false};
ghost use Rattle.fed_rules.specs.CoordPast.{CoordPast};
ghost use Rattle.fed_rules.specs.SitePast.{SitePast};
ghost use Rattle.fed_rules.specs.SiteRecords.{Home};
ghost use Rattle.fed_rules.specs.Terms.{Terms};
ghost use Rattle.journal_disk.specs.Disk.{Seen};
ghost use Rattle.coord_core.specs.declared.coord.CoordCore.{CoordCore};
ghost use Rattle.coord_core.specs.Found.{was_found as coord_was_found};
ghost use Rattle.coord_core.specs.Stands.{Stands as CoordStands};
ghost use Rattle.site_core.specs.declared.site.SiteCore.{SiteCore};
ghost use Rattle.site_core.specs.Made.{was_found as site_was_found};
ghost use Rattle.site_core.specs.Stands.{Stands as SiteStands};
ghost use Rattle.held_disks.specs.Holding.{CoordHolds, SiteHolds};

use engine_contract::LocalEngine;
use global_exec::TakePolicy;

/// A site that began with an empty disk has the records of its past there, and of one that a stop tore the first bytes of its frame.
pub fn sites_hold_their_records<E: LocalEngine>()
    ensures { (tells : Bool) (core : SiteCore E) (disk : Seen) (home : Home) (past : SitePast) → site_was_found past ≡ false
        → SiteStands E.stands tells core disk home past → SiteHolds disk.image home past }
{}

/// And so has a coordinator.
pub fn coordinators_hold_their_records<P: TakePolicy>()
    ensures { (tells : Bool) (core : CoordCore P) (disk : Seen) (terms : Terms) (past : CoordPast) → coord_was_found past ≡ false
        → CoordStands P.policy tells core disk terms past → CoordHolds disk.image past }
{}
