//! Scripted stops, and a line with the stop that is armed behind it.
ghost use Rattle.std.specs.Prelude.{◌≡◌, ◌+◌, ◌^◌, ◌<◌, ◌≤◌, ◌∷◌, ◌++◌, [], Bool, false, List, Option, Some, length, slice_get};
ghost use Rattle.mdb_base.specs.Words.{Each};
ghost use Rattle.fed_rules.specs.declared.messages.ToSite.{ToSite};
ghost use Rattle.fed_messages.specs.declared.Envelope.{Envelope};
ghost use Rattle.journal_disk.specs.Disk.{Seen};
ghost use Rattle.local_dbms.specs.Stands.{Stands};
ghost use Rattle.scripted_link.specs.Outlets.{HasMovedOn};
ghost use Rattle.fed_hosts.specs.Carrying.{HasArmed, IsBesideLines, IsTold, turn_of};
ghost use Rattle.fed_hosts.specs.Keeps.{IsKept, IsLogged, IsStop};
ghost use Rattle.host_laws.specs.Plans.{SitePlan, most_lines};
ghost use Rattle.fed_hosts.specs.Rooms.{HasLineRoom, HasRoom, IsReady};
ghost use Rattle.host_laws.specs.Turns.{SiteTurn, is_trip, past_of};

use crate::site_actor::{LineParts, MOST_LINES, SiteActor};
use engine_contract::LocalEngine;
use fed_rules::{Command, StopLine};
use journal_disk::Disk;

/// The stop at this place.
pub(crate) fn stop_at(stops: &Vec<StopLine>, place: usize) -> StopLine
    requires { place < length stops.now.items }
    ensures { slice_get stops.now.items place ≡ Some result }
{
    stops[place]
}

impl<E: LocalEngine, D: Disk> SiteActor<E, D> {
    /// Arms the next scripted stop by a line with the next stamp, where none is in force and one is left.
    pub(crate) fn arm_next(&mut self)
        requires room { HasLineRoom self.old }
        requires last { self.old.last + 1 < 2 ^ 64 }
        ensures armed { (tells : Bool) (seen : Seen) (plan : SitePlan) (turns : List SiteTurn)
            → IsLogged plan turns self.old → 1 ≤ length turns → Each (IsStop plan.home.site.0) plan.stops → self.old.ends.site ≡ plan.home.site
            → Stands E.stands tells self.old.dbms seen plan.home plan.programs (past_of plan turns)
            → HasArmed E.stands tells seen plan turns self.old.lines.items self.new }
        ensures beside { IsBesideLines self.old self.new }
    {
        if self.lines.len() >= MOST_LINES || self.armed >= self.stops.len() {
            return;
        }
        if self.dbms.core().is_armed() {
            return;
        }
        let stop = stop_at(&self.stops, self.armed);
        let answer = self.dbms.arm(stop.calls, stop.cut);
        self.armed += 1;
        self.keep(LineParts {
            command: Command::Trip {
                actor: stop.actor,
                calls: stop.calls,
                cut: stop.cut,
            },
            answer,
            send: None,
            after: 0,
        });
    }

    /// Adds a line, arms the next scripted stop behind it, and moves what is sent on its way.
    pub(crate) fn carry(&mut self, told: LineParts)
        requires room { HasRoom self.old }
        requires ready { IsReady self.old told }
        requires last { self.old.last + 2 < 2 ^ 64 }
        requires after { told.after + 2 < 2 ^ 64 }
        ensures carried { (tells : Bool) (seen : Seen) (plan : SitePlan) (turns : List SiteTurn) (took : Option (Envelope ToSite))
            → IsKept plan turns self.old → length turns < most_lines → IsTold plan turns told took → is_trip told.command ≡ false → Each (IsStop plan.home.site.0) plan.stops → self.old.ends.site ≡ plan.home.site
            → Stands E.stands tells self.old.dbms seen plan.home plan.programs (past_of plan (turn_of self.old told took ∷ turns))
            → HasArmed E.stands tells seen plan (turn_of self.old told took ∷ turns) (self.old.lines.items ++ (turn_of self.old told took).line ∷ []) self.new }
        ensures moved_on { HasMovedOn self.new.ends.outlet }
        ensures beside { IsBesideLines self.old self.new }
    {
        self.keep(told);
        self.arm_next();
        self.ends.outlet.flush();
    }
}
