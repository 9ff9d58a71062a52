//! The coordinator's scripted stops, and a line with the stop that is armed behind it.
ghost use Rattle.std.specs.Prelude.{◌≡◌, ◌+◌, ◌^◌, ◌<◌, ◌≤◌, ◌∷◌, ◌++◌, [], Bool, false, List, Option, length};
ghost use Rattle.fed_rules.specs.declared.messages.FromSite.{FromSite};
ghost use Rattle.fed_messages.specs.declared.Envelope.{Envelope};
ghost use Rattle.journal_disk.specs.Disk.{Seen};
ghost use Rattle.global_manager.specs.Stands.{Stands};
ghost use Rattle.scripted_link.specs.Rings.{Wire};
ghost use Rattle.fed_hosts.specs.CoordCarrying.{HasCoordArmed, IsBesideCoordLines, IsCoordTold, coord_turn_of};
ghost use Rattle.fed_hosts.specs.CoordKeeps.{IsCoordKept, IsCoordLogged, IsCoordPlanned};
ghost use Rattle.host_laws.specs.CoordPlans.{CoordPlan};
ghost use Rattle.fed_hosts.specs.CoordRooms.{HasCoordLineRoom, HasCoordRoom, IsCoordReady};
ghost use Rattle.fed_hosts.specs.Ports.{HaveMovedOn};
ghost use Rattle.host_laws.specs.CoordTurns.{CoordTurn, coord_past_of};
ghost use Rattle.host_laws.specs.Plans.{most_lines};
ghost use Rattle.host_laws.specs.Turns.{is_trip};

use crate::arming::stop_at;
use crate::coord_actor::{CoordActor, CoordLineParts};
use crate::posting::flush_all;
use crate::site_actor::MOST_LINES;
use fed_rules::Command;
use global_exec::TakePolicy;
use journal_disk::Disk;

impl<P: TakePolicy, D: Disk> CoordActor<P, D> {
    /// Arms the next scripted stop by a line with the next stamp, where none is in force and one is left.
    pub(crate) fn arm_next(&mut self)
        requires room { HasCoordLineRoom self.old }
        requires last { self.old.last + 1 < 2 ^ 64 }
        ensures armed { (tells : Bool) (seen : Seen) (rings : List Wire) (plan : CoordPlan) (turns : List CoordTurn)
            → IsCoordLogged plan turns self.old → 1 ≤ length turns → IsCoordPlanned rings plan self.old.ports.items
            → Stands P.policy tells self.old.manager seen plan.terms plan.programs (coord_past_of plan turns)
            → HasCoordArmed P.policy tells seen plan turns self.old.lines.items self.new }
        ensures disk { self.new.disk ≡ self.old.disk }
        ensures ports { self.new.ports ≡ self.old.ports }
        ensures first { self.new.first ≡ self.old.first }
    {
        if self.lines.len() >= MOST_LINES || self.armed >= self.stops.len() {
            return;
        }
        if self.manager.core().is_armed() {
            return;
        }
        let stop = stop_at(&self.stops, self.armed);
        let answer = self.manager.arm(stop.calls, stop.cut);
        self.armed += 1;
        let command = Command::Trip {
            actor: stop.actor,
            calls: stop.calls,
            cut: stop.cut,
        };
        self.note(command, answer);
    }

    /// Adds a line, arms the next scripted stop behind it, and moves what is sent on its way.
    pub(crate) fn carry(&mut self, told: CoordLineParts)
        requires room { HasCoordRoom self.old }
        requires ready { IsCoordReady self.old told }
        requires last { self.old.last + 2 < 2 ^ 64 }
        requires after { told.after + 2 < 2 ^ 64 }
        ensures carried { (tells : Bool) (seen : Seen) (rings : List Wire) (plan : CoordPlan) (turns : List CoordTurn) (took : Option (Envelope FromSite))
            → IsCoordKept plan turns self.old → length turns < most_lines → IsCoordTold plan turns told took → is_trip told.command ≡ false → IsCoordPlanned rings plan self.old.ports.items
            → Stands P.policy tells self.old.manager seen plan.terms plan.programs (coord_past_of plan (coord_turn_of self.old told took ∷ turns))
            → HasCoordArmed P.policy tells seen plan (coord_turn_of self.old told took ∷ turns) (self.old.lines.items ++ (coord_turn_of self.old told took).line ∷ []) self.new }
        ensures moved_on { HaveMovedOn self.new.ports.items }
        ensures beside { IsBesideCoordLines self.old self.new }
    {
        self.keep(told);
        self.arm_next();
        flush_all(&mut self.ports);
    }
}
