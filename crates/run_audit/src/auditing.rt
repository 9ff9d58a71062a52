//! The audit of a whole text.
ghost use Rattle.std.specs.Prelude.{◌≡◌, ◌≤◌, IsTrue, length, map};
ghost use Rattle.fed_world.specs.SettingUp.{AreEmpty};
ghost use Rattle.run_audit.specs.Audits.{Answers, IsRefused, YesImplies};
ghost use Rattle.run_audit.specs.Causes.{CauseTells};

use crate::errors::{AuditErr, of_text, of_world};
use crate::submitted::submit;
use audit_rules::Verdict;
use journal_disk::Disk;
use std::alloc::Global;

/// The verdict on a text: a scenario, the line `printed`, and a printed run. Where the lines before `printed` spell no scenario, the first bad one
/// is named, and the disks aren't touched. A disk is named only where its count of faults rose in this call.
pub fn audit<D: Disk>(alloc: Global, text: &[u8], disks: &mut Vec<D>) -> Result<Verdict, AuditErr>
    requires told { IsTrue D.tells }
    requires nine { length disks.old.items ≡ 9 }
    requires empty { AreEmpty (map D.seen disks.old.items) }
    requires short { length text.now ≤ 4194304 }
    ensures exact { Answers result text.now }
    ensures headline { YesImplies result text.now }
    ensures untouched { IsRefused result → disks.new ≡ disks.old }
    ensures cause { CauseTells result (map D.seen disks.old.items) (map D.seen disks.new.items) }
    ensures count { length disks.new.items ≡ 9 }
{
    match submit(alloc, text) {
        Ok(handed) => match handed.audit(alloc, disks) {
            Ok(verdict) => Ok(verdict),
            Err(why) => Err(of_world(why)),
        },
        Err(why) => Err(of_text(why)),
    }
}
