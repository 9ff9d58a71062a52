//! Whether a session may go on from nine journals.
ghost use Rattle.std.specs.Prelude.{◌≡◌, IfOk, IfErr, IsTrue, None, OnOk, length, map};
ghost use Rattle.frame_journal.specs.Journal.{records};
ghost use Rattle.found_laws.specs.Ranges.{AreInRange};
ghost use Rattle.found_laws.specs.FoundSessions.{AreUsable};
ghost use Rattle.found_disks.specs.Finding.{FindsAs, IsRefused, NamesOf, found_in};
ghost use Rattle.found_disks.specs.Reading.{FaultsTell, images_of};

use crate::errors::ReopenErr;
use crate::reading::{Journals, read_journals};
use fed_rules::SiteRecord;
use journal_disk::Disk;
use mdb_base::Memory;
use site_journal::SiteJournal;
use std::alloc::Global;
use usable_journals::first_foreign;

/// The records of each of these journals, the oldest first.
fn records_of<'a>(
    alloc: Global,
    journals: &'a [SiteJournal],
) -> Result<Vec<&'a [SiteRecord]>, Memory>
    ensures { IfOk result (λ all. map (λ s. s.now) all.items ≡ map records journals.now) }
{
    let mut all = Vec::new(alloc);
    for journal in journals {
        all.push(journal.records())?;
    }
    Ok(all)
}

/// Refuses journals of which one isn't usable: the least disk is named.
fn refuse_foreign(alloc: Global, journals: &Journals) -> Result<(), ReopenErr>
    requires { length journals.now.sites.items ≡ 8 }
    ensures usable { OnOk result (NamesOf journals.now None) }
    ensures foreign { IfErr result (IsRefused journals.now) }
{
    let Ok(sites) = records_of(alloc, journals.sites.as_slice()) else {
        return Err(ReopenErr::Memory);
    };
    match first_foreign(alloc, journals.coordinator.records(), sites.as_slice()) {
        Ok(None) => Ok(()),
        Ok(Some(number)) => Err(ReopenErr::Foreign { number }),
        Err(Memory) => Err(ReopenErr::Memory),
    }
}

/// The journals on nine disks from which a session may go on: that of the coordinator on disk 0, and that of each site on the disk of its
/// number, with frames of either version. The attempts that they name lie in their range. The first damaged disk is named, and where none
/// is, the first one that isn't usable. A failed call of a disk is told at once. The bytes on the disks stay.
#[tactic(none)]
pub fn find_journals<D: Disk>(alloc: Global, disks: &mut Vec<D>) -> Result<Journals, ReopenErr>
    requires told { IsTrue D.tells }
    requires nine { length disks.old.items ≡ 9 }
    ensures found { FindsAs result (images_of (map D.seen disks.old.items)) }
    ensures usable { IfOk result (λ journals. AreUsable (found_in (images_of (map D.seen disks.old.items)) journals)) }
    ensures range { IfOk result (λ journals. AreInRange (found_in (images_of (map D.seen disks.old.items)) journals)) }
    ensures images { images_of (map D.seen disks.new.items) ≡ images_of (map D.seen disks.old.items) }
    ensures cause { FaultsTell result (map D.seen disks.old.items) (map D.seen disks.new.items) }
{
    match read_journals(alloc, disks) {
        Ok(journals) => match refuse_foreign(alloc, &journals) {
            Ok(()) => Ok(journals),
            Err(why) => Err(why),
        },
        Err(why) => Err(why),
    }
}
