//! How nine journals are read.
ghost use Rattle.std.specs.Prelude.{◌≡◌, ◌≤◌, ◌<◌, IfOk, IfErr, IsTrue, length, map};
ghost use Rattle.coord_journal.specs.Spelling as coordinators;
ghost use Rattle.site_journal.specs.Spelling as sites;
ghost use Rattle.found_disks.specs.Reading.{AreRead, AreReadFrom, AreSitesUnread, FaultsTell, IsFirstUnread, IsReadAt, IsReadFirst, IsUnread, images_of, unread};

use crate::errors::ReopenErr;
use coord_journal::CoordJournal;
use journal_disk::{Disk, JournalErr};
use site_journal::SiteJournal;
use std::alloc::Global;

/// The journal of the coordinator, and those of the sites 1 to 8.
#[derive(Drop)]
pub struct Journals {
    pub coordinator: CoordJournal,
    pub sites: Vec<SiteJournal>,
}

/// Why the journal on this disk isn't read.
fn unread(number: u8, why: JournalErr) -> ReopenErr
    ensures { result ≡ unread number why }
{
    match why {
        JournalErr::Malformed { at } => ReopenErr::Damaged { number, at },
        JournalErr::Damaged { at } => ReopenErr::Damaged { number, at },
        JournalErr::Failed => ReopenErr::Disk { number },
        JournalErr::Memory => ReopenErr::Memory,
    }
}

/// The journal of the coordinator, which is on disk 0.
#[tactic(none)]
fn read_coordinator<D: Disk>(alloc: Global, disks: &mut Vec<D>) -> Result<CoordJournal, ReopenErr>
    requires told { IsTrue D.tells }
    requires some { 0 < length disks.old.items }
    ensures read { IfOk result (IsReadFirst (images_of (map D.seen disks.old.items))) }
    ensures unread { IfErr result (IsUnread coordinators.reading 0 (images_of (map D.seen disks.old.items))) }
    ensures images { images_of (map D.seen disks.new.items) ≡ images_of (map D.seen disks.old.items) }
    ensures cause { FaultsTell result (map D.seen disks.old.items) (map D.seen disks.new.items) }
{
    match CoordJournal::load(alloc, &mut disks[0]) {
        Ok(journal) => Ok(journal),
        Err(why) => Err(unread(0, why)),
    }
}

/// The journal of a site, which is on the disk of its number.
#[tactic(none)]
fn read_site<D: Disk>(
    alloc: Global,
    disks: &mut Vec<D>,
    number: u8,
) -> Result<SiteJournal, ReopenErr>
    requires told { IsTrue D.tells }
    requires some { number < length disks.old.items }
    ensures read { IfOk result (IsReadAt number (images_of (map D.seen disks.old.items))) }
    ensures unread { IfErr result (IsUnread sites.reading number (images_of (map D.seen disks.old.items))) }
    ensures images { images_of (map D.seen disks.new.items) ≡ images_of (map D.seen disks.old.items) }
    ensures cause { FaultsTell result (map D.seen disks.old.items) (map D.seen disks.new.items) }
{
    match SiteJournal::load(alloc, &mut disks[number as usize]) {
        Ok(journal) => Ok(journal),
        Err(why) => Err(unread(number, why)),
    }
}

/// The journals of the sites 1 to 8, each on the disk of its number.
#[tactic(none)]
fn read_sites<D: Disk>(alloc: Global, disks: &mut Vec<D>) -> Result<Vec<SiteJournal>, ReopenErr>
    requires told { IsTrue D.tells }
    requires nine { length disks.old.items ≡ 9 }
    ensures read { IfOk result (λ journals. AreReadFrom 1 (images_of (map D.seen disks.old.items)) journals.items) }
    ensures all { IfOk result (λ journals. length journals.items ≡ 8) }
    ensures unread { IfErr result (AreSitesUnread (images_of (map D.seen disks.old.items))) }
    ensures images { images_of (map D.seen disks.new.items) ≡ images_of (map D.seen disks.old.items) }
    ensures cause { FaultsTell result (map D.seen disks.old.items) (map D.seen disks.new.items) }
{
    let mut journals = Vec::new(alloc);
    for number in 1..9 {
        match read_site(alloc, disks, number) {
            Ok(journal) => {
                let Ok(()) = journals.push(journal) else {
                    return Err(ReopenErr::Memory);
                };
            }
            Err(why) => return Err(why),
        }
    }
    Ok(journals)
}

/// The journals on nine disks, the least disk first.
#[tactic(none)]
pub(crate) fn read_journals<D: Disk>(
    alloc: Global,
    disks: &mut Vec<D>,
) -> Result<Journals, ReopenErr>
    requires told { IsTrue D.tells }
    requires nine { length disks.old.items ≡ 9 }
    ensures read { IfOk result (AreRead (images_of (map D.seen disks.old.items))) }
    ensures unread { IfErr result (IsFirstUnread (images_of (map D.seen disks.old.items))) }
    ensures images { images_of (map D.seen disks.new.items) ≡ images_of (map D.seen disks.old.items) }
    ensures cause { FaultsTell result (map D.seen disks.old.items) (map D.seen disks.new.items) }
{
    match read_coordinator(alloc, disks) {
        Ok(coordinator) => match read_sites(alloc, disks) {
            Ok(sites) => Ok(Journals { coordinator, sites }),
            Err(why) => Err(why),
        },
        Err(why) => Err(why),
    }
}
