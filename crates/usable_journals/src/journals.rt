//! The least disk from which no session may go on.
ghost use Rattle.std.specs.Prelude.{◌≡◌, ◌≤◌, ◌↔◌, IfOk, IfSome, IsTrue, length, map};
ghost use Rattle.usable_journals.specs.Disks as disks;

use crate::beginnings::declared;
use crate::coordinators::is_usable_coordinator;
use crate::sites::is_usable_site;
use crate::unnamed::{names_of, none_is_local};
use fed_rules::{CoordRecord, SiteRecord};
use mdb_base::{Memory, SiteId};
use presumptions::{Participant, Participants};
use std::alloc::Global;

/// The site of this disk with the protocol of its first record, if it has a first record that says so.
fn member_at(number: u8, records: &[SiteRecord]) -> Option<Participant>
    ensures site { IfSome result (λ member. member.site.0 ≡ number) }
    ensures is { result ≡ disks.member_at number records.now }
{
    let Some((first, _)) = records.split_first() else {
        return None;
    };
    match declared(first) {
        Some(member) => Some(Participant {
            site: SiteId(number),
            protocol: member.protocol,
        }),
        None => None,
    }
}

/// The sites that have a record, with the protocols of their first records.
fn protocols_of(alloc: Global, sites: &[&[SiteRecord]]) -> Result<Participants, Memory>
    requires { length sites.now ≤ 8 }
    ensures { IfOk result (λ protocols. protocols ≡ disks.members_from 1 (map (λ s. s.now) sites.now)) }
{
    let mut protocols = Vec::new(alloc);
    for (place, records) in sites.iter().enumerate() {
        if let Some(member) = member_at(place as u8 + 1, records) {
            protocols.push(member)?;
        }
    }
    Ok(Participants::of(protocols))
}

/// Whether no transaction that the coordinator's records name is local at one of the sites.
fn are_unnamed(
    alloc: Global,
    coordinator: &[CoordRecord],
    sites: &[&[SiteRecord]],
) -> Result<bool, Memory>
    ensures { IfOk result (λ unnamed. IsTrue unnamed ↔ disks.AreAllUnnamed coordinator.now (map (λ s. s.now) sites.now)) }
{
    let names = names_of(alloc, coordinator)?;
    for records in sites {
        if !none_is_local(alloc, &names, records)? {
            return Ok(false);
        }
    }
    Ok(true)
}

/// Whether the coordinator's disk is usable.
fn is_usable_first(
    alloc: Global,
    coordinator: &[CoordRecord],
    sites: &[&[SiteRecord]],
) -> Result<bool, Memory>
    requires { length sites.now ≤ 8 }
    ensures { IfOk result (λ usable. IsTrue usable ↔ disks.IsUsableFirst coordinator.now (map (λ s. s.now) sites.now)) }
{
    let protocols = protocols_of(alloc, sites)?;
    if !is_usable_coordinator(alloc, &protocols, coordinator)? {
        return Ok(false);
    }
    are_unnamed(alloc, coordinator, sites)
}

/// Whether the disk of the site of this number is usable.
fn is_usable_disk(alloc: Global, number: u8, records: &[SiteRecord]) -> Result<bool, Memory>
    ensures { IfOk result (λ usable. IsTrue usable ↔ disks.IsUsableDisk number records.now) }
{
    if records.is_empty() {
        return Ok(true);
    }
    is_usable_site(alloc, number, records)
}

/// The least one of the sites' disks that isn't usable.
fn first_foreign_site(alloc: Global, sites: &[&[SiteRecord]]) -> Result<Option<u8>, Memory>
    requires { length sites.now ≤ 8 }
    ensures { IfOk result (disks.NamesSite (map (λ s. s.now) sites.now)) }
{
    for (place, records) in sites.iter().enumerate() {
        let number = place as u8 + 1;
        if !is_usable_disk(alloc, number, records)? {
            return Ok(Some(number));
        }
    }
    Ok(None)
}

/// The least disk that isn't usable, where the coordinator's disk has these records and the disks of the sites from 1 on have those, each the
/// oldest first. A disk without a record is usable.
pub fn first_foreign(
    alloc: Global,
    coordinator: &[CoordRecord],
    sites: &[&[SiteRecord]],
) -> Result<Option<u8>, Memory>
    requires { length sites.now ≤ 8 }
    ensures { IfOk result (disks.NamesLeast coordinator.now (map (λ s. s.now) sites.now)) }
{
    if !is_usable_first(alloc, coordinator, sites)? {
        return Ok(Some(0));
    }
    first_foreign_site(alloc, sites)
}
