//! The journal of a new site on its disk.
ghost use Rattle.std.specs.Prelude.{◌≡◌, ◌≤◌, ◌+◌, [], ◌∷◌, false, None, Some, IfOk, IsErrOf, IsTrue, length, slice_get};
ghost use Rattle.mdb_base.specs.Counts.{HasCauseOf};
ghost use Rattle.fed_rules.specs.Disk.{Append, Sync, after_calls, empty_disk};
ghost use Rattle.fed_rules.specs.SitePast.{disk as disk_of, set_up_calls};
ghost use Rattle.fed_rules.specs.SiteRecords.{Home, site_frame};
ghost use Rattle.fed_rules.specs.Usable.{home_of_first};
ghost use Rattle.record_fields.specs.Named.{IsSite};
ghost use Rattle.frame_journal.specs.Journal.{written_size};
ghost use Rattle.journal_disk.specs.Disk.{TakesCalls};
ghost use Rattle.journal_disk.specs.Frames.{IsPayload};
ghost use Rattle.site_journal.specs.Spelling.{InRange, spelling};
ghost use Rattle.site_core.specs.Store.{Keeps, SomeStop};

use actor_store::{Break, Standing, StepErr, Store};
use journal_disk::Disk;
use mdb_base::{Engine, Puts, SiteId};
use presumptions::Protocol;
use site_journal::{SiteFormat, SiteJournal, SiteRecord};
use std::alloc::Global;

/// The store of a site.
pub type SiteStore = Store<SiteRecord, SiteFormat>;

/// Sets a new site up on an empty disk: its Setup record and its first Start, synced.
pub fn set_up_store<D: Disk>(
    alloc: Global,
    disk: &mut D,
    site: SiteId,
    engine: Engine,
    items: Puts,
    protocol: Protocol,
) -> Result<SiteStore, StepErr>
    requires told { IsTrue D.tells }
    requires empty { (D.seen disk.old).size ≡ 0 }
    requires site { IsSite site }
    requires few { length items ≤ 4096 }
    ensures keeps { IfOk result (λ store. Keeps false D.tells (D.seen disk.new) store
        (disk_of (record { site = site; engine = engine; protocol = protocol; items = items }) []) None) }
    ensures up { IfOk result (λ store. store.standing ≡ Standing.Up) }
    ensures memory { IsErrOf result StepErr.Memory → (D.seen disk.new).image ≡ (D.seen disk.old).image }
    ensures untouched { IsErrOf result StepErr.Memory → (D.seen disk.new).size ≡ 0 }
    ensures broken { IsErrOf result StepErr.Disk → SomeStop (D.seen disk.new).image empty_disk
        (set_up_calls (record { site = site; engine = engine; protocol = protocol; items = items })) }
    ensures called { TakesCalls 3 (D.seen disk.old) (D.seen disk.new) result }
    ensures cause { HasCauseOf StepErr.Disk (D.seen disk.old).faults (D.seen disk.new).faults result }
{
    let setup = SiteRecord::Setup {
        site,
        engine,
        protocol,
        items,
    };
    let start = SiteRecord::Start { epoch: 1 };
    let bytes = SiteJournal::frame_len(&setup) + SiteJournal::frame_len(&start);
    let mut store = SiteStore::create(alloc);
    let Ok(()) = store.make_room(alloc, disk, 2, bytes) else {
        return Err(StepErr::Memory);
    };
    begin_journal(store, disk, setup, start)
}

/// The protocol of the site whose journal begins with this record.
pub fn first_protocol(records: &[SiteRecord]) -> Protocol
    ensures { (home : Home) → home_of_first (slice_get records.now 0) ≡ Some home → result ≡ home.protocol }
{
    match records.first() {
        Some(SiteRecord::Setup { protocol, .. }) => *protocol,
        Some(SiteRecord::Checkpoint(sum)) => sum.protocol,
        _ => Protocol::Nothing,
    }
}

/// Appends the first two records, for which there is room, and syncs them.
fn begin_journal<D: Disk>(
    store: SiteStore,
    disk: &mut D,
    setup: SiteRecord,
    start: SiteRecord,
) -> Result<SiteStore, StepErr>
    requires told { IsTrue D.tells }
    requires kept { Keeps false D.tells (D.seen disk.old) store empty_disk None }
    requires up { store.standing ≡ Standing.Up }
    requires places { store.journal.places ≡ 2 }
    requires room { store.journal.room ≡ written_size spelling setup + written_size spelling start }
    requires setup { InRange setup }
    requires start { InRange start }
    requires setup_fits { IsPayload (spelling setup) }
    requires start_fits { IsPayload (spelling start) }
    ensures keeps { IfOk result (λ store. Keeps false D.tells (D.seen disk.new) store
        (after_calls site_frame empty_disk (Append setup ∷ Append start ∷ Sync ∷ [])) None) }
    ensures up { IfOk result (λ store. store.standing ≡ Standing.Up) }
    ensures memory { IsErrOf result StepErr.Memory → (D.seen disk.new).image ≡ (D.seen disk.old).image }
    ensures untouched { IsErrOf result StepErr.Memory → (D.seen disk.new).size ≡ 0 }
    ensures broken { IsErrOf result StepErr.Disk → SomeStop (D.seen disk.new).image empty_disk (Append setup ∷ Append start ∷ Sync ∷ []) }
    ensures called { TakesCalls 3 (D.seen disk.old) (D.seen disk.new) result }
    ensures cause { HasCauseOf StepErr.Disk (D.seen disk.old).faults (D.seen disk.new).faults result }
{
    let mut store = store;
    match store.append(disk, setup) {
        Ok(()) => match store.force(disk, start) {
            Ok(()) => Ok(store),
            Err(Break::Failed) => Err(StepErr::Disk),
            Err(Break::Stopped(_)) => unreachable!(),
        },
        Err(Break::Failed) => Err(StepErr::Disk),
        Err(Break::Stopped(_)) => unreachable!(),
    }
}
