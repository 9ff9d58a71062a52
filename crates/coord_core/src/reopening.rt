//! A coordinator that goes on from a journal that was found on its disk.
ghost use Rattle.std.specs.Prelude.{◌≡◌, IfOk, IsTrue};
ghost use Rattle.mdb_base.specs.Counts.{HasCauseOf};
ghost use Rattle.mdb_base.specs.Words.{Each};
ghost use Rattle.presumptions.specs.declared.Participant.{Participant as TheParticipant};
ghost use Rattle.record_fields.specs.Named.{IsSite};
ghost use Rattle.fed_rules.specs.declared.records.CoordRecord.{CoordRecord};
ghost use Rattle.fed_rules.specs.Found.{Journal};
ghost use Rattle.fed_rules.specs.Reopened.{opened_coordinator};
ghost use Rattle.journal_disk.specs.Disk.{TakesCalls, reads};
ghost use Rattle.coord_core.specs.Found.{IsFoundOn, SomeJournal};
ghost use Rattle.coord_core.specs.Stands.{Stands};

use crate::coord::{CoordCore, CoordStore};
use actor_store::StepErr;
use coord_tables::{Tables, begun_by};
use global_exec::TakePolicy;
use journal_disk::Disk;
use presumptions::Participants;
use std::alloc::Global;

impl<P: TakePolicy> CoordCore<P> {
    /// A coordinator of these sites, which are of 1 to 8, that goes on from the journal that is found on its disk. It is down, and a `Back`
    /// starts it with what the journal hasn't forgotten. The next attempt of a transaction is the one behind the greatest that a record names.
    /// The disk isn't changed, and a disk call fails only where the disk's count of faults rises.
    pub fn reopen<D: Disk>(
        alloc: Global,
        disk: &mut D,
        protocols: Participants,
        policy: P,
    ) -> Result<CoordCore<P>, StepErr>
        requires told { IsTrue D.tells }
        requires sites { Each (λ (member : TheParticipant). IsSite member.site) protocols }
        requires found { SomeJournal (D.seen disk.old).image protocols }
        ensures stands { IfOk result (λ core. (journal : Journal CoordRecord) → IsFoundOn (D.seen disk.old).image protocols journal
            → Stands P.policy D.tells core (D.seen disk.new) (record { protocols = protocols; policy = P.policy policy }) (opened_coordinator protocols journal)) }
        ensures image { (D.seen disk.new).image ≡ (D.seen disk.old).image }
        ensures size { (D.seen disk.new).size ≡ (D.seen disk.old).size }
        ensures called { TakesCalls (reads (D.seen disk.old).size) (D.seen disk.old) (D.seen disk.new) result }
        ensures cause { HasCauseOf StepErr.Disk (D.seen disk.old).faults (D.seen disk.new).faults result }
    {
        let _ = protocols.len();
        let store = CoordStore::found(alloc, disk)?;
        let Ok(begun) = begun_by(alloc, store.records()) else {
            drop(store);
            return Err(StepErr::Memory);
        };
        let Ok(tables) = Tables::new(alloc) else {
            drop(store);
            drop(begun);
            return Err(StepErr::Memory);
        };
        Ok(CoordCore {
            protocols,
            policy,
            tables,
            begun,
            store,
        })
    }
}
