//! Where the disks of the nine actors come from.
ghost use Rattle.std.specs.Prelude.{◌≡◌, ◌≤◌, ◌<◌, ◌↔◌, ◌^◌, Bool, ℕ, List, IsTrue, IfOk, IsErrOf, length};
ghost use Rattle.mdb_base.specs.Counts.{HasCauseOf};
ghost use Rattle.journal_disk.specs.Disk.{synced_bytes};
ghost use Rattle.file_disks.specs.Stores.{journal_of, IsNotLarge, IsLarge};

use crate::errors::OpenErr;
use journal_disk::Disk;

/// A journal has at most so many bytes where it is opened.
pub const LONGEST_JOURNAL: u64 = 67_108_864;

/// Opens the disks of the coordinator, number 0, and of the sites 1 to 8.
pub trait Store<D: Disk>: Drop {
    /// Whether the stores of this type tell the bytes of their journals. Where they don't, nothing is said of what
    /// is on the disks.
    ghost tells: { Bool };

    /// The bytes of the nine journals, by the number of the actor.
    ghost journals: { Self → List (List ℕ) };

    /// How often the store failed. It never falls.
    ghost faults: { Self → ℕ };

    /// Opens the disk of an actor: it has the bytes of that journal, all of them synced. Large comes exactly where
    /// there are more than 67,108,864 of them.
    fn open_disk(&mut self, number: u8) -> Result<D, OpenErr>
        requires { number ≤ 8 }
        ensures journal { IfOk result (λ disk. IsTrue tells → IsTrue D.tells → (D.seen disk).image ≡ synced_bytes (journal_of number (journals self.old))) }
        ensures size { IfOk result (λ disk. IsTrue tells → (D.seen disk).size ≡ length (journal_of number (journals self.old))) }
        ensures synced { IfOk result (λ disk. IsTrue D.tells → (D.seen disk).image.synced ≡ length (D.seen disk).image.bytes) }
        ensures not_large { IfOk result (λ disk. IsNotLarge (D.seen disk).size) }
        ensures large { IsTrue tells → (IsErrOf result OpenErr.Large ↔ IsLarge (journal_of number (journals self.old))) }
        ensures journals { IsTrue tells → journals self.new ≡ journals self.old }
        ensures cause { HasCauseOf OpenErr.Failed (faults self.old) (faults self.new) result };
}
