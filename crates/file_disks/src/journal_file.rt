//! The calls that a disk makes of the file that its journal lies in.
ghost use Rattle.std.specs.Prelude.{◌≡◌, ◌≤◌, ◌<◌, Bool, ℕ, IsTrue, IfOk, OnOk, OnErr, length, take};
ghost use Rattle.mdb_base.specs.Counts.{HasCause};
ghost use Rattle.journal_disk.specs.Disk.{Image, appended, all_synced, synced_bytes};
ghost use Rattle.file_disks.specs.Files.{IsEnd, shortened};

use journal_disk::Failed;

/// A file that a journal lies in.
pub trait JournalFile: Drop {
    /// Whether the files of this type tell their bytes. Where they don't, nothing is said of what is in them.
    ghost tells: { Bool };

    /// The bytes in the file, and how many of them are synced.
    ghost image: { Self → Image };

    /// How many calls have failed. It never falls.
    ghost faults: { Self → ℕ };

    /// Writes some front of the piece from this byte on, and answers how many bytes. At the end of the file it
    /// makes the file longer by them. A failed one writes none.
    fn write_some(&mut self, place: u64, piece: &[u8]) -> Result<usize, Failed>
        requires { 0 < length piece.now }
        ensures some { IfOk result (λ count. 0 < count) }
        ensures within { IfOk result (λ count. count ≤ length piece.now) }
        ensures ok { IfOk result (λ count. IsTrue tells → IsEnd place (image self.old) → image self.new ≡ appended (take count piece.now) (image self.old)) }
        ensures err { OnErr result (IsTrue tells → image self.new ≡ image self.old) }
        ensures cause { HasCause (faults self.old) (faults self.new) result };

    /// Syncs all bytes. After a failed one it isn't known what the file holds.
    fn sync(&mut self) -> Result<(), Failed>
        ensures ok { OnOk result (IsTrue tells → image self.new ≡ all_synced (image self.old)) }
        ensures cause { HasCause (faults self.old) (faults self.new) result };

    /// Leaves the first `length` bytes, without a sync. After a failed one it isn't known what the file holds.
    fn cut(&mut self, length: u64) -> Result<(), Failed>
        ensures ok { OnOk result (IsTrue tells → image self.new ≡ shortened length (image self.old)) }
        ensures cause { HasCause (faults self.old) (faults self.new) result };

    /// Puts these bytes in the place of all others, and syncs them. Wherever it is cut off, the file has either the
    /// bytes from before or these.
    fn replace(&mut self, bytes: &[u8]) -> Result<(), Failed>
        ensures ok { OnOk result (IsTrue tells → image self.new ≡ synced_bytes bytes.now) }
        ensures cause { HasCause (faults self.old) (faults self.new) result };
}
