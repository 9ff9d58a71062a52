//! The disk as a journal sees it.
ghost use Rattle.std.specs.Prelude.{◌≡◌, ◌≤◌, ◌+◌, Bool, length, IsTrue, OnOk, OnErr, ◌⊎◌};
ghost use Rattle.mdb_base.specs.Counts.{HasCause};
ghost use Rattle.journal_disk.specs.Disk.{Seen, IsSound, appended, all_synced, cut_to, stopped, trimmed_to, bytes_at, AppendsSome, SyncsSome, CutsOrNot, HasCalled};

use crate::errors::Failed;
use mdb_base::Memory;
use std::alloc::Global;

/// An append-only list of bytes with a cut at its end and a trim at its front. A stop may come between any two calls and leaves a prefix.
/// Each call that can fail counts as one, whether it did or not.
pub trait Disk: Drop {
    /// Whether the disks of this type tell their bytes. Where they don't, nothing is said of what is on them.
    ghost tells: { Bool };

    /// What is seen of a disk.
    ghost seen: { Self → Seen };

    /// Makes spare at least `more` bytes. No byte changes.
    fn reserve(&mut self, alloc: Global, more: u64) -> Result<(), Memory>
        ensures room { OnOk result (more ≤ (seen self.new).spare) }
        ensures spare { (seen self.old).spare ≤ (seen self.new).spare }
        ensures image { IsTrue tells → (seen self.new).image ≡ (seen self.old).image }
        ensures size { (seen self.new).size ≡ (seen self.old).size }
        ensures called { (seen self.new).calls ≡ (seen self.old).calls }
        ensures faults { (seen self.new).faults ≡ (seen self.old).faults };

    /// Appends a piece, which isn't synced yet. A failed one leaves some prefix of the piece.
    fn append(&mut self, piece: &[u8]) -> Result<(), Failed>
        requires { length piece.now ≤ (seen self.old).spare }
        ensures spare { (seen self.old).spare ≤ (seen self.new).spare + length piece.now }
        ensures ok { OnOk result (IsTrue tells → (seen self.new).image ≡ appended piece.now (seen self.old).image) }
        ensures err { OnErr result (IsTrue tells → AppendsSome piece.now (seen self.old).image (seen self.new).image) }
        ensures size_ok { OnOk result ((seen self.new).size ≡ (seen self.old).size + length piece.now) }
        ensures grows { (seen self.old).size ≤ (seen self.new).size }
        ensures called { HasCalled 1 (seen self.old) (seen self.new) }
        ensures cause { HasCause (seen self.old).faults (seen self.new).faults result };

    /// Syncs all bytes. A failed one changes no byte.
    fn sync(&mut self) -> Result<(), Failed>
        ensures spare { (seen self.old).spare ≤ (seen self.new).spare }
        ensures ok { OnOk result (IsTrue tells → (seen self.new).image ≡ all_synced (seen self.old).image) }
        ensures err { OnErr result (IsTrue tells → SyncsSome (seen self.old).image (seen self.new).image) }
        ensures size { (seen self.new).size ≡ (seen self.old).size }
        ensures called { HasCalled 1 (seen self.old) (seen self.new) }
        ensures cause { HasCause (seen self.old).faults (seen self.new).faults result };

    /// Leaves the first `length` bytes, all of them synced. A failed one has cut or has changed nothing.
    fn cut_back(&mut self, length: u64) -> Result<(), Failed>
        requires { length ≤ (seen self.old).size }
        ensures spare { (seen self.old).spare ≤ (seen self.new).spare }
        ensures ok { OnOk result (IsTrue tells → (seen self.new).image ≡ cut_to length (seen self.old).image) }
        ensures err { OnErr result (IsTrue tells → CutsOrNot length (seen self.old).image (seen self.new).image) }
        ensures size_ok { OnOk result ((seen self.new).size ≡ length) }
        ensures size_err { OnErr result (((seen self.new).size ≡ length) ⊎ ((seen self.new).size ≡ (seen self.old).size)) }
        ensures called { HasCalled 1 (seen self.old) (seen self.new) }
        ensures cause { HasCause (seen self.old).faults (seen self.new).faults result };

    /// Leaves the bytes from this place on, counted from 0, and drops those before it, which are synced. A failed one changes nothing.
    fn trim_front(&mut self, place: u64) -> Result<(), Failed>
        requires size { place ≤ (seen self.old).size }
        requires synced { IsTrue tells → place ≤ (seen self.old).image.synced }
        ensures spare { (seen self.old).spare ≤ (seen self.new).spare }
        ensures ok { OnOk result (IsTrue tells → (seen self.new).image ≡ trimmed_to place (seen self.old).image) }
        ensures err { OnErr result (IsTrue tells → (seen self.new).image ≡ (seen self.old).image) }
        ensures size_ok { OnOk result ((seen self.new).size + place ≡ (seen self.old).size) }
        ensures size_err { OnErr result ((seen self.new).size ≡ (seen self.old).size) }
        ensures called { HasCalled 1 (seen self.old) (seen self.new) }
        ensures cause { HasCause (seen self.old).faults (seen self.new).faults result };

    /// How many bytes are on the disk.
    fn len(&self) -> u64
        ensures { result ≡ (seen self.now).size };

    /// Reads the bytes from this place on, counted from 0. No byte on the disk changes.
    fn read_at(&mut self, place: u64, into: &mut [u8]) -> Result<(), Failed>
        requires { place + length into.old ≤ (seen self.old).size }
        ensures spare { (seen self.old).spare ≤ (seen self.new).spare }
        ensures ok { OnOk result (IsTrue tells → into.new ≡ bytes_at place (length into.old) (seen self.old).image) }
        ensures image { IsTrue tells → (seen self.new).image ≡ (seen self.old).image }
        ensures size { (seen self.new).size ≡ (seen self.old).size }
        ensures called { HasCalled 1 (seen self.old) (seen self.new) }
        ensures cause { HasCause (seen self.old).faults (seen self.new).faults result };

    /// Stops: the synced bytes and at most `cut` more stay, and what stays is then synced. It has no answer, so it counts no fault: a
    /// disk on which it goes wrong fails at the next call.
    fn stop(&mut self, cut: u64)
        ensures spare { (seen self.old).spare ≤ (seen self.new).spare }
        ensures image { IsTrue tells → (seen self.new).image ≡ stopped cut (seen self.old).image }
        ensures size { (seen self.new).size ≤ (seen self.old).size }
        ensures called { (seen self.new).calls ≡ (seen self.old).calls }
        ensures faults { (seen self.new).faults ≡ (seen self.old).faults };

    /// The bytes told are as many as there are.
    ghost told_size: { (disk : Self) → IsTrue tells → length (seen disk).image.bytes ≡ (seen disk).size };

    /// At most all bytes are synced.
    ghost is_sound: { (disk : Self) → IsTrue tells → IsSound (seen disk).image };
}
