//! A disk in memory, some calls of which can be told to fail.
ghost use Rattle.std.specs.Prelude.{◌≡◌, ◌++◌, ◌≤◌, ◌+◌, ◌-◌, ◌^◌, ◌↔◌, ℕ, [], true, length, IfOk, IsTrue, IsErr, OnOk, OnErr, Contains, min, vec_len, ◌⊎◌};
ghost use Rattle.std.specs.Vec.{vec_capacity};
ghost use Rattle.mdb_base.specs.Counts.{HasCause};
ghost use Rattle.journal_disk.specs.Disk.{no_bytes};

use crate::disk::Disk;
use crate::errors::Failed;
use mdb_base::Memory;
use std::alloc::Global;

/// A disk in memory, which tells its bytes.
#[derive(Drop)]
pub struct MemDisk {
    bytes: Vec<u8>,
    synced: usize,
    failing: Vec<u32>,
    calls: u64,
    faults: u64,
    ghost synced_within: { synced ≤ length bytes.items },
}

impl MemDisk {
    ghost use Rattle.journal_disk.specs.MemDisk.{mem_image, mem_calls, mem_failing, mem_faults};

    /// An empty disk, of which no call fails.
    pub fn new(alloc: Global) -> Result<MemDisk, Memory>
        ensures empty { IfOk result (λ disk. mem_image disk ≡ no_bytes) }
        ensures never_fails { IfOk result (λ disk. mem_failing disk ≡ []) }
        ensures fresh { IfOk result (λ disk. (mem_calls disk ≡ 0) × (mem_faults disk ≡ 0)) }
    {
        MemDisk::failing(alloc, &[])
    }

    /// An empty disk that fails at these calls, counted from 1 over append, sync, cut_back, trim_front and read_at.
    pub fn failing(alloc: Global, calls: &[u32]) -> Result<MemDisk, Memory>
        ensures empty { IfOk result (λ disk. mem_image disk ≡ no_bytes) }
        ensures failing { IfOk result (λ disk. mem_failing disk ≡ calls.now) }
        ensures fresh { IfOk result (λ disk. (mem_calls disk ≡ 0) × (mem_faults disk ≡ 0)) }
    {
        match Vec::from_slice(alloc, calls) {
            Ok(failing) => Ok(MemDisk {
                bytes: Vec::new(alloc),
                synced: 0,
                failing,
                calls: 0,
                faults: 0,
            }),
            Err(_) => Err(Memory),
        }
    }

    /// How many calls it has had: of append, sync, cut_back, trim_front and read_at. The count stays at its last value.
    pub fn calls(&self) -> u64
        ensures { result ≡ mem_calls self.now }
    {
        self.calls
    }
}

impl MemDisk {
    ghost use Rattle.journal_disk.specs.MemDisk.{mem_spare, Calls};

    // Makes the next call, which fails where its number is listed.
    fn next_call(&mut self) -> Result<(), Failed>
        ensures calls { Calls self.old self.new result }
        ensures bytes { self.new.bytes ≡ self.old.bytes }
        ensures synced { self.new.synced ≡ self.old.synced }
        ensures cause { HasCause self.old.faults self.new.faults result }
    {
        self.calls = self.calls.saturating_add(1);
        if is_listed(&self.failing, self.calls) {
            self.faults = self.faults.saturating_add(1);
            return Err(Failed);
        }
        Ok(())
    }

    // Puts a piece behind the others, for which there is room.
    fn put(&mut self, piece: &[u8])
        requires { length piece.now ≤ mem_spare self.old }
        ensures bytes { self.new.bytes.items ≡ self.old.bytes.items ++ piece.now }
        ensures capacity { vec_capacity self.old.bytes ≤ vec_capacity self.new.bytes }
        ensures synced { self.new.synced ≡ self.old.synced }
        ensures failing { self.new.failing ≡ self.old.failing }
        ensures calls { self.new.calls ≡ self.old.calls }
        ensures faults { self.new.faults ≡ self.old.faults }
    {
        match self.bytes.extend_from_slice(piece) {
            Ok(()) => {}
            Err(_) => unreachable!(),
        }
    }
}

// Whether this call is one of those.
fn is_listed(failing: &[u32], call: u64) -> bool
    ensures { IsTrue result ↔ Contains failing.now call }
{
    failing.iter().any(|listed| u64::from(*listed) == call)
}

impl Disk for MemDisk {
    ghost use Rattle.journal_disk.specs.Disk.{appended, all_synced, cut_to, trimmed_to, stopped, bytes_at, AppendsSome};
    ghost use Rattle.journal_disk.specs.MemDisk.{mem_image, mem_size, mem_spare, mem_faults, mem_calls, Calls, KeepsCalls};
    ghost use Rattle.std.specs.Prelude.{◌≡◌, ◌≤◌, ◌+◌, true, refl, length, OnOk, OnErr};
    ghost use Rattle.mdb_base.specs.Counts.{HasCause};

    ghost tells = { true };

    ghost seen = { λ disk. record { image = mem_image disk; size = mem_size disk; spare = mem_spare disk; faults = mem_faults disk; calls = mem_calls disk } };

    ghost told_size = { λ disk tells. refl };

    ghost is_sound = { λ disk tells. disk.synced_within };

    fn reserve(&mut self, _alloc: Global, more: u64) -> Result<(), Memory>
        ensures room { OnOk result (more ≤ mem_spare self.new) }
        ensures spare { mem_spare self.old ≤ mem_spare self.new }
        ensures image { mem_image self.new ≡ mem_image self.old }
        ensures calls { KeepsCalls self.old self.new }
    {
        match self.bytes.reserve(more as usize) {
            Ok(()) => Ok(()),
            Err(_) => Err(Memory),
        }
    }

    // A failed one leaves the first half of the piece.
    fn append(&mut self, piece: &[u8]) -> Result<(), Failed>
        requires { length piece.now ≤ mem_spare self.old }
        ensures calls { Calls self.old self.new result }
        ensures spare { mem_spare self.old ≤ mem_spare self.new + length piece.now }
        ensures ok { OnOk result (mem_image self.new ≡ appended piece.now (mem_image self.old)) }
        ensures err { OnErr result (AppendsSome piece.now (mem_image self.old) (mem_image self.new)) }
        ensures cause { HasCause (mem_faults self.old) (mem_faults self.new) result }
    {
        match self.next_call() {
            Ok(()) => {
                self.put(piece);
                Ok(())
            }
            Err(failed) => {
                self.put(&piece[..piece.len() / 2]);
                Err(failed)
            }
        }
    }

    fn sync(&mut self) -> Result<(), Failed>
        ensures calls { Calls self.old self.new result }
        ensures spare { mem_spare self.old ≤ mem_spare self.new }
        ensures ok { OnOk result (mem_image self.new ≡ all_synced (mem_image self.old)) }
        ensures err { OnErr result (mem_image self.new ≡ mem_image self.old) }
        ensures cause { HasCause (mem_faults self.old) (mem_faults self.new) result }
    {
        self.next_call()?;
        self.synced = self.bytes.len();
        Ok(())
    }

    // A failed one changes nothing.
    fn cut_back(&mut self, length: u64) -> Result<(), Failed>
        requires { length ≤ mem_size self.old }
        ensures calls { Calls self.old self.new result }
        ensures spare { mem_spare self.old ≤ mem_spare self.new }
        ensures ok { OnOk result (mem_image self.new ≡ cut_to length (mem_image self.old)) }
        ensures err { OnErr result (mem_image self.new ≡ mem_image self.old) }
        ensures cause { HasCause (mem_faults self.old) (mem_faults self.new) result }
    {
        self.next_call()?;
        self.bytes.truncate(length as usize);
        self.synced = self.bytes.len();
        Ok(())
    }

    // A failed one changes nothing.
    fn trim_front(&mut self, place: u64) -> Result<(), Failed>
        requires size { place ≤ mem_size self.old }
        requires synced { place ≤ (mem_image self.old).synced }
        ensures calls { Calls self.old self.new result }
        ensures spare { mem_spare self.old ≤ mem_spare self.new }
        ensures ok { OnOk result (mem_image self.new ≡ trimmed_to place (mem_image self.old)) }
        ensures err { OnErr result (mem_image self.new ≡ mem_image self.old) }
        ensures cause { HasCause (mem_faults self.old) (mem_faults self.new) result }
    {
        self.next_call()?;
        let place = place as usize;
        let left = self.bytes.len() - place;
        self.bytes.rotate_left(place);
        self.bytes.truncate(left);
        self.synced -= place;
        Ok(())
    }

    fn len(&self) -> u64 {
        self.bytes.len() as u64
    }

    fn read_at(&mut self, place: u64, into: &mut [u8]) -> Result<(), Failed>
        requires { place + length into.old ≤ mem_size self.old }
        ensures calls { Calls self.old self.new result }
        ensures spare { mem_spare self.old ≤ mem_spare self.new }
        ensures ok { OnOk result (into.new ≡ bytes_at place (length into.old) (mem_image self.old)) }
        ensures image { mem_image self.new ≡ mem_image self.old }
        ensures cause { HasCause (mem_faults self.old) (mem_faults self.new) result }
    {
        self.next_call()?;
        let start = place as usize;
        into.copy_from_slice(&self.bytes[start..start + into.len()]);
        Ok(())
    }

    fn stop(&mut self, cut: u64)
        ensures spare { mem_spare self.old ≤ mem_spare self.new }
        ensures image { mem_image self.new ≡ stopped cut (mem_image self.old) }
        ensures calls { KeepsCalls self.old self.new }
    {
        let kept = (self.synced as u64).saturating_add(cut);
        if kept < self.bytes.len() as u64 {
            self.bytes.truncate(kept as usize);
        }
        self.synced = self.bytes.len();
    }
}
