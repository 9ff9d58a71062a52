//! A disk whose bytes are kept in memory and in a file.
ghost use Rattle.std.specs.Prelude.{◌≡◌, ◌++◌, ◌≤◌, ◌<◌, ◌+◌, ◌-◌, ◌^◌, length, take, IsTrue, OnOk};
ghost use Rattle.std.specs.Vec.{vec_capacity};
ghost use Rattle.mdb_base.specs.Counts.{HasCause, HasRisen};
ghost use Rattle.journal_disk.specs.Disk.{synced_bytes, cut_to, appended};

use crate::journal_file::JournalFile;
use journal_disk::{Disk, Failed};
use mdb_base::Memory;
use std::alloc::Global;

/// A disk that keeps all bytes in memory, tells them, and makes each call that changes them on its file too. A file
/// call that fails is counted, and is answered Failed. Once a sync, a cut, a trim or a stop has failed on the file,
/// it isn't known what the file holds: the disk is lost. From then on each call fails and is counted, and none is
/// made on the file.
#[derive(Drop)]
pub struct FileDisk<F: Drop> {
    file: F,
    bytes: Vec<u8>,
    synced: usize,
    is_lost: bool,
    calls: u64,
    faults: u64,
    ghost synced_within: { synced ≤ length bytes.items },
}

impl<F: JournalFile> FileDisk<F> {
    ghost use Rattle.file_disks.specs.FileDisk.{disk_file, file_image, file_calls, file_faults, InStep};

    /// A disk over this file, which has these bytes, all of them synced.
    pub fn new(file: F, bytes: Vec<u8>) -> FileDisk<F>
        requires { IsTrue F.tells → F.image file ≡ synced_bytes bytes.items }
        ensures image { file_image result ≡ synced_bytes bytes.items }
        ensures fresh { (file_calls result ≡ 0) × (file_faults result ≡ 0) }
        ensures file { disk_file result ≡ file }
        ensures in_step { InStep F.tells F.image result }
    {
        let synced = bytes.len();
        FileDisk {
            file,
            bytes,
            synced,
            is_lost: false,
            calls: 0,
            faults: 0,
        }
    }

    /// Its file.
    pub fn file(&self) -> &F
        ensures { result.now ≡ disk_file self.now }
    {
        &self.file
    }

    /// How many calls it has had: of append, sync, cut_back, trim_front and read_at. The count stays at its last value.
    pub fn calls(&self) -> u64
        ensures { result ≡ file_calls self.now }
    {
        self.calls
    }
}

impl<F: JournalFile> FileDisk<F> {
    ghost use Rattle.file_disks.specs.FileDisk.{file_spare, IsLost, KeepsMemory};

    // Counts a fault.
    fn fail(&mut self) -> Failed
        ensures memory { KeepsMemory self.old self.new }
        ensures file { self.new.file ≡ self.old.file }
        ensures lost { self.new.is_lost ≡ self.old.is_lost }
        ensures later { self.old.faults ≤ self.new.faults }
        ensures risen { HasRisen self.old.faults self.new.faults }
    {
        self.faults = self.faults.saturating_add(1);
        Failed
    }

    // Counts a fault after which it isn't known what the file holds.
    fn lose(&mut self) -> Failed
        ensures memory { KeepsMemory self.old self.new }
        ensures file { self.new.file ≡ self.old.file }
        ensures lost { IsLost self.new }
        ensures later { self.old.faults ≤ self.new.faults }
        ensures risen { HasRisen self.old.faults self.new.faults }
    {
        self.is_lost = true;
        self.fail()
    }

    // Writes a piece behind the bytes of the file, and answers how much of it was written.
    fn write(&mut self, piece: &[u8]) -> usize
        ensures count { result ≤ length piece.now }
        ensures memory { KeepsMemory self.old self.new }
        ensures lost { self.new.is_lost ≡ self.old.is_lost }
        ensures faults { self.new.faults ≡ self.old.faults }
        ensures written { IsTrue F.tells → (F.image self.old.file).bytes ≡ self.old.bytes.items → F.image self.new.file ≡ appended (take result piece.now) (F.image self.old.file) }
        ensures short { result < length piece.now → HasRisen (F.faults self.old.file) (F.faults self.new.file) }
    {
        let start = self.bytes.len() as u64;
        let mut done = 0;
        while done < piece.len() {
            match self.file.write_some(start + done as u64, &piece[done..]) {
                Ok(count) => done += count,
                Err(_) => return done,
            }
        }
        done
    }

    // Puts a piece behind the others in memory, for which there is room.
    fn put(&mut self, piece: &[u8])
        requires { length piece.now ≤ file_spare self.old }
        ensures bytes { self.new.bytes.items ≡ self.old.bytes.items ++ piece.now }
        ensures capacity { vec_capacity self.old.bytes ≤ vec_capacity self.new.bytes }
        ensures synced { self.new.synced ≡ self.old.synced }
        ensures file { self.new.file ≡ self.old.file }
        ensures lost { self.new.is_lost ≡ self.old.is_lost }
        ensures calls { self.new.calls ≡ self.old.calls }
        ensures faults { self.new.faults ≡ self.old.faults }
    {
        match self.bytes.extend_from_slice(piece) {
            Ok(()) => {}
            Err(_) => unreachable!(),
        }
    }

    // Leaves the first bytes of the file, and syncs them.
    fn cut_file(&mut self, length: u64) -> Result<(), Failed>
        ensures memory { KeepsMemory self.old self.new }
        ensures lost { self.new.is_lost ≡ self.old.is_lost }
        ensures faults { self.new.faults ≡ self.old.faults }
        ensures ok { OnOk result (IsTrue F.tells → F.image self.new.file ≡ cut_to length (F.image self.old.file)) }
        ensures cause { HasCause (F.faults self.old.file) (F.faults self.new.file) result }
    {
        self.file.cut(length)?;
        self.file.sync()
    }
}

impl<F: JournalFile> Disk for FileDisk<F> {
    ghost use Rattle.journal_disk.specs.Disk.{appended, all_synced, cut_to, one_more, trimmed_to, stopped, bytes_at, AppendsSome};
    ghost use Rattle.file_disks.specs.FileDisk.{file_image, file_size, file_spare, file_calls, file_faults, disk_file, InStep, IsLost, FailsByFile, StaysLost};
    ghost use Rattle.std.specs.Prelude.{◌≡◌, ◌≤◌, ◌+◌, ◌↔◌, ◌⊎◌, true, refl, length, IsErr, OnOk, OnErr};

    ghost tells = { true };

    ghost seen = { λ disk. record { image = file_image disk; size = file_size disk; spare = file_spare disk; faults = file_faults disk; calls = file_calls disk } };

    ghost told_size = { λ disk tells. refl };

    ghost is_sound = { λ disk tells. disk.synced_within };

    fn reserve(&mut self, _alloc: Global, more: u64) -> Result<(), Memory>
        ensures room { OnOk result (more ≤ file_spare self.new) }
        ensures spare { file_spare self.old ≤ file_spare self.new }
        ensures image { file_image self.new ≡ file_image self.old }
        ensures calls { file_calls self.new ≡ file_calls self.old }
        ensures faults { file_faults self.new ≡ file_faults self.old }
        ensures file { disk_file self.new ≡ disk_file self.old }
        ensures in_step { InStep F.tells F.image self.old → InStep F.tells F.image self.new }
    {
        match self.bytes.reserve(more as usize) {
            Ok(()) => Ok(()),
            Err(_) => Err(Memory),
        }
    }

    // A failed one leaves in memory what was written to the file.
    fn append(&mut self, piece: &[u8]) -> Result<(), Failed>
        requires { length piece.now ≤ file_spare self.old }
        ensures spare { file_spare self.old ≤ file_spare self.new + length piece.now }
        ensures ok { OnOk result (file_image self.new ≡ appended piece.now (file_image self.old)) }
        ensures err { OnErr result (AppendsSome piece.now (file_image self.old) (file_image self.new)) }
        ensures calls { file_calls self.new ≡ one_more (file_calls self.old) }
        ensures cause { HasCause (file_faults self.old) (file_faults self.new) result }
        ensures in_step { InStep F.tells F.image self.old → InStep F.tells F.image self.new }
        ensures by_file { OnErr result (FailsByFile F.faults self.old self.new) }
        ensures stays_lost { StaysLost self.old self.new result }
    {
        self.calls = self.calls.saturating_add(1);
        if self.is_lost {
            return Err(self.fail());
        }
        let count = self.write(piece);
        self.put(&piece[..count]);
        if count < piece.len() {
            return Err(self.fail());
        }
        Ok(())
    }

    fn sync(&mut self) -> Result<(), Failed>
        ensures spare { file_spare self.old ≤ file_spare self.new }
        ensures ok { OnOk result (file_image self.new ≡ all_synced (file_image self.old)) }
        ensures err { OnErr result (file_image self.new ≡ file_image self.old) }
        ensures calls { file_calls self.new ≡ one_more (file_calls self.old) }
        ensures cause { HasCause (file_faults self.old) (file_faults self.new) result }
        ensures in_step { OnOk result (InStep F.tells F.image self.old → InStep F.tells F.image self.new) }
        ensures lost { OnErr result (IsLost self.new) }
        ensures by_file { OnErr result (FailsByFile F.faults self.old self.new) }
        ensures stays_lost { StaysLost self.old self.new result }
    {
        self.calls = self.calls.saturating_add(1);
        if self.is_lost || self.file.sync().is_err() {
            return Err(self.lose());
        }
        self.synced = self.bytes.len();
        Ok(())
    }

    // A failed one changes nothing in memory.
    fn cut_back(&mut self, length: u64) -> Result<(), Failed>
        requires { length ≤ file_size self.old }
        ensures spare { file_spare self.old ≤ file_spare self.new }
        ensures ok { OnOk result (file_image self.new ≡ cut_to length (file_image self.old)) }
        ensures err { OnErr result (file_image self.new ≡ file_image self.old) }
        ensures calls { file_calls self.new ≡ one_more (file_calls self.old) }
        ensures cause { HasCause (file_faults self.old) (file_faults self.new) result }
        ensures in_step { OnOk result (InStep F.tells F.image self.old → InStep F.tells F.image self.new) }
        ensures lost { OnErr result (IsLost self.new) }
        ensures by_file { OnErr result (FailsByFile F.faults self.old self.new) }
        ensures stays_lost { StaysLost self.old self.new result }
    {
        self.calls = self.calls.saturating_add(1);
        if self.is_lost || self.cut_file(length).is_err() {
            return Err(self.lose());
        }
        self.bytes.truncate(length as usize);
        self.synced = self.bytes.len();
        Ok(())
    }

    // A failed one changes nothing in memory.
    fn trim_front(&mut self, place: u64) -> Result<(), Failed>
        requires size { place ≤ file_size self.old }
        requires synced { place ≤ (file_image self.old).synced }
        ensures spare { file_spare self.old ≤ file_spare self.new }
        ensures ok { OnOk result (file_image self.new ≡ trimmed_to place (file_image self.old)) }
        ensures err { OnErr result (file_image self.new ≡ file_image self.old) }
        ensures calls { file_calls self.new ≡ one_more (file_calls self.old) }
        ensures cause { HasCause (file_faults self.old) (file_faults self.new) result }
        ensures in_step { OnOk result (InStep F.tells F.image self.old → InStep F.tells F.image self.new) }
        ensures lost { OnErr result (IsLost self.new) }
        ensures by_file { OnErr result (FailsByFile F.faults self.old self.new) }
        ensures stays_lost { StaysLost self.old self.new result }
    {
        self.calls = self.calls.saturating_add(1);
        let place = place as usize;
        if self.is_lost || self.file.replace(&self.bytes[place..]).is_err() {
            return Err(self.lose());
        }
        let left = self.bytes.len() - place;
        self.bytes.rotate_left(place);
        self.bytes.truncate(left);
        self.synced -= place;
        Ok(())
    }

    fn len(&self) -> u64 {
        self.bytes.len() as u64
    }

    fn read_at(&mut self, place: u64, into: &mut [u8]) -> Result<(), Failed>
        requires { place + length into.old ≤ file_size self.old }
        ensures spare { file_spare self.old ≤ file_spare self.new }
        ensures ok { OnOk result (into.new ≡ bytes_at place (length into.old) (file_image self.old)) }
        ensures image { file_image self.new ≡ file_image self.old }
        ensures calls { file_calls self.new ≡ one_more (file_calls self.old) }
        ensures cause { HasCause (file_faults self.old) (file_faults self.new) result }
        ensures in_step { InStep F.tells F.image self.old → InStep F.tells F.image self.new }
        ensures lost { IsErr result ↔ IsLost self.old }
        ensures stays_lost { StaysLost self.old self.new result }
    {
        self.calls = self.calls.saturating_add(1);
        if self.is_lost {
            return Err(self.fail());
        }
        let start = place as usize;
        into.copy_from_slice(&self.bytes[start..start + into.len()]);
        Ok(())
    }

    // Where it fails on the file, the next call is the one that fails.
    fn stop(&mut self, cut: u64)
        ensures spare { file_spare self.old ≤ file_spare self.new }
        ensures image { file_image self.new ≡ stopped cut (file_image self.old) }
        ensures calls { file_calls self.new ≡ file_calls self.old }
        ensures faults { file_faults self.new ≡ file_faults self.old }
        ensures in_step { InStep F.tells F.image self.old → InStep F.tells F.image self.new ⊎ IsLost self.new }
        ensures by_file { IsLost self.new → FailsByFile F.faults self.old self.new }
        ensures stays_lost { IsLost self.old → IsLost self.new × (disk_file self.new ≡ disk_file self.old) }
    {
        let kept = (self.synced as u64).saturating_add(cut);
        if kept < self.bytes.len() as u64 {
            self.bytes.truncate(kept as usize);
        }
        self.synced = self.bytes.len();
        if !self.is_lost && self.cut_file(self.synced as u64).is_err() {
            self.is_lost = true;
        }
    }
}
