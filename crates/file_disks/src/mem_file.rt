//! A file in memory, some calls of which can be told to fail.
ghost use Rattle.std.specs.Prelude.{◌≡◌, ◌≤◌, ◌<◌, ◌+◌, ◌^◌, ◌↔◌, true, min, IsTrue, IsErr, IfOk, OnOk, OnErr, Contains, length, take, [], is_ok};
ghost use Rattle.mdb_base.specs.Counts.{HasCause};
ghost use Rattle.journal_disk.specs.Disk.{appended, all_synced, one_more, synced_bytes};

use crate::counting::{counted, is_listed};
use crate::journal_file::JournalFile;
use journal_disk::Failed;

/// A file in memory, which tells its bytes. A write takes at most so many bytes, and the calls that are listed
/// fail; a failed call changes no byte. A write elsewhere than at its end fails too.
#[derive(Drop)]
pub struct MemFile {
    bytes: Vec<u8>,
    synced: usize,
    most: usize,
    failing: Vec<u32>,
    calls: u64,
    faults: u64,
    ghost some: { 0 < most },
}

impl MemFile {
    ghost use Rattle.file_disks.specs.MemFile.{kept_image, kept_calls, kept_failing, kept_faults};

    /// A file with these bytes, all of them synced, that takes at most `most` bytes in a write and fails at these
    /// calls, counted from 1.
    pub fn new(bytes: Vec<u8>, most: usize, failing: Vec<u32>) -> MemFile
        requires { 0 < most }
        ensures image { kept_image result ≡ synced_bytes bytes.items }
        ensures failing { kept_failing result ≡ failing.items }
        ensures fresh { (kept_calls result ≡ 0) × (kept_faults result ≡ 0) }
    {
        let synced = bytes.len();
        MemFile {
            bytes,
            synced,
            most,
            failing,
            calls: 0,
            faults: 0,
        }
    }

    /// Its bytes.
    pub fn bytes(&self) -> &[u8]
        ensures { result.now ≡ (kept_image self.now).bytes }
    {
        self.bytes.as_slice()
    }

    /// How many of them are synced.
    pub fn synced(&self) -> usize
        ensures { result ≡ (kept_image self.now).synced }
    {
        self.synced
    }

    /// How many calls it has had. The count stands still at its type's last value.
    pub fn calls(&self) -> u64
        ensures { result ≡ kept_calls self.now }
    {
        self.calls
    }

    // Counts a call, which fails where it is listed.
    fn next_call(&mut self) -> Result<(), Failed>
        ensures bytes { self.new.bytes ≡ self.old.bytes }
        ensures synced { self.new.synced ≡ self.old.synced }
        ensures most { self.new.most ≡ self.old.most }
        ensures failing { self.new.failing ≡ self.old.failing }
        ensures calls { self.new.calls ≡ one_more self.old.calls }
        ensures fails { IsErr result ↔ Contains self.old.failing.items self.new.calls }
        ensures cause { HasCause self.old.faults self.new.faults result }
    {
        self.calls = self.calls.saturating_add(1);
        if is_listed(&self.failing, self.calls) {
            self.faults = self.faults.saturating_add(1);
            return Err(Failed);
        }
        Ok(())
    }
}

impl JournalFile for MemFile {
    ghost use Rattle.file_disks.specs.Files.{IsEnd, shortened};
    ghost use Rattle.file_disks.specs.MemFile.{kept_image, kept_calls, kept_failing, kept_faults};

    ghost tells = { true };

    ghost image = { kept_image };

    ghost faults = { kept_faults };

    fn write_some(&mut self, place: u64, piece: &[u8]) -> Result<usize, Failed>
        requires { 0 < length piece.now }
        ensures some { IfOk result (λ count. 0 < count) }
        ensures within { IfOk result (λ count. count ≤ length piece.now) }
        ensures ok { IfOk result (λ count. kept_image self.new ≡ appended (take count piece.now) (kept_image self.old)) }
        ensures err { OnErr result (kept_image self.new ≡ kept_image self.old) }
        ensures cause { HasCause (kept_faults self.old) (kept_faults self.new) result }
        ensures calls { kept_calls self.new ≡ one_more (kept_calls self.old) }
        ensures listed { Contains (kept_failing self.old) (kept_calls self.new) → IsErr result }
    {
        self.next_call()?;
        if place != self.bytes.len() as u64 {
            self.faults = self.faults.saturating_add(1);
            return Err(Failed);
        }
        let count = piece.len().min(self.most);
        let put = self.bytes.extend_from_slice(&piece[..count]);
        counted(&mut self.faults, put)?;
        Ok(count)
    }

    fn sync(&mut self) -> Result<(), Failed>
        ensures ok { OnOk result (kept_image self.new ≡ all_synced (kept_image self.old)) }
        ensures err { OnErr result (kept_image self.new ≡ kept_image self.old) }
        ensures cause { HasCause (kept_faults self.old) (kept_faults self.new) result }
        ensures calls { kept_calls self.new ≡ one_more (kept_calls self.old) }
        ensures fails { IsErr result ↔ Contains (kept_failing self.old) (kept_calls self.new) }
    {
        self.next_call()?;
        self.synced = self.bytes.len();
        Ok(())
    }

    fn cut(&mut self, length: u64) -> Result<(), Failed>
        ensures ok { OnOk result (kept_image self.new ≡ shortened length (kept_image self.old)) }
        ensures err { OnErr result (kept_image self.new ≡ kept_image self.old) }
        ensures cause { HasCause (kept_faults self.old) (kept_faults self.new) result }
        ensures calls { kept_calls self.new ≡ one_more (kept_calls self.old) }
        ensures fails { IsErr result ↔ Contains (kept_failing self.old) (kept_calls self.new) }
    {
        self.next_call()?;
        self.bytes.truncate(length as usize);
        self.synced = self.synced.min(length as usize);
        Ok(())
    }

    fn replace(&mut self, bytes: &[u8]) -> Result<(), Failed>
        ensures ok { OnOk result (kept_image self.new ≡ synced_bytes bytes.now) }
        ensures err { OnErr result (kept_image self.new ≡ kept_image self.old) }
        ensures cause { HasCause (kept_faults self.old) (kept_faults self.new) result }
        ensures calls { kept_calls self.new ≡ one_more (kept_calls self.old) }
        ensures listed { Contains (kept_failing self.old) (kept_calls self.new) → IsErr result }
    {
        self.next_call()?;
        let copy = Vec::from_slice(*self.bytes.allocator(), bytes);
        self.bytes = counted(&mut self.faults, copy)?;
        self.synced = self.bytes.len();
        Ok(())
    }
}
