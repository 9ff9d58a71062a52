//! A journal: the records whose frames are whole on its disk.
ghost use Rattle.std.specs.Prelude.{◌≡◌, ◌≤◌, ◌<◌, ◌+◌, ◌++◌, ◌∷◌, [], ℕ, List, length, Bool, false, map, IfOk, OnOk, OnErr, IfErr, IsErrOf, IsTrue, Ok, Err};
ghost use Rattle.std.specs.List.{AllByRecursion};
ghost use Rattle.mdb_base.specs.Counts.{HasCause, HasCauseOf};

use crate::entry::{append_entry, frame_len};
use crate::format::Format;
use crate::loading::decode_all;
use crate::stopping::keep_within;
use crate::trimming::{keep_last, last_frame_len};
use journal_disk::{Disk, Failed, Frames, JournalErr, Version};
use mdb_base::Memory;
use std::alloc::Global;
use std::marker::{Model, PhantomData};

/// The records of type `R` on a disk, spelled by the format `F`.
#[derive(Drop)]
pub struct Journal<R: Drop, F: Format<R>> {
    records: Vec<R>,
    versions: Vec<Version>,
    whole: u64,
    is_torn: bool,
    frame: Vec<u8>,
    places: usize,
    room: usize,
    format: PhantomData<F>,
}

impl<R: Drop, F: Format<R>> Model for Journal<R, F> {
    ghost use Rattle.frame_journal.specs.Journal.{Kept, IsSound};
    ghost use Rattle.frame_journal.specs.Records.{entries_of};

    ghost Value = { Kept R };

    ghost view = { λ j. record { entries = entries_of j.versions.items j.records.items; is_torn = j.is_torn; places = j.places; room = j.room } };

    ghost invariant = { λ j. IsSound F.spelling F.is_record j.records j.versions j.frame j.whole j.places j.room };
}

impl<R: Drop, F: Format<R>> Journal<R, F> {
    ghost use Rattle.journal_disk.specs.Frames.{Frame, frame, frames_size, AreWhole, IsDamagedBehind, IsPayload};
    ghost use Rattle.journal_disk.specs.Disk.{appended, all_synced, trimmed_to, stopped, kept_bytes, synced_bytes, AppendsSome, CutsOrNot, HasCalled, TakesCalls, reads};
    ghost use Rattle.frame_journal.specs.Records.{Entry, before_last, entries_at, entry_frame, last_alone, records_within, spelled, spelled_size, values, AreRecordsOf, Loads, StopsAt};
    ghost use Rattle.frame_journal.specs.Journal.{IsKeptOn, EndsWith, HasRoom, new_journal, records, with_room, with_room_for, with_entry, written_size, ForcesSome, NotesOrNot};

    /// The journal of an empty disk. It takes no memory.
    pub fn new(alloc: Global) -> Self
        ensures { result ≡ new_journal }
    {
        Journal {
            records: Vec::new(alloc),
            versions: Vec::new(alloc),
            whole: 0,
            is_torn: false,
            frame: Vec::new(alloc),
            places: 0,
            room: 0,
            format: PhantomData,
        }
    }

    /// Reads the records whose frames are whole, in one pass: the disk is read once, and an empty one isn't. The disk isn't changed.
    pub fn load<D: Disk>(alloc: Global, disk: &mut D) -> Result<Self, JournalErr>
        ensures kept_on { IfOk result (IsKeptOn F.spelling D.tells (D.seen disk.new)) }
        // A frame that is no record is named exactly where it stands, the first one first.
        ensures exact { IsTrue D.tells → (found : List Frame) → AreWhole (D.seen disk.old).image.bytes found
            → Loads (λ journal. journal.entries) result (entries_at F.reading 0 found) }
        // So is a frame that is damaged, if each of those before it is a record.
        ensures damaged { IsTrue D.tells → (before : List Frame) → IsDamagedBehind (D.seen disk.old).image.bytes before
            → StopsAt (frames_size before) result (entries_at F.reading 0 before) }
        // Records that were written are read again.
        ensures again { IsTrue D.tells → (entries : List (Entry R)) → AllByRecursion F.is_record (values entries) → AreRecordsOf (entry_frame F.spelling) (D.seen disk.old).image.bytes entries
            → Loads (λ journal. journal.entries) result (Ok entries) }
        ensures are_records { IfOk result (λ journal. AllByRecursion F.is_record (records journal)) }
        ensures nothing_reserved { IfOk result (λ journal. (journal.places ≡ 0) × (journal.room ≡ 0)) }
        ensures called { TakesCalls (reads (D.seen disk.old).size) (D.seen disk.old) (D.seen disk.new) result }
        ensures cause { HasCauseOf JournalErr.Failed (D.seen disk.old).faults (D.seen disk.new).faults result }
        ensures untouched { (D.seen disk.old).size ≡ 0 → disk.new ≡ disk.old }
        ensures image { IsTrue D.tells → (D.seen disk.new).image ≡ (D.seen disk.old).image }
        ensures size { (D.seen disk.new).size ≡ (D.seen disk.old).size }
        ensures spare { (D.seen disk.old).spare ≤ (D.seen disk.new).spare }
    {
        let (frames, is_damaged) = Frames::read_front(alloc, disk)?;
        let (records, versions) = decode_all::<R, F>(alloc, &frames)?;
        let whole = frames.whole();
        if is_damaged {
            return Err(JournalErr::Damaged { at: whole });
        }
        Ok(Journal {
            records,
            versions,
            whole,
            is_torn: whole < disk.len(),
            frame: Vec::new(alloc),
            places: 0,
            room: 0,
            format: PhantomData,
        })
    }

    /// The records, oldest first.
    pub fn records(&self) -> &[R]
        ensures records { result.now ≡ records self.now }
        ensures are_records { AllByRecursion F.is_record (records self.now) }
    {
        self.records.as_slice()
    }

    /// Whether bytes stand behind the last whole frame.
    pub fn is_torn(&self) -> bool
        ensures { result ≡ self.now.is_torn }
    {
        self.is_torn
    }

    /// How many bytes the frame of this entry will have.
    pub fn frame_len(entry: &R) -> usize
        requires { IsPayload (F.spelling entry.now) }
        ensures { result ≡ written_size F.spelling entry.now }
    {
        frame_len(Version::Second, F::payload_len(entry))
    }

    /// Makes room for so many entries whose frames have so many bytes in all: after it they can be noted or forced without memory. Where
    /// there is that much already, nothing is added.
    pub fn make_room<D: Disk>(
        &mut self,
        alloc: Global,
        disk: &mut D,
        places: usize,
        bytes: usize,
    ) -> Result<(), Memory>
        requires kept_on { IsKeptOn F.spelling D.tells (D.seen disk.old) self.old }
        ensures ok { OnOk result (self.new ≡ with_room_for places bytes self.old) }
        ensures err { OnErr result (self.new ≡ self.old) }
        ensures kept_on { IsKeptOn F.spelling D.tells (D.seen disk.new) self.new }
        ensures image { IsTrue D.tells → (D.seen disk.new).image ≡ (D.seen disk.old).image }
        ensures size { (D.seen disk.new).size ≡ (D.seen disk.old).size }
        ensures spare { (D.seen disk.old).spare ≤ (D.seen disk.new).spare }
        ensures called { (D.seen disk.new).calls ≡ (D.seen disk.old).calls }
        ensures faults { (D.seen disk.new).faults ≡ (D.seen disk.old).faults }
    {
        let places = self.places.max(places);
        let room = self.room.max(bytes);
        self.records.reserve(places)?;
        self.versions.reserve(places)?;
        self.frame.reserve(room)?;
        disk.reserve(alloc, room as u64)?;
        self.places = places;
        self.room = room;
        Ok(())
    }

    /// Makes room for one more entry: after it one `note` or `force` of this entry needs no memory. Several reserves add up until
    /// they are used.
    pub fn reserve<D: Disk>(&mut self, alloc: Global, disk: &mut D, entry: &R) -> Result<(), Memory>
        requires kept_on { IsKeptOn F.spelling D.tells (D.seen disk.old) self.old }
        requires payload { IsPayload (F.spelling entry.now) }
        ensures ok { OnOk result (self.new ≡ with_room (written_size F.spelling entry.now) self.old) }
        ensures err { OnErr result (self.new ≡ self.old) }
        ensures kept_on { IsKeptOn F.spelling D.tells (D.seen disk.new) self.new }
        ensures image { IsTrue D.tells → (D.seen disk.new).image ≡ (D.seen disk.old).image }
        ensures size { (D.seen disk.new).size ≡ (D.seen disk.old).size }
        ensures spare { (D.seen disk.old).spare ≤ (D.seen disk.new).spare }
        ensures called { (D.seen disk.new).calls ≡ (D.seen disk.old).calls }
        ensures faults { (D.seen disk.new).faults ≡ (D.seen disk.old).faults }
    {
        let Some(places) = self.places.checked_add(1) else {
            return Err(Memory);
        };
        let Some(room) = self.room.checked_add(Self::frame_len(entry)) else {
            return Err(Memory);
        };
        self.make_room(alloc, disk, places, room)
    }

    /// Gives up what was reserved.
    pub fn give_up_room(&mut self)
        ensures { self.new ≡ record self.old { places = 0; room = 0 } }
    {
        self.places = 0;
        self.room = 0;
    }

    /// Cuts back what stands behind the last whole frame, by one cut_back, and so syncs all records. What was reserved stays.
    pub fn cut<D: Disk>(&mut self, disk: &mut D) -> Result<(), Failed>
        requires { IsKeptOn F.spelling D.tells (D.seen disk.old) self.old }
        ensures ok { OnOk result (IsTrue D.tells → (D.seen disk.new).image ≡ synced_bytes (spelled (entry_frame F.spelling) self.old.entries)) }
        ensures err { OnErr result (IsTrue D.tells → CutsOrNot (spelled_size (entry_frame F.spelling) self.old.entries) (D.seen disk.old).image (D.seen disk.new).image) }
        ensures torn { OnOk result (self.new.is_torn ≡ false) }
        ensures journal { self.new ≡ record self.old { is_torn = self.new.is_torn } }
        ensures kept_on { IsKeptOn F.spelling D.tells (D.seen disk.new) self.new }
        ensures spare { (D.seen disk.old).spare ≤ (D.seen disk.new).spare }
        ensures called { HasCalled 1 (D.seen disk.old) (D.seen disk.new) }
        ensures cause { HasCause (D.seen disk.old).faults (D.seen disk.new).faults result }
    {
        let outcome = disk.cut_back(self.whole);
        self.is_torn = self.whole < disk.len();
        outcome
    }

    /// Appends an entry by one append, which isn't synced yet. Where it fails, the entry stands in the journal exactly where its frame is
    /// whole on the disk.
    pub fn note<D: Disk>(&mut self, disk: &mut D, entry: R) -> Result<(), Failed>
        requires kept_on { IsKeptOn F.spelling D.tells (D.seen disk.old) self.old }
        requires whole { self.old.is_torn ≡ false }
        requires reserved { HasRoom (written_size F.spelling entry) self.old }
        requires in_range { F.in_range entry }
        requires payload { IsPayload (F.spelling entry) }
        ensures ok { OnOk result (self.new ≡ with_entry F.spelling entry self.old) }
        ensures err { OnErr result (NotesOrNot F.spelling entry self.old self.new) }
        ensures image_ok { OnOk result (IsTrue D.tells → (D.seen disk.new).image ≡ appended (frame (F.spelling entry)) (D.seen disk.old).image) }
        ensures image_err { OnErr result (IsTrue D.tells → AppendsSome (frame (F.spelling entry)) (D.seen disk.old).image (D.seen disk.new).image) }
        ensures is_record { F.is_record entry }
        ensures kept_on { IsKeptOn F.spelling D.tells (D.seen disk.new) self.new }
        ensures spare { (D.seen disk.old).spare ≤ (D.seen disk.new).spare + written_size F.spelling entry }
        ensures called { HasCalled 1 (D.seen disk.old) (D.seen disk.new) }
        ensures cause { HasCause (D.seen disk.old).faults (D.seen disk.new).faults result }
    {
        let outcome = append_entry::<R, F, D>(disk, &mut self.frame, &entry);
        let bytes = self.frame.len();
        self.places -= 1;
        self.room -= bytes;
        let size = disk.len();
        // A failed append may have left the whole frame too.
        if size - self.whole == bytes as u64 {
            self.records.push_reserved(entry);
            self.versions.push_reserved(Version::Second);
            self.whole = size;
        } else {
            self.is_torn = self.whole < size;
        }
        outcome
    }

    /// Appends an entry and syncs once. Where the sync fails, the entry stands in the journal, and a stop may still take it away.
    pub fn force<D: Disk>(&mut self, disk: &mut D, entry: R) -> Result<(), Failed>
        requires kept_on { IsKeptOn F.spelling D.tells (D.seen disk.old) self.old }
        requires whole { self.old.is_torn ≡ false }
        requires reserved { HasRoom (written_size F.spelling entry) self.old }
        requires in_range { F.in_range entry }
        requires payload { IsPayload (F.spelling entry) }
        ensures ok { OnOk result (self.new ≡ with_entry F.spelling entry self.old) }
        ensures err { OnErr result (NotesOrNot F.spelling entry self.old self.new) }
        ensures image_ok { OnOk result (IsTrue D.tells → (D.seen disk.new).image ≡ all_synced (appended (frame (F.spelling entry)) (D.seen disk.old).image)) }
        ensures image_err { OnErr result (IsTrue D.tells → ForcesSome (frame (F.spelling entry)) (D.seen disk.old).image (D.seen disk.new).image) }
        ensures is_record { F.is_record entry }
        ensures kept_on { IsKeptOn F.spelling D.tells (D.seen disk.new) self.new }
        ensures spare { (D.seen disk.old).spare ≤ (D.seen disk.new).spare + written_size F.spelling entry }
        ensures called { TakesCalls 2 (D.seen disk.old) (D.seen disk.new) result }
        ensures cause { HasCause (D.seen disk.old).faults (D.seen disk.new).faults result }
    {
        self.note(disk, entry)?;
        disk.sync()
    }

    /// Drops the records before the last one, a checkpoint that is synced, and their bytes, by one trim_front. A failed one changes nothing.
    pub fn trim<D: Disk>(&mut self, disk: &mut D) -> Result<(), Failed>
        requires kept_on { IsKeptOn F.spelling D.tells (D.seen disk.old) self.old }
        requires checkpoint { EndsWith F.is_checkpoint (records self.old) }
        requires synced { IsTrue D.tells → spelled_size (entry_frame F.spelling) self.old.entries ≤ (D.seen disk.old).image.synced }
        ensures ok { OnOk result (self.new ≡ record self.old { entries = last_alone self.old.entries }) }
        ensures err { OnErr result (self.new ≡ self.old) }
        ensures image_ok { OnOk result (IsTrue D.tells → (D.seen disk.new).image ≡ trimmed_to (spelled_size (entry_frame F.spelling) (before_last self.old.entries)) (D.seen disk.old).image) }
        ensures image_err { OnErr result (IsTrue D.tells → (D.seen disk.new).image ≡ (D.seen disk.old).image) }
        ensures kept_on { IsKeptOn F.spelling D.tells (D.seen disk.new) self.new }
        ensures spare { (D.seen disk.old).spare ≤ (D.seen disk.new).spare }
        ensures called { HasCalled 1 (D.seen disk.old) (D.seen disk.new) }
        ensures cause { HasCause (D.seen disk.old).faults (D.seen disk.new).faults result }
    {
        let size = last_frame_len::<R, F>(&self.records, &self.versions) as u64;
        disk.trim_front(self.whole - size)?;
        keep_last(&mut self.records);
        keep_last(&mut self.versions);
        self.whole = size;
        Ok(())
    }

    /// Stops the disk with this cut, keeps the records whose frames are still whole, and answers how many they are.
    pub fn stop<D: Disk>(&mut self, disk: &mut D, cut: u64) -> usize
        requires { IsKeptOn F.spelling D.tells (D.seen disk.old) self.old }
        ensures count { result ≡ length (records self.new) }
        ensures entries { self.new.entries ≡ records_within (entry_frame F.spelling) (D.seen disk.new).size self.old.entries }
        ensures are_records { AllByRecursion F.is_record (records self.new) }
        ensures journal { self.new ≡ record self.old { entries = self.new.entries; is_torn = self.new.is_torn } }
        ensures image { IsTrue D.tells → (D.seen disk.new).image ≡ stopped cut (D.seen disk.old).image }
        ensures size { IsTrue D.tells → (D.seen disk.new).size ≡ kept_bytes cut (D.seen disk.old).image }
        ensures kept_on { IsKeptOn F.spelling D.tells (D.seen disk.new) self.new }
        ensures spare { (D.seen disk.old).spare ≤ (D.seen disk.new).spare }
        ensures called { (D.seen disk.new).calls ≡ (D.seen disk.old).calls }
        ensures faults { (D.seen disk.new).faults ≡ (D.seen disk.old).faults }
    {
        disk.stop(cut);
        let left = disk.len();
        self.whole = keep_within::<R, F>(&mut self.records, &mut self.versions, self.whole, left);
        self.is_torn = self.whole < left;
        self.records.len()
    }
}
