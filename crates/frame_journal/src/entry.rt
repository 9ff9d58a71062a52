//! One entry of a journal, as a frame on its disk.
ghost use Rattle.std.specs.Prelude.{◌≡◌, ◌≤◌, ◌<◌, ◌+◌, ◌++◌, ◌^◌, ℕ, List, length, OnOk, OnErr, IsTrue};
ghost use Rattle.std.specs.Vec.{vec_capacity};
ghost use Rattle.mdb_base.specs.Counts.{HasCause};
ghost use Rattle.journal_disk.specs.Disk.{appended, AppendsSome, HasCalled};
ghost use Rattle.journal_disk.specs.Frames.{frame as frame_of, frame_in, frame_size, IsPayload};
ghost use Rattle.journal_disk.specs.Room.{payload_in};
ghost use Rattle.frame_journal.specs.Journal.{written_size};

use crate::format::Format;
use byte_numbers::{put, put_u32};
use journal_disk::{Disk, Failed, FrameErr, ROOM_BEFORE, ROOM_BEHIND, Version, append_frame};

// How many bytes the frame of a payload of this length has.
pub fn frame_len(version: Version, payload: usize) -> usize
    requires { payload < 2 ^ 16 }
    ensures { (bytes : List ℕ) → length bytes ≡ payload → result ≡ frame_size (frame_in version bytes) }
{
    match version {
        Version::First => 2 + payload,
        Version::Second => ROOM_BEFORE + payload + ROOM_BEHIND,
    }
}

// Spells the entry in `frame`, which has room for it, and appends it to the disk.
pub fn append_entry<R, F: Format<R>, D: Disk>(
    disk: &mut D,
    frame: &mut Vec<u8>,
    entry: &R,
) -> Result<(), Failed>
    requires in_range { F.in_range entry.now }
    requires payload { IsPayload (F.spelling entry.now) }
    requires room { written_size F.spelling entry.now ≤ vec_capacity frame.old }
    requires spare { written_size F.spelling entry.now ≤ (D.seen disk.old).spare }
    ensures is_record { F.is_record entry.now }
    ensures frame { length frame.new.items ≡ written_size F.spelling entry.now }
    ensures room { vec_capacity frame.old ≤ vec_capacity frame.new }
    ensures ok { OnOk result (IsTrue D.tells → (D.seen disk.new).image ≡ appended (frame_of (F.spelling entry.now)) (D.seen disk.old).image) }
    ensures err { OnErr result (IsTrue D.tells → AppendsSome (frame_of (F.spelling entry.now)) (D.seen disk.old).image (D.seen disk.new).image) }
    ensures size { OnOk result ((D.seen disk.new).size ≡ (D.seen disk.old).size + written_size F.spelling entry.now) }
    ensures grows { (D.seen disk.old).size ≤ (D.seen disk.new).size }
    ensures spare { (D.seen disk.old).spare ≤ (D.seen disk.new).spare + written_size F.spelling entry.now }
    ensures called { HasCalled 1 (D.seen disk.old) (D.seen disk.new) }
    ensures cause { HasCause (D.seen disk.old).faults (D.seen disk.new).faults result }
{
    spell::<R, F>(frame, entry);
    match append_frame(disk, frame) {
        Ok(()) => Ok(()),
        Err(FrameErr::Failed) => Err(Failed),
        Err(FrameErr::TooLong) => unreachable!(),
    }
}

// Writes the payload of an entry with the room for its frame.
fn spell<R, F: Format<R>>(frame: &mut Vec<u8>, entry: &R)
    requires in_range { F.in_range entry.now }
    requires payload { IsPayload (F.spelling entry.now) }
    requires room { written_size F.spelling entry.now ≤ vec_capacity frame.old }
    ensures is_record { F.is_record entry.now }
    ensures frame { length frame.new.items ≡ written_size F.spelling entry.now }
    ensures payload { payload_in frame.new.items ≡ F.spelling entry.now }
    ensures room { vec_capacity frame.old ≤ vec_capacity frame.new }
{
    frame.clear();
    put_u32(frame, 0);
    F::encode(entry, frame);
    put(frame, &[0; ROOM_BEHIND]);
}
