//! The records of a journal that is loaded.
ghost use Rattle.std.specs.Prelude.{◌≡◌, ◌≤◌, ◌<◌, ◌+◌, ◌++◌, ℕ, List, length, map, IfOk, IsErrOf};
ghost use Rattle.std.specs.List.{AllByRecursion};
ghost use Rattle.journal_disk.specs.Frames.{AreRight};
ghost use Rattle.frame_journal.specs.Records.{entries_at, entries_of, entry_frame, Loads};

use crate::entry::frame_len;
use crate::format::Format;
use byte_numbers::DecodeErr;
use journal_disk::{Frames, JournalErr, Version};
use std::alloc::Global;

// The records that the payloads spell, and how the frame of each is spelled. The first frame that is no record is named by its place.
pub fn decode_all<R: Drop, F: Format<R>>(
    alloc: Global,
    frames: &Frames,
) -> Result<(Vec<R>, Vec<Version>), JournalErr>
    ensures read { Loads (λ found. entries_of found.1.items found.0.items) result (entries_at F.reading 0 frames.now) }
    ensures side_by_side { IfOk result (λ found. length found.1.items ≡ length found.0.items) }
    ensures spelled { IfOk result (λ found. map (entry_frame F.spelling) (entries_of found.1.items found.0.items) ≡ frames.now) }
    ensures are_right { AreRight frames.now }
    ensures are_records { IfOk result (λ found. AllByRecursion F.is_record found.0.items) }
    ensures never_failed { IsErrOf result JournalErr.Failed → ⊥ }
{
    let mut records = Vec::new(alloc);
    let mut versions = Vec::new(alloc);
    let whole = frames.whole();
    let mut place = 0;
    for i in 0..frames.len() {
        let payload = frames.at(i);
        let version = frames.version(i);
        match F::decode(alloc, payload) {
            Ok(entry) => records.push(entry)?,
            Err(DecodeErr::NoValue) => return Err(JournalErr::Malformed { at: place }),
            Err(DecodeErr::Memory) => return Err(JournalErr::Memory),
        }
        versions.push(version)?;
        place += frame_len(version, payload.len()) as u64;
    }
    prove!(place == whole);
    Ok((records, versions))
}
