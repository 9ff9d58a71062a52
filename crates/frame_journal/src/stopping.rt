//! The records that a stop leaves.
ghost use Rattle.std.specs.Prelude.{◌≡◌, ◌≤◌, ℕ, List, length, map};
ghost use Rattle.std.specs.Vec.{vec_capacity};
ghost use Rattle.journal_disk.specs.Frames.{AreRight};
ghost use Rattle.frame_journal.specs.Records.{entries_of, entry_frame, records_within, spelled_size};

use crate::entry::frame_len;
use crate::format::Format;
use journal_disk::Version;

// Keeps the records whose frames end within the first `left` bytes, and answers how many bytes their frames have. At first they
// have `whole`.
pub fn keep_within<R: Drop, F: Format<R>>(
    records: &mut Vec<R>,
    versions: &mut Vec<Version>,
    whole: u64,
    left: u64,
) -> u64
    requires side_by_side { length versions.old.items ≡ length records.old.items }
    requires whole { whole ≡ spelled_size (entry_frame F.spelling) (entries_of versions.old.items records.old.items) }
    requires right { AreRight (map (entry_frame F.spelling) (entries_of versions.old.items records.old.items)) }
    ensures records { entries_of versions.new.items records.new.items ≡ records_within (entry_frame F.spelling) left (entries_of versions.old.items records.old.items) }
    ensures side_by_side { length versions.new.items ≡ length records.new.items }
    ensures whole { result ≡ spelled_size (entry_frame F.spelling) (entries_of versions.new.items records.new.items) }
    ensures room { vec_capacity records.new ≡ vec_capacity records.old }
    ensures versions { vec_capacity versions.new ≡ vec_capacity versions.old }
{
    let mut whole = whole;
    while whole > left {
        let last = records.take_last();
        let version = versions.take_last();
        whole -= frame_len(version, F::payload_len(&last)) as u64;
    }
    whole
}
