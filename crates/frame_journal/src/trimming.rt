//! The record that a trim leaves.
ghost use Rattle.std.specs.Prelude.{◌≡◌, ◌≤◌, ◌<◌, ℕ, List, length, map};
ghost use Rattle.std.specs.Vec.{vec_capacity};
ghost use Rattle.journal_disk.specs.Frames.{AreRight};
ghost use Rattle.frame_journal.specs.Records.{entries_of, entry_frame, last_alone, spelled_size};

use crate::entry::frame_len;
use crate::format::Format;
use journal_disk::Version;

// How many bytes the frame of the last record has.
pub fn last_frame_len<R, F: Format<R>>(records: &[R], versions: &[Version]) -> usize
    requires some { 0 < length records.now }
    requires side_by_side { length versions.now ≡ length records.now }
    requires right { AreRight (map (entry_frame F.spelling) (entries_of versions.now records.now)) }
    ensures { result ≡ spelled_size (entry_frame F.spelling) (last_alone (entries_of versions.now records.now)) }
{
    let last = records.len() - 1;
    let payload = F::payload_len(&records[last]);
    frame_len(versions[last], payload)
}

// Keeps the last item alone.
pub fn keep_last<T: Drop>(items: &mut Vec<T>)
    requires { 0 < length items.old.items }
    ensures last { items.new.items ≡ last_alone items.old.items }
    ensures room { vec_capacity items.new ≡ vec_capacity items.old }
{
    let last = items.take_last();
    items.clear();
    items.push_reserved(last);
}
