//! What holds of the records of every format.
ghost use Rattle.std.specs.Prelude.{◌≡◌, ◌++◌, [], List, ℕ, length, take, Bool, IsTrue};
ghost use Rattle.std.specs.List.{AllByRecursion};
ghost use Rattle.journal_disk.specs.Disk.{Seen};
ghost use Rattle.journal_disk.specs.Frames.{frame, IsPayload};
ghost use Rattle.frame_journal.specs.Journal.{new_journal, IsKeptOn};
ghost use Rattle.frame_journal.specs.Records.{Entry, AreRecordsOf, entry_frame, records_within, values};

use crate::format::Format;

/// A record has one spelling, and no frame of a record begins another. So the bytes of a journal have one list of entries.
pub fn records_are_apart<R, F: Format<R>>()
    ensures one_spelling { (a b : R) → F.is_record a → F.is_record b → F.spelling a ≡ F.spelling b → a ≡ b }
    ensures none_begins_another { (a b : R) (x y : List ℕ) → F.is_record a → F.is_record b → IsPayload (F.spelling a) → IsPayload (F.spelling b)
        → frame (F.spelling a) ++ x ≡ frame (F.spelling b) ++ y → (a ≡ b) × (x ≡ y) }
    ensures one_list { (bytes : List ℕ) (some others : List (Entry R)) → AllByRecursion F.is_record (values some) → AllByRecursion F.is_record (values others)
        → AreRecordsOf (entry_frame F.spelling) bytes some → AreRecordsOf (entry_frame F.spelling) bytes others → some ≡ others }
{}

/// A stop leaves the first records, and those whose frames end within the bytes that it keeps.
pub fn a_stop_leaves_the_first_records<R, F: Format<R>>()
    ensures whole { (n : ℕ) (bytes : List ℕ) (entries : List (Entry R)) → AreRecordsOf (entry_frame F.spelling) bytes entries
        → AreRecordsOf (entry_frame F.spelling) (take n bytes) (records_within (entry_frame F.spelling) n entries) }
    ensures first { (n : ℕ) (entries : List (Entry R)) → records_within (entry_frame F.spelling) n entries ≡ take (length (records_within (entry_frame F.spelling) n entries)) entries }
{}

/// A new journal is that of an empty disk.
pub fn a_new_journal_is_kept_on_an_empty_disk<R, F: Format<R>>()
    ensures { (tells : Bool) (seen : Seen) → seen.size ≡ 0 → (IsTrue tells → seen.image.bytes ≡ []) → IsKeptOn {R = R} F.spelling tells seen new_journal }
{}
