//! The bytes on a disk and the rules of the federation say the same: after any calls and stops the whole frames on the disk are those
//! of the records that the rules keep.
#![tactic(auto)]

ghost use Rattle.std.specs.Prelude.{◌≡◌, ℕ, Bool, IsTrue, List, length, map, reverse};
ghost use Rattle.std.specs.List.{AllByRecursion};
ghost use Rattle.fed_rules.specs.Disk.{Call, Disk, after_call, after_calls, empty_disk, is_torn, journal as journal_of, whole};
ghost use Rattle.journal_disk.specs.Disk.{Image, Seen, no_bytes};
ghost use Rattle.frame_journal.specs.Journal.{IsKeptOn, Kept, records};
ghost use Rattle.frame_journal.specs.Records.{AreRecordsOf, as_written, records_within};
ghost use Rattle.journal_rules.specs.Stands.{record_frame, StandsFor, CountsFrames, MayCome, AllMayCome, image_after, image_after_calls};
ghost use Rattle.journal_rules.specs.Torn.{AnyRecord, IsTornBy};

mod calls;

pub use calls::{JournalCall, load_after_calls};
use frame_journal::Format;

/// Each call on the bytes is the call of the rules, in which nothing is appended behind a torn rest. What stands behind the whole frames
/// is part of the very frame that a stop cut.
pub fn calls_follow_the_rules<R, F: Format<R>>()
    ensures call { (size : R → ℕ) → CountsFrames F.spelling size → (image : Image) (disk : Disk R) (call : Call R)
        → StandsFor F.spelling size image disk → MayCome F.spelling size disk call → StandsFor F.spelling size (image_after F.spelling size disk image call) (after_call size disk call) }
    ensures torn { (size : R → ℕ) → CountsFrames F.spelling size → (image : Image) (disk : Disk R) (call : Call R)
        → StandsFor F.spelling size image disk → MayCome F.spelling size disk call → IsTornBy F.spelling AnyRecord size image disk
        → IsTornBy F.spelling AnyRecord size (image_after F.spelling size disk image call) (after_call size disk call) }
    ensures journal { (size : R → ℕ) → CountsFrames F.spelling size → (image : Image) (disk : Disk R)
        → StandsFor F.spelling size image disk → AreRecordsOf (record_frame F.spelling) image.bytes (reverse (journal_of size disk)) }
    ensures kept { (size : R → ℕ) → CountsFrames F.spelling size → (n : ℕ) (records : List R) → records_within (record_frame F.spelling) n (reverse records) ≡ reverse (whole size n records) }
{}

/// After any calls with stops, the records whose frames are whole in the bytes are exactly those of the rules, and what stands behind
/// them is part of the frame of the record that was lost by the rules.
pub fn whole_frames_are_the_records<R, F: Format<R>>()
    ensures stands { (size : R → ℕ) → CountsFrames F.spelling size → (calls : List (Call R)) → AllMayCome F.spelling size empty_disk calls
        → StandsFor F.spelling size (image_after_calls F.spelling size empty_disk no_bytes calls) (after_calls size empty_disk calls) }
    ensures torn { (size : R → ℕ) → CountsFrames F.spelling size → (calls : List (Call R)) → AllMayCome F.spelling size empty_disk calls
        → IsTornBy F.spelling AnyRecord size (image_after_calls F.spelling size empty_disk no_bytes calls) (after_calls size empty_disk calls) }
{}

/// A journal that is kept on the bytes of the rules' disk has the records that stand there, and is torn where that disk is.
pub fn a_journal_has_the_records_of_the_rules<R, F: Format<R>>()
    ensures entries { (tells : Bool) (seen : Seen) (journal : Kept R) (disk : Disk R) → IsTrue tells → IsKeptOn F.spelling tells seen journal
        → StandsFor F.spelling F.frame_bytes seen.image disk → AllByRecursion F.is_record (records journal) → AllByRecursion F.is_record disk.records
        → journal.entries ≡ map as_written (reverse (journal_of F.frame_bytes disk)) }
    ensures torn { (tells : Bool) (seen : Seen) (journal : Kept R) (disk : Disk R) → IsTrue tells → length seen.image.bytes ≡ seen.size → IsKeptOn F.spelling tells seen journal
        → StandsFor F.spelling F.frame_bytes seen.image disk → AllByRecursion F.is_record (records journal) → AllByRecursion F.is_record disk.records
        → journal.is_torn ≡ is_torn F.frame_bytes disk }
{}
