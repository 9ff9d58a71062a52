//! How records are spelled as payloads.
ghost use Rattle.std.specs.Prelude.{◌≡◌, ◌≤◌, ◌+◌, ◌++◌, ℕ, List, length, Option, Some, None, IfOk, IsErrOf};
ghost use Rattle.std.specs.Vec.{vec_capacity};
ghost use Rattle.journal_disk.specs.Frames.{IsPayload};
ghost use Rattle.frame_journal.specs.Journal.{written_size};

use byte_numbers::DecodeErr;
use std::alloc::Global;

/// The spelling of records of type `R`. A record has one spelling, and a payload spells at most one record.
pub trait Format<R>: Drop {
    /// The payload of a record.
    ghost spelling: { R → List ℕ };

    /// The record that a payload spells, if it spells one.
    ghost reading: { List ℕ → Option R };

    /// The names in the record lie in their ranges. Whoever writes a record sees to it.
    ghost in_range: { R → Type 0 };

    /// What can be written and is read again.
    ghost is_record: { R → Type 0 };

    /// A record that says all that those before it say, so that a journal may begin with it.
    ghost is_checkpoint: { R → Type 0 };

    /// How many bytes the frame of a record has, as the rules of its owner count them.
    ghost frame_bytes: { R → ℕ };

    /// How many bytes the payload has.
    fn payload_len(entry: &R) -> usize
        requires { IsPayload (spelling entry.now) }
        ensures { result ≡ length (spelling entry.now) };

    /// Writes the payload behind the other bytes, for which there is room. It takes no memory.
    fn encode(entry: &R, out: &mut Vec<u8>)
        requires in_range { in_range entry.now }
        requires payload { IsPayload (spelling entry.now) }
        requires room { length out.old.items + length (spelling entry.now) ≤ vec_capacity out.old }
        ensures bytes { out.new.items ≡ out.old.items ++ spelling entry.now }
        ensures room { vec_capacity out.old ≤ vec_capacity out.new }
        ensures is_record { is_record entry.now };

    /// The record that the whole payload spells. What is read is spelled so.
    fn decode(alloc: Global, payload: &[u8]) -> Result<R, DecodeErr>
        ensures ok { IfOk result (λ entry. reading payload.now ≡ Some entry) }
        ensures is_record { IfOk result is_record }
        ensures spelled { IfOk result (λ entry. payload.now ≡ spelling entry) }
        ensures no_record { IsErrOf result DecodeErr.NoValue → reading payload.now ≡ None };

    /// What is spelled is read again, so a record has one spelling.
    ghost spelled_is_read: { (entry : R) → is_record entry → reading (spelling entry) ≡ Some entry };

    /// The rules count the frames as they are spelled.
    ghost counts_frames: { (entry : R) → written_size spelling entry ≡ frame_bytes entry };
}
