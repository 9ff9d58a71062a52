//! Writing the coordinator's records.
ghost use Rattle.std.specs.Prelude.{◌≡◌, ◌≤◌, ◌+◌, ◌++◌, ◌<◌, ◌^◌, List, length, nat_lt};
ghost use Rattle.std.specs.Vec.{vec_capacity};
ghost use Rattle.fed_rules.specs.declared.records.CoordRecord.TheVariants.{Checkpoint};
ghost use Rattle.fed_rules.specs.CoordRecords.{coord_payload};
ghost use Rattle.fed_rules.specs.Disk.{longest};
ghost use Rattle.journal_disk.specs.Frames.{IsPayload};
ghost use Rattle.record_fields.specs.Items.{Counts};
ghost use Rattle.coord_journal.specs.Spelling.{checkpoint, spelling, IsRecord, IsSumInRange, InRange};

use byte_numbers::put_u8;
use fed_rules::{CoordRecord, CoordSum};
use record_fields::{
    counted, counted_items, items_size, put_list, put_participants, put_tickets, put_tid,
};

// How many bytes a Checkpoint's payload has, or none where these are more than 65,535.
#[tactic(auto, using(crate::specs::PayloadSizes::open_sizes, crate::specs::PayloadSizes::committed_sizes))]
fn sum_len(sum: &CoordSum) -> Option<usize>
    ensures { Counts result (coord_payload (Checkpoint sum.now)) }
{
    let open = items_size(sum.open_attempts.as_slice())?;
    let committed = items_size(sum.committed.as_slice())?;
    counted(5 + open + committed)
}

// How many bytes a record's payload has, or none where these are more than 65,535.
fn checked_len(entry: &CoordRecord) -> Option<usize>
    ensures { Counts result (coord_payload entry.now) }
{
    match entry {
        CoordRecord::Initiation { participants, .. } => {
            counted(7 + counted_items(participants.len(), 2)?)
        }
        CoordRecord::Commit { tickets, .. } => counted(7 + counted_items(tickets.len(), 9)?),
        CoordRecord::Abort { participants, .. } => {
            counted(7 + counted_items(participants.len(), 2)?)
        }
        CoordRecord::End { .. } => Some(6),
        CoordRecord::Checkpoint(sum) => sum_len(sum),
    }
}

/// How many bytes a record's payload has.
#[tactic(auto, using(crate::specs::PayloadSizes::payload_has_size))]
pub fn payload_len(entry: &CoordRecord) -> usize
    requires { IsPayload (spelling entry.now) }
    ensures { result ≡ length (spelling entry.now) }
{
    match checked_len(entry) {
        Some(size) => size,
        None => unreachable!(),
    }
}

/// Whether a record's payload would have more than the 65,535 bytes of the longest one.
pub fn is_large(entry: &CoordRecord) -> bool
    ensures { result ≡ nat_lt longest (coord_payload entry.now) }
{
    checked_len(entry).is_none()
}

// Writes what the records of the coordinator say together, for which there is room.
#[tactic(auto, using(crate::proofs::Sums::checkpoint_size, crate::proofs::Sums::few_open, crate::proofs::Sums::few_committed))]
fn put_sum(out: &mut Vec<u8>, sum: &CoordSum)
    requires in_range { IsSumInRange sum.now }
    requires small { length (checkpoint.spelling sum.now) < 2 ^ 16 }
    requires room { length out.old.items + length (checkpoint.spelling sum.now) ≤ vec_capacity out.old }
    ensures bytes { out.new.items ≡ out.old.items ++ checkpoint.spelling sum.now }
    ensures room { vec_capacity out.old ≤ vec_capacity out.new }
    ensures fits { checkpoint.Fits sum.now }
{
    put_list(out, &sum.open_attempts);
    put_list(out, &sum.committed);
}

/// Writes a record's payload behind the other bytes, for which there is room.
#[tactic(auto, using(record_fields::proofs::ForCallers::participants_size, record_fields::proofs::ForCallers::tickets_size))]
pub fn put_record(entry: &CoordRecord, out: &mut Vec<u8>)
    requires in_range { InRange entry.now }
    requires payload { IsPayload (spelling entry.now) }
    requires room { length out.old.items + length (spelling entry.now) ≤ vec_capacity out.old }
    ensures bytes { out.new.items ≡ out.old.items ++ spelling entry.now }
    ensures room { vec_capacity out.old ≤ vec_capacity out.new }
    ensures is_record { IsRecord entry.now }
{
    match entry {
        CoordRecord::Initiation { tid, participants } => {
            put_u8(out, 1);
            put_tid(out, *tid);
            put_participants(out, participants);
        }
        CoordRecord::Commit { tid, tickets } => {
            put_u8(out, 2);
            put_tid(out, *tid);
            put_tickets(out, tickets);
        }
        CoordRecord::End { tid } => {
            put_u8(out, 3);
            put_tid(out, *tid);
        }
        CoordRecord::Abort { tid, participants } => {
            put_u8(out, 4);
            put_tid(out, *tid);
            put_participants(out, participants);
        }
        CoordRecord::Checkpoint(sum) => {
            put_u8(out, 5);
            put_sum(out, sum);
        }
    }
}
