//! Reading the coordinator's records.
ghost use Rattle.std.specs.Prelude.{◌≡◌, IfOk};
ghost use Rattle.record_fields.specs.Items.{Reads};
ghost use Rattle.coord_journal.specs.Spelling.{initiation_at, commit_at, end_at, abort_at, checkpoint_at, tagged_at, reading, spelling, IsRecord};

use byte_numbers::{DecodeErr, u8_at};
use fed_rules::{CoordRecord, CoordSum};
use field_bytes::tid_at;
use record_fields::{list_at, participants_at, tickets_at};
use std::alloc::Global;

#[tactic(auto, unfolding(crate::specs::Spelling::initiation_at))]
fn initiation_of(alloc: Global, bytes: &[u8]) -> Result<(CoordRecord, &[u8]), DecodeErr>
    ensures { Reads (λ found. (found.0, found.1.now)) result (initiation_at bytes.now) }
{
    let (tid, rest) = tid_at(bytes).ok_or(DecodeErr::NoValue)?;
    let (participants, rest) = participants_at(alloc, rest)?;
    Ok((CoordRecord::Initiation { tid, participants }, rest))
}

#[tactic(auto, unfolding(crate::specs::Spelling::commit_at))]
fn commit_of(alloc: Global, bytes: &[u8]) -> Result<(CoordRecord, &[u8]), DecodeErr>
    ensures { Reads (λ found. (found.0, found.1.now)) result (commit_at bytes.now) }
{
    let (tid, rest) = tid_at(bytes).ok_or(DecodeErr::NoValue)?;
    let (tickets, rest) = tickets_at(alloc, rest)?;
    Ok((CoordRecord::Commit { tid, tickets }, rest))
}

#[tactic(auto, unfolding(crate::specs::Spelling::end_at))]
fn end_of(bytes: &[u8]) -> Result<(CoordRecord, &[u8]), DecodeErr>
    ensures { Reads (λ found. (found.0, found.1.now)) result (end_at bytes.now) }
{
    let (tid, rest) = tid_at(bytes).ok_or(DecodeErr::NoValue)?;
    Ok((CoordRecord::End { tid }, rest))
}

#[tactic(auto, unfolding(crate::specs::Spelling::abort_at))]
fn abort_of(alloc: Global, bytes: &[u8]) -> Result<(CoordRecord, &[u8]), DecodeErr>
    ensures { Reads (λ found. (found.0, found.1.now)) result (abort_at bytes.now) }
{
    let (tid, rest) = tid_at(bytes).ok_or(DecodeErr::NoValue)?;
    let (participants, rest) = participants_at(alloc, rest)?;
    Ok((CoordRecord::Abort { tid, participants }, rest))
}

#[tactic(auto, unfolding(crate::specs::Spelling::checkpoint_at))]
fn checkpoint_of(alloc: Global, bytes: &[u8]) -> Result<(CoordRecord, &[u8]), DecodeErr>
    ensures { Reads (λ found. (found.0, found.1.now)) result (checkpoint_at bytes.now) }
{
    let (open_attempts, rest) = list_at(alloc, bytes)?;
    let (committed, rest) = list_at(alloc, rest)?;
    let sum = CoordSum {
        open_attempts,
        committed,
    };
    Ok((CoordRecord::Checkpoint(sum), rest))
}

// The record behind a tag, and the bytes behind it.
fn tagged_of(alloc: Global, tag: u8, bytes: &[u8]) -> Result<(CoordRecord, &[u8]), DecodeErr>
    ensures { Reads (λ found. (found.0, found.1.now)) result (tagged_at tag bytes.now) }
{
    match tag {
        1 => initiation_of(alloc, bytes),
        2 => commit_of(alloc, bytes),
        3 => end_of(bytes),
        4 => abort_of(alloc, bytes),
        5 => checkpoint_of(alloc, bytes),
        _ => Err(DecodeErr::NoValue),
    }
}

// The record that a payload spells, all of it.
#[tactic(auto, unfolding(crate::specs::Spelling::reading))]
fn all_of(alloc: Global, payload: &[u8]) -> Result<CoordRecord, DecodeErr>
    ensures { Reads (λ entry. entry) result (reading payload.now) }
{
    let (tag, rest) = u8_at(payload).ok_or(DecodeErr::NoValue)?;
    let (entry, rest) = tagged_of(alloc, tag, rest)?;
    match rest {
        [] => Ok(entry),
        _ => Err(DecodeErr::NoValue),
    }
}

/// The record that a payload spells, all of it. What is read is spelled so.
pub fn record_of(alloc: Global, payload: &[u8]) -> Result<CoordRecord, DecodeErr>
    ensures read { Reads (λ entry. entry) result (reading payload.now) }
    ensures found { IfOk result (λ entry. IsRecord entry × (payload.now ≡ spelling entry)) }
{
    all_of(alloc, payload)
}
