//! Writing a site's records.
ghost use Rattle.std.specs.Prelude.{◌≡◌, ◌≤◌, ◌+◌, ◌++◌, ◌<◌, ◌^◌, List, length, nat_lt};
ghost use Rattle.std.specs.Vec.{vec_capacity};
ghost use Rattle.fed_rules.specs.Disk.{longest};
ghost use Rattle.fed_rules.specs.SiteRecords.{owner_size, site_payload, sum_size};
ghost use Rattle.journal_disk.specs.Frames.{IsPayload};
ghost use Rattle.record_fields.specs.Items.{Counts};
ghost use Rattle.site_journal.specs.Spelling.{checkpoint, spelling, IsRecord, IsSumInRange, InRange};

use byte_numbers::{put_u8, put_u32, put_u64};
use fed_rules::{SiteRecord, SiteSum};
use mdb_base::Tid;
use record_fields::{
    counted, counted_items, items_size, put_decision, put_engine, put_list, put_maybe_tid,
    put_prepared, put_protocol, put_site, put_tid, put_writes,
};

// How many bytes what may be an attempt has.
fn owner_len(owner: &Option<Tid>) -> usize
    ensures { result ≡ owner_size owner.now }
{
    match owner {
        None => 1,
        Some(_) => 6,
    }
}

// How many bytes a Checkpoint's payload has, or none where these are more than 65,535.
#[tactic(auto, using(crate::specs::PayloadSizes::doubtful_sizes))]
fn sum_len(sum: &SiteSum) -> Option<usize>
    ensures { Counts result (sum_size sum.now) }
{
    let rows = counted_items(sum.rows.len(), 10)?;
    let locals = counted_items(sum.locals.len(), 5)?;
    let doubtful = items_size(sum.doubtful.as_slice())?;
    counted(30 + owner_len(&sum.owner) + rows + locals + doubtful)
}

// How many bytes a record's payload has, or none where these are more than 65,535.
fn checked_len(entry: &SiteRecord) -> Option<usize>
    ensures { Counts result (site_payload entry.now) }
{
    match entry {
        SiteRecord::Setup { items, .. } => counted(6 + counted_items(items.len(), 10)?),
        SiteRecord::Start { .. } => Some(5),
        SiteRecord::Prepared { writes, .. } => counted(28 + counted_items(writes.len(), 10)?),
        SiteRecord::Ended { .. } => Some(7),
        SiteRecord::Local { writes, .. } => counted(16 + counted_items(writes.len(), 10)?),
        SiteRecord::Checkpoint(sum) => sum_len(sum),
    }
}

/// How many bytes a record's payload has.
#[tactic(auto, using(crate::specs::PayloadSizes::payload_has_size))]
pub fn payload_len(entry: &SiteRecord) -> usize
    requires { IsPayload (spelling entry.now) }
    ensures { result ≡ length (spelling entry.now) }
{
    match checked_len(entry) {
        Some(size) => size,
        None => unreachable!(),
    }
}

/// Whether a record's payload would have more than the 65,535 bytes of the longest one.
pub fn is_large(entry: &SiteRecord) -> bool
    ensures { result ≡ nat_lt longest (site_payload entry.now) }
{
    checked_len(entry).is_none()
}

// Writes what the records of a site say together, for which there is room.
#[tactic(auto, using(crate::proofs::Sums::checkpoint_size, crate::proofs::Sums::few_locals, crate::proofs::Sums::few_doubtful))]
fn put_sum(out: &mut Vec<u8>, sum: &SiteSum)
    requires in_range { IsSumInRange sum.now }
    requires small { length (checkpoint.spelling sum.now) < 2 ^ 16 }
    requires room { length out.old.items + length (checkpoint.spelling sum.now) ≤ vec_capacity out.old }
    ensures bytes { out.new.items ≡ out.old.items ++ checkpoint.spelling sum.now }
    ensures room { vec_capacity out.old ≤ vec_capacity out.new }
    ensures fits { checkpoint.Fits sum.now }
{
    put_site(out, sum.site);
    put_engine(out, sum.engine);
    put_protocol(out, sum.protocol);
    put_u32(out, sum.epoch);
    put_u64(out, sum.counter);
    put_u64(out, sum.published);
    put_maybe_tid(out, sum.owner);
    put_writes(out, &sum.rows);
    put_list(out, &sum.locals);
    put_list(out, &sum.doubtful);
}

/// Writes a record's payload behind the other bytes, for which there is room.
#[tactic(auto, using(record_fields::proofs::ForCallers::rows_size))]
pub fn put_record(entry: &SiteRecord, out: &mut Vec<u8>)
    requires in_range { InRange entry.now }
    requires payload { IsPayload (spelling entry.now) }
    requires room { length out.old.items + length (spelling entry.now) ≤ vec_capacity out.old }
    ensures bytes { out.new.items ≡ out.old.items ++ spelling entry.now }
    ensures room { vec_capacity out.old ≤ vec_capacity out.new }
    ensures is_record { IsRecord entry.now }
{
    match entry {
        SiteRecord::Setup {
            site,
            engine,
            protocol,
            items,
        } => {
            put_u8(out, 1);
            put_site(out, *site);
            put_engine(out, *engine);
            put_protocol(out, *protocol);
            put_writes(out, items);
        }
        SiteRecord::Start { epoch } => {
            put_u8(out, 2);
            put_u32(out, *epoch);
        }
        SiteRecord::Prepared {
            tid,
            epoch,
            number,
            ticket,
            writes,
        } => {
            put_u8(out, 3);
            put_prepared(out, *tid, *epoch, *number, *ticket, writes);
        }
        SiteRecord::Ended { tid, decision } => {
            put_u8(out, 4);
            put_tid(out, *tid);
            put_decision(out, *decision);
        }
        SiteRecord::Local {
            tid,
            number,
            writes,
        } => {
            put_u8(out, 5);
            put_tid(out, *tid);
            put_u64(out, *number);
            put_writes(out, writes);
        }
        SiteRecord::Checkpoint(sum) => {
            put_u8(out, 6);
            put_sum(out, sum);
        }
    }
}
