//! Reading a site's records.
ghost use Rattle.std.specs.Prelude.{◌≡◌, IfOk};
ghost use Rattle.record_fields.specs.Items.{Reads};
ghost use Rattle.site_journal.specs.Spelling.{setup_at, start_at, prepared_at, ended_at, local_at, checkpoint_at, tagged_at, reading, spelling, IsRecord};

use byte_numbers::{DecodeErr, u8_at, u16_at, u32_at, u64_at};
use fed_rules::{SiteRecord, SiteSum};
use field_bytes::{decision_at, tid_at};
use record_fields::{engine_at, list_at, maybe_tid_at, protocol_at, site_at, writes_at};
use std::alloc::Global;

#[tactic(auto, unfolding(crate::specs::Spelling::setup_at))]
fn setup_of(alloc: Global, bytes: &[u8]) -> Result<(SiteRecord, &[u8]), DecodeErr>
    ensures { Reads (λ found. (found.0, found.1.now)) result (setup_at bytes.now) }
{
    let (site, rest) = site_at(bytes).ok_or(DecodeErr::NoValue)?;
    let (engine, rest) = engine_at(rest).ok_or(DecodeErr::NoValue)?;
    let (protocol, rest) = protocol_at(rest).ok_or(DecodeErr::NoValue)?;
    let (items, rest) = writes_at(alloc, rest)?;
    let entry = SiteRecord::Setup {
        site,
        engine,
        protocol,
        items,
    };
    Ok((entry, rest))
}

#[tactic(auto, unfolding(crate::specs::Spelling::start_at))]
fn start_of(bytes: &[u8]) -> Result<(SiteRecord, &[u8]), DecodeErr>
    ensures { Reads (λ found. (found.0, found.1.now)) result (start_at bytes.now) }
{
    let (epoch, rest) = u32_at(bytes).ok_or(DecodeErr::NoValue)?;
    Ok((SiteRecord::Start { epoch }, rest))
}

#[tactic(auto, unfolding(crate::specs::Spelling::prepared_at))]
fn prepared_of(alloc: Global, bytes: &[u8]) -> Result<(SiteRecord, &[u8]), DecodeErr>
    ensures { Reads (λ found. (found.0, found.1.now)) result (prepared_at bytes.now) }
{
    let (tid, rest) = tid_at(bytes).ok_or(DecodeErr::NoValue)?;
    let (epoch, rest) = u32_at(rest).ok_or(DecodeErr::NoValue)?;
    let (number, rest) = u64_at(rest).ok_or(DecodeErr::NoValue)?;
    let (ticket, rest) = u64_at(rest).ok_or(DecodeErr::NoValue)?;
    let (writes, rest) = writes_at(alloc, rest)?;
    let entry = SiteRecord::Prepared {
        tid,
        epoch,
        number,
        ticket,
        writes,
    };
    Ok((entry, rest))
}

#[tactic(auto, unfolding(crate::specs::Spelling::ended_at))]
fn ended_of(bytes: &[u8]) -> Result<(SiteRecord, &[u8]), DecodeErr>
    ensures { Reads (λ found. (found.0, found.1.now)) result (ended_at bytes.now) }
{
    let (tid, rest) = tid_at(bytes).ok_or(DecodeErr::NoValue)?;
    let (decision, rest) = decision_at(rest).ok_or(DecodeErr::NoValue)?;
    Ok((SiteRecord::Ended { tid, decision }, rest))
}

#[tactic(auto, unfolding(crate::specs::Spelling::local_at))]
fn local_of(alloc: Global, bytes: &[u8]) -> Result<(SiteRecord, &[u8]), DecodeErr>
    ensures { Reads (λ found. (found.0, found.1.now)) result (local_at bytes.now) }
{
    let (tid, rest) = tid_at(bytes).ok_or(DecodeErr::NoValue)?;
    let (number, rest) = u64_at(rest).ok_or(DecodeErr::NoValue)?;
    let (writes, rest) = writes_at(alloc, rest)?;
    let entry = SiteRecord::Local {
        tid,
        number,
        writes,
    };
    Ok((entry, rest))
}

#[tactic(auto, unfolding(crate::specs::Spelling::checkpoint_at))]
fn checkpoint_of(alloc: Global, bytes: &[u8]) -> Result<(SiteRecord, &[u8]), DecodeErr>
    ensures { Reads (λ found. (found.0, found.1.now)) result (checkpoint_at bytes.now) }
{
    let (site, rest) = site_at(bytes).ok_or(DecodeErr::NoValue)?;
    let (engine, rest) = engine_at(rest).ok_or(DecodeErr::NoValue)?;
    let (protocol, rest) = protocol_at(rest).ok_or(DecodeErr::NoValue)?;
    let (epoch, rest) = u32_at(rest).ok_or(DecodeErr::NoValue)?;
    let (counter, rest) = u64_at(rest).ok_or(DecodeErr::NoValue)?;
    let (published, rest) = u64_at(rest).ok_or(DecodeErr::NoValue)?;
    let (owner, rest) = maybe_tid_at(rest).ok_or(DecodeErr::NoValue)?;
    let (rows, rest) = writes_at(alloc, rest)?;
    let (locals, rest) = list_at(alloc, rest)?;
    let (doubtful, rest) = list_at(alloc, rest)?;
    let sum = SiteSum {
        site,
        engine,
        protocol,
        epoch,
        counter,
        published,
        owner,
        rows,
        locals,
        doubtful,
    };
    Ok((SiteRecord::Checkpoint(sum), rest))
}

// The record behind a tag, and the bytes behind it.
fn tagged_of(alloc: Global, tag: u8, bytes: &[u8]) -> Result<(SiteRecord, &[u8]), DecodeErr>
    ensures { Reads (λ found. (found.0, found.1.now)) result (tagged_at tag bytes.now) }
{
    match tag {
        1 => setup_of(alloc, bytes),
        2 => start_of(bytes),
        3 => prepared_of(alloc, bytes),
        4 => ended_of(bytes),
        5 => local_of(alloc, bytes),
        6 => checkpoint_of(alloc, bytes),
        _ => Err(DecodeErr::NoValue),
    }
}

// The record that a payload spells, all of it.
#[tactic(auto, unfolding(crate::specs::Spelling::reading))]
fn all_of(alloc: Global, payload: &[u8]) -> Result<SiteRecord, DecodeErr>
    ensures { Reads (λ entry. entry) result (reading payload.now) }
{
    let (tag, rest) = u8_at(payload).ok_or(DecodeErr::NoValue)?;
    let (entry, rest) = tagged_of(alloc, tag, rest)?;
    match rest {
        [] => Ok(entry),
        _ => Err(DecodeErr::NoValue),
    }
}

/// The record that a payload spells, all of it. What is read is spelled so.
pub fn record_of(alloc: Global, payload: &[u8]) -> Result<SiteRecord, DecodeErr>
    ensures read { Reads (λ entry. entry) result (reading payload.now) }
    ensures found { IfOk result (λ entry. IsRecord entry × (payload.now ≡ spelling entry)) }
{
    all_of(alloc, payload)
}
