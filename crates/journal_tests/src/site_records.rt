//! The records of a site.
ghost use Rattle.std.specs.Prelude.{◌≡◌, ◌<◌, ◌^◌, length};
ghost use Rattle.site_journal.specs.Spelling.{spelling, InRange};

use byte_numbers::DecodeErr;
use fed_rules::{DoubtfulSum, DoubtfulSums, SiteRecord, SiteSum};
use frame_journal::Format;
use mdb_base::{Engine, Key, Put, Puts, SiteId, Tid, Tids, Tx};
use presumptions::{Decision, Protocol};
use site_journal::SiteFormat;
use std::alloc::Global;
use std::test::Fail;

fn attempt(tx: u32, attempt: u8) -> Tid
    ensures tx { result.tx.0 ≡ tx }
    ensures attempt { result.attempt ≡ attempt }
{
    Tid {
        tx: Tx(tx),
        attempt,
    }
}

fn row(key: u16, value: u64) -> Put {
    Put {
        key: Key(key),
        value,
    }
}

// Whether the record has this payload.
fn spells(alloc: Global, entry: SiteRecord, want: &[u8]) -> bool
    requires in_range { InRange entry }
    requires payload { length (spelling entry) < 2 ^ 16 }
{
    let Ok(mut out) = Vec::with_capacity(alloc, SiteFormat::payload_len(&entry)) else {
        return false;
    };
    SiteFormat::encode(&entry, &mut out);
    out.as_slice() == want
}

#[test]
fn a_set_up_has_these_bytes(rt: HostRuntime) {
    let setup = SiteRecord::Setup {
        site: SiteId(1),
        engine: Engine::Locking,
        protocol: Protocol::Nothing,
        items: Puts::of(Vec::new(rt.alloc())),
    };
    assert!(rt; spells(rt.alloc(), setup, &[1, 1, 1, 1, 0, 0]));
}

#[test]
fn a_start_has_these_bytes(rt: HostRuntime) {
    let start = SiteRecord::Start { epoch: 1 };
    assert!(rt; spells(rt.alloc(), start, &[2, 0, 0, 0, 1]));
}

const PREPARED: [u8; 38] = [
    3, 0, 0, 4, 0, 31, 0, 0, 0, 3, 0, 0, 0, 0, 0, 0, 0, 4, 0, 0, 0, 0, 0, 0, 0, 5, 0, 1, 1, 2, 255,
    255, 255, 255, 255, 255, 255, 255,
];

#[test]
fn a_prepared_has_these_bytes(rt: HostRuntime) -> Result<(), Fail> {
    let writes = vec![in rt.alloc(); row(258, u64::MAX)]?;
    let prepared = SiteRecord::Prepared {
        tid: attempt(1024, 31),
        epoch: 3,
        number: 4,
        ticket: 5,
        writes: Puts::of(writes),
    };
    assert!(rt; spells(rt.alloc(), prepared, &PREPARED));
    Ok(())
}

#[test]
fn an_ended_has_these_bytes(rt: HostRuntime) {
    let ended = SiteRecord::Ended {
        tid: attempt(1, 0),
        decision: Decision::Commit,
    };
    assert!(rt; spells(rt.alloc(), ended, &[4, 0, 0, 0, 1, 0, 1]));
}

const LOCAL: [u8; 26] = [
    5, 0, 0, 0, 1, 0, 0, 0, 0, 0, 0, 0, 0, 2, 0, 1, 0, 5, 0, 0, 0, 0, 0, 0, 0, 7,
];

#[test]
fn a_local_has_these_bytes(rt: HostRuntime) -> Result<(), Fail> {
    let writes = vec![in rt.alloc(); row(5, 7)]?;
    let local = SiteRecord::Local {
        tid: attempt(1, 0),
        number: 2,
        writes: Puts::of(writes),
    };
    assert!(rt; spells(rt.alloc(), local, &LOCAL));
    Ok(())
}

// Site 2 with multiversion timestamps and presumed commit: epoch 3, number 4, ticket 5 of 7.1, 7 at key 5, the locals
// 1.0 and 1.1, and 2.0 in doubt, which writes 9 to key 6.
const CHECKPOINT: [u8; 93] = [
    6, 2, 4, 3, 0, 0, 0, 3, 0, 0, 0, 0, 0, 0, 0, 4, 0, 0, 0, 0, 0, 0, 0, 5, 1, 0, 0, 0, 7, 1, 0, 1,
    0, 5, 0, 0, 0, 0, 0, 0, 0, 7, 0, 2, 0, 0, 0, 1, 0, 0, 0, 0, 1, 1, 0, 1, 0, 0, 0, 2, 0, 0, 0, 0,
    3, 0, 0, 0, 0, 0, 0, 0, 4, 0, 0, 0, 0, 0, 0, 0, 5, 0, 1, 0, 6, 0, 0, 0, 0, 0, 0, 0, 9,
];

#[test]
fn a_checkpoint_has_these_bytes(rt: HostRuntime) -> Result<(), Fail> {
    let alloc = rt.alloc();
    let rows = vec![in alloc; row(5, 7)]?;
    let locals = vec![in alloc; attempt(1, 0), attempt(1, 1)]?;
    let held = DoubtfulSum {
        tid: attempt(2, 0),
        epoch: 3,
        number: 4,
        ticket: 5,
        writes: Puts::of(vec![in alloc; row(6, 9)]?),
    };
    let doubtful = vec![in alloc; held]?;
    let sum = SiteSum {
        site: SiteId(2),
        engine: Engine::Multiversion,
        protocol: Protocol::Commit,
        epoch: 3,
        counter: 4,
        published: 5,
        owner: Some(attempt(7, 1)),
        rows: Puts::of(rows),
        locals: Tids::of(locals),
        doubtful: DoubtfulSums::of(doubtful),
    };
    assert!(rt; spells(alloc, SiteRecord::Checkpoint(sum), &CHECKPOINT));
    Ok(())
}

// Payloads that are no record: a tag, a byte too many, a site, a protocol, an attempt and a decision out of their
// ranges, and two rows of one key.
const NO_RECORDS: [&[u8]; 8] = [
    &[9],
    &[2, 0, 0, 0, 9, 1],
    &[1, 9, 1, 1, 0, 0],
    &[1, 1, 1, 4, 0, 0],
    &[4, 0, 0, 4, 1, 0, 1],
    &[4, 0, 0, 0, 1, 32, 1],
    &[4, 0, 0, 0, 1, 0, 3],
    &[
        1, 1, 1, 1, 0, 2, 0, 5, 0, 0, 0, 0, 0, 0, 0, 7, 0, 5, 0, 0, 0, 0, 0, 0, 0, 7,
    ],
];

// Whether the payload is no record.
fn is_none(alloc: Global, payload: &[u8]) -> bool {
    let read = SiteFormat::decode(alloc, payload);
    let is_none = matches!(read, Err(DecodeErr::NoValue));
    drop(read);
    is_none
}

#[test]
fn other_bytes_are_no_record_of_a_site(rt: HostRuntime) {
    for payload in NO_RECORDS {
        assert!(rt; is_none(rt.alloc(), payload), "{payload:?}");
    }
    assert!(rt; !is_none(rt.alloc(), &CHECKPOINT));
}
