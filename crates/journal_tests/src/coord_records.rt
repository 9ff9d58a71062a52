//! The records of the coordinator.
ghost use Rattle.std.specs.Prelude.{◌≡◌, ◌<◌, ◌^◌, length};
ghost use Rattle.coord_journal.specs.Spelling.{spelling, InRange};

use byte_numbers::DecodeErr;
use coord_journal::CoordFormat;
use fed_rules::{
    CommittedAttempt, CommittedAttempts, CoordRecord, CoordSum, OpenAttempt, OpenAttempts,
};
use frame_journal::Format;
use mdb_base::{SiteId, SiteTicket, Tickets, Tid, Tx};
use presumptions::{Participant, Participants, Protocol};
use std::alloc::Global;
use std::test::Fail;

const FIRST: Tid = Tid {
    tx: Tx(1),
    attempt: 0,
};

const FIRST_AGAIN: Tid = Tid {
    tx: Tx(1),
    attempt: 1,
};

const SECOND: Tid = Tid {
    tx: Tx(2),
    attempt: 0,
};

fn participant(site: u8, protocol: Protocol) -> Participant
    ensures { result.site.0 ≡ site }
{
    Participant {
        site: SiteId(site),
        protocol,
    }
}

fn ticket(site: u8, ticket: u64) -> SiteTicket
    ensures { result.site.0 ≡ site }
{
    SiteTicket {
        site: SiteId(site),
        ticket,
    }
}

// Whether the record has this payload.
fn spells(alloc: Global, entry: CoordRecord, want: &[u8]) -> bool
    requires in_range { InRange entry }
    requires payload { length (spelling entry) < 2 ^ 16 }
{
    let Ok(mut out) = Vec::with_capacity(alloc, CoordFormat::payload_len(&entry)) else {
        return false;
    };
    CoordFormat::encode(&entry, &mut out);
    out.as_slice() == want
}

#[test]
fn an_initiation_has_these_bytes(rt: HostRuntime) -> Result<(), Fail> {
    let sites = vec![in rt.alloc();
        participant(1, Protocol::Nothing),
        participant(2, Protocol::Abort),
        participant(3, Protocol::Commit),
    ]?;
    let initiation = CoordRecord::Initiation {
        tid: FIRST,
        participants: Participants::of(sites),
    };
    assert!(rt;
        spells(
            rt.alloc(),
            initiation,
            &[1, 0, 0, 0, 1, 0, 3, 1, 1, 2, 2, 3, 3]
        )
    );
    Ok(())
}

const COMMIT: [u8; 34] = [
    2, 0, 0, 0, 1, 0, 3, 1, 0, 0, 0, 0, 0, 0, 0, 1, 2, 0, 0, 0, 0, 0, 0, 0, 1, 3, 0, 0, 0, 0, 0, 0,
    0, 1,
];

#[test]
fn a_commit_has_these_bytes(rt: HostRuntime) -> Result<(), Fail> {
    let tickets = vec![in rt.alloc(); ticket(1, 1), ticket(2, 1), ticket(3, 1)]?;
    let commit = CoordRecord::Commit {
        tid: FIRST,
        tickets: Tickets::of(tickets),
    };
    assert!(rt; spells(rt.alloc(), commit, &COMMIT));
    Ok(())
}

#[test]
fn an_end_has_these_bytes(rt: HostRuntime) {
    assert!(rt;
        spells(
            rt.alloc(),
            CoordRecord::End { tid: FIRST },
            &[3, 0, 0, 0, 1, 0]
        )
    );
}

#[test]
fn an_abort_has_these_bytes(rt: HostRuntime) -> Result<(), Fail> {
    let sites = vec![in rt.alloc();
        participant(1, Protocol::Nothing),
        participant(2, Protocol::Nothing),
    ]?;
    let abort = CoordRecord::Abort {
        tid: FIRST,
        participants: Participants::of(sites),
    };
    assert!(rt; spells(rt.alloc(), abort, &[4, 0, 0, 0, 1, 0, 2, 1, 1, 2, 1]));
    Ok(())
}

// 1.0 is open at site 3, which presumes nothing, and 1.1 without a participant; 2.0 is committed with ticket 4 of
// site 1 and 5 of site 2.
const CHECKPOINT: [u8; 43] = [
    5, 0, 2, 0, 0, 0, 1, 0, 1, 3, 1, 0, 0, 0, 1, 1, 0, 0, 1, 0, 0, 0, 2, 0, 2, 1, 0, 0, 0, 0, 0, 0,
    0, 4, 2, 0, 0, 0, 0, 0, 0, 0, 5,
];

#[test]
fn a_checkpoint_has_these_bytes(rt: HostRuntime) -> Result<(), Fail> {
    let alloc = rt.alloc();
    let sites = vec![in alloc; participant(3, Protocol::Nothing)]?;
    let first = OpenAttempt {
        tid: FIRST,
        participants: Participants::of(sites),
    };
    let second = OpenAttempt {
        tid: FIRST_AGAIN,
        participants: Participants::of(Vec::new(alloc)),
    };
    let open = vec![in alloc; first, second]?;
    let decided = CommittedAttempt {
        tid: SECOND,
        tickets: Tickets::of(vec![in alloc; ticket(1, 4), ticket(2, 5)]?),
    };
    let committed = vec![in alloc; decided]?;
    let sum = CoordSum {
        open_attempts: OpenAttempts::of(open),
        committed: CommittedAttempts::of(committed),
    };
    assert!(rt; spells(alloc, CoordRecord::Checkpoint(sum), &CHECKPOINT));
    Ok(())
}

// Payloads that are no record: sites that fall, open attempts that fall, one that stands twice, committed ones that
// fall, a byte too many, and one too few.
const NO_RECORDS: [&[u8]; 6] = [
    &[1, 0, 0, 0, 1, 0, 2, 2, 1, 1, 1],
    &[5, 0, 2, 0, 0, 0, 1, 1, 0, 0, 0, 0, 1, 0, 0, 0, 0],
    &[5, 0, 2, 0, 0, 0, 1, 1, 0, 0, 0, 0, 1, 1, 0, 0, 0],
    &[5, 0, 0, 0, 2, 0, 0, 0, 2, 0, 0, 0, 0, 0, 1, 0, 0],
    &[5, 0, 0, 0, 0, 0],
    &[5, 0, 0, 0],
];

// Whether the payload is no record.
fn is_none(alloc: Global, payload: &[u8]) -> bool {
    let read = CoordFormat::decode(alloc, payload);
    let is_none = matches!(read, Err(DecodeErr::NoValue));
    drop(read);
    is_none
}

#[test]
fn other_bytes_are_no_record_of_the_coordinator(rt: HostRuntime) {
    for payload in NO_RECORDS {
        assert!(rt; is_none(rt.alloc(), payload), "{payload:?}");
    }
    assert!(rt; !is_none(rt.alloc(), &CHECKPOINT));
}
