//! The coordinator's table of the known attempts.
ghost use Rattle.std.specs.Prelude.{◌≡◌, IfOk};
ghost use Rattle.protocol_table.specs.Attempts.{IsUndecided};

use crate::names::{ONE, OTHER_SITE, SITE};
use mdb_base::{Memory, SiteId};
use presumptions::{Decision, Participant, Participants, Protocol};
use protocol_table::{AckEnd, ProtocolTable, Said, VoteEnd};
use std::alloc::Global;
use std::test::Fail;

const THIRD_SITE: SiteId = SiteId(3);

const MEMBERS: [Participant; 3] = [
    Participant {
        site: SITE,
        protocol: Protocol::Nothing,
    },
    Participant {
        site: OTHER_SITE,
        protocol: Protocol::Abort,
    },
    Participant {
        site: THIRD_SITE,
        protocol: Protocol::Commit,
    },
];

// A table in which an attempt at a site of each protocol was initiated.
fn initiated(alloc: Global) -> Result<ProtocolTable, Memory>
    ensures { IfOk result (IsUndecided ONE) }
{
    let [first, second, third] = MEMBERS;
    let participants = Participants::of(vec![in alloc; first, second, third]?);
    let mut table = ProtocolTable::new(alloc)?;
    table.submit(alloc, ONE, &participants)?;
    table.initiate(ONE);
    Ok(table)
}

#[test]
fn the_last_vote_is_told(rt: HostRuntime) -> Result<(), Fail> {
    let mut table = initiated(rt.alloc())?;
    for (site, end) in [
        (OTHER_SITE, VoteEnd::More),
        (OTHER_SITE, VoteEnd::Ignored),
        (SITE, VoteEnd::More),
        (SiteId(4), VoteEnd::Ignored),
        (THIRD_SITE, VoteEnd::All),
    ] {
        assert!(rt; table.vote(ONE, site, 7) == end);
    }
    assert!(rt; table.answer(ONE, Protocol::Commit) == Said::Undecided);
    Ok(())
}

#[test]
fn a_commit_waits_for_presumed_nothing_and_presumed_abort(rt: HostRuntime) -> Result<(), Fail> {
    let mut table = initiated(rt.alloc())?;
    assert!(rt; !table.decide(ONE, Decision::Commit));
    assert!(rt; table.answer(ONE, Protocol::Abort) == Said::Known(Decision::Commit));
    for (site, end) in [
        (THIRD_SITE, AckEnd::Ignored),
        (SITE, AckEnd::Acked),
        (SITE, AckEnd::Ignored),
        (OTHER_SITE, AckEnd::Forgets),
    ] {
        assert!(rt; table.ack(ONE, site) == end);
    }
    assert!(rt; table.answer(ONE, Protocol::Commit) == Said::Presumed(Decision::Commit));
    assert!(rt; table.answer(ONE, Protocol::Nothing) == Said::Presumed(Decision::Abort));
    Ok(())
}
