//! The undecided attempts of the coordinator.
use crate::names::{KEY, ONE, OTHER_SITE, SITE, TWO};
use global_exec::{Always, DidEnd, Due, GlobalExec, SiteSet, TakePolicy};
use mdb_base::{Act, PlainAct, Program, Reply, Step};
use std::alloc::Global;
use std::test::Fail;

// Reads at one site, and writes what was read and three more at the other.
const STEPS: [Step; 2] = [
    Step {
        site: OTHER_SITE,
        act: Act::Get(KEY),
    },
    Step {
        site: SITE,
        act: Act::Add {
            key: KEY,
            register: 0,
            amount: 3,
        },
    },
];

fn submitted(alloc: Global) -> Result<GlobalExec, Fail> {
    let program = Program::new(alloc, &STEPS)?;
    let mut exec = GlobalExec::new(alloc)?;
    exec.submit(alloc, ONE, program)?;
    Ok(exec)
}

// The read is answered by 7.
const READ: Reply = Reply::Value(7);

// Whether the other step is due at its site, and the ticket of the first one's site, which is in its fourth epoch.
fn are_due(dues: &[Due]) -> bool {
    match dues {
        [
            Due::Work {
                site: SITE,
                epoch: 0,
                n: 0,
                act: PlainAct::Write(KEY, 10),
            },
            Due::Take {
                site: OTHER_SITE,
                epoch: 4,
                n: 1,
            },
        ] => true,
        _ => false,
    }
}

#[test]
fn an_answer_makes_the_next_step_and_the_ticket_due(rt: HostRuntime) -> Result<(), Fail> {
    let alloc = rt.alloc();
    let mut exec = submitted(alloc)?;
    assert!(rt; !exec.counts(ONE, OTHER_SITE, 4, 1, READ));
    assert!(rt; !exec.counts(ONE, SITE, 4, 0, READ));
    assert!(rt; !exec.counts(TWO, OTHER_SITE, 4, 0, READ));
    let DidEnd::Next(dues) = exec.did(alloc, ONE, OTHER_SITE, 4, 0, READ)? else {
        return Err(Fail::from("it counts"));
    };
    assert!(rt; are_due(dues.as_slice()));
    assert!(rt; exec.reads(ONE) == [7].as_slice());
    exec.clear();
    assert!(rt; exec.running(ONE.tx).is_none());
    Ok(())
}

#[test]
fn tickets_may_always_be_taken(rt: HostRuntime) {
    assert!(rt; Always.may_take(SiteSet(3), &[SiteSet(1), SiteSet(2)]));
}
