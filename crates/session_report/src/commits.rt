//! How the global attempts ended, and which of them are refused.
ghost use Rattle.std.specs.Prelude.{◌≡◌, Option, IfOk};
ghost use Rattle.std.specs.BTreeSet.{contains};
ghost use Rattle.mdb_base.specs.declared.names.Tid.{Tid as TheTid};
ghost use Rattle.mdb_base.specs.declared.names.Tx.{Tx as TheTx};
ghost use Rattle.session_report.specs.Outcomes.{Gives, decision_by, is_refused, outcomes_by};
ghost use Rattle.mdb_base.specs.Names.{tid_cmp};

use fed_rules::Outcome;
use mdb_base::{Memory, Tid, Tx};
use presumptions::Decision;
use std::alloc::Global;
use std::collections::BTreeSet;

/// How an attempt ended: by commit where it is the one of its transaction that committed.
fn decision<F: Fn(Tx) -> Option<Tid>>(committed: &F, tid: Tid) -> Decision
    requires { F.IsAlwaysCallable committed.now }
    ensures { (by : TheTx → Option TheTid) → Gives by (F.post committed.now) → result ≡ decision_by by tid }
{
    match committed(tid.tx) {
        Some(found) if found == tid => Decision::Commit,
        _ => Decision::Abort,
    }
}

/// How these attempts ended, in their order.
pub(crate) fn outcomes<F: Fn(Tx) -> Option<Tid>>(
    alloc: Global,
    tids: &[Tid],
    committed: &F,
) -> Result<Vec<Outcome>, Memory>
    requires { F.IsAlwaysCallable committed.now }
    ensures { IfOk result (λ outcomes. (by : TheTx → Option TheTid) → Gives by (F.post committed.now) → outcomes.items ≡ outcomes_by by tids.now) }
{
    let mut outcomes = Vec::new(alloc);
    for tid in tids {
        let decision = decision(committed, *tid);
        outcomes.push(Outcome {
            tid: *tid,
            decision,
        })?;
    }
    Ok(outcomes)
}

/// The attempts that ended by abort.
pub(crate) fn refused(alloc: Global, outcomes: &[Outcome]) -> Result<BTreeSet<Tid>, Memory>
    ensures { IfOk result (λ refused. (tid : TheTid) → contains tid_cmp refused tid ≡ is_refused outcomes.now tid) }
{
    let mut refused = BTreeSet::new(alloc);
    for outcome in outcomes {
        if outcome.decision == Decision::Abort {
            refused.insert(outcome.tid)?;
        }
    }
    Ok(refused)
}
