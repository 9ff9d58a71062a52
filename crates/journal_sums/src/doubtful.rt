//! The subtransactions in doubt, in a tree by attempt.
ghost use Rattle.std.specs.Prelude.{◌≡◌, IfOk, OnOk, None, Some, cond};
ghost use Rattle.std.specs.BTreeMap.{IsOrdered, get, values};
ghost use Rattle.mdb_base.specs.declared.names.Tid.{Tid};
ghost use Rattle.mdb_base.specs.Names.{same_tid, tid_cmp};
ghost use Rattle.fed_rules.specs.SiteRecords.{doubt_of};
ghost use Rattle.fed_rules.specs.SiteSums.{carried};

use crate::copies::copy_held;
use fed_rules::{DoubtfulSum, DoubtfulSums};
use mdb_base::{Memory, Tid};
use std::alloc::Global;
use std::collections::BTreeMap;

/// Those that a Checkpoint has in doubt: of several of one attempt the first one.
pub(crate) fn first_doubtful(
    alloc: Global,
    doubtful: &DoubtfulSums,
) -> Result<BTreeMap<Tid, DoubtfulSum>, Memory>
    ensures { IfOk result (λ found. (tid : Tid) → get tid_cmp found tid ≡ doubt_of (carried doubtful.now) tid) }
{
    let mut found = BTreeMap::new(alloc);
    let mut left = doubtful.len();
    while left > 0 {
        left -= 1;
        put(&mut found, copy_held(alloc, doubtful.at(left))?)?;
    }
    Ok(found)
}

/// It is in doubt from now on, in place of an older one of its attempt.
pub(crate) fn put(
    doubtful: &mut BTreeMap<Tid, DoubtfulSum>,
    held: DoubtfulSum,
) -> Result<(), Memory>
    ensures { OnOk result ((tid : Tid) → get tid_cmp doubtful.new tid ≡ cond (same_tid held.tid tid) (Some held) (get tid_cmp doubtful.old tid)) }
{
    doubtful.insert(held.tid, held)?;
    Ok(())
}

/// It is settled: the one of this attempt, if it was in doubt.
pub(crate) fn settle(doubtful: &mut BTreeMap<Tid, DoubtfulSum>, tid: Tid) -> Option<DoubtfulSum>
    ensures held { result ≡ get tid_cmp doubtful.old tid }
    ensures gone { (other : Tid) → get tid_cmp doubtful.new other ≡ cond (same_tid tid other) None (get tid_cmp doubtful.old other) }
{
    doubtful.remove(&tid)
}

/// All of them by rising attempt.
pub(crate) fn by_attempt(
    alloc: Global,
    doubtful: BTreeMap<Tid, DoubtfulSum>,
) -> Result<DoubtfulSums, Memory>
    ensures values { IfOk result (λ list. list ≡ values doubtful) }
    ensures ordered { IfOk result (λ list. IsOrdered tid_cmp doubtful) }
{
    let mut list = Vec::with_capacity(alloc, doubtful.len())?;
    for (_, held) in doubtful {
        list.push(held)?;
    }
    Ok(DoubtfulSums::of(list))
}
