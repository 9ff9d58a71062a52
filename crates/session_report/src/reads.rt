//! The values that attempts read, in a tree by attempt: each call takes time by the logarithm of their count.
ghost use Rattle.std.specs.Prelude.{◌≡◌, IfOk, OnOk};
ghost use Rattle.std.specs.BTreeMap.{is_at, keys};
ghost use Rattle.std.specs.Map.{lookup};
ghost use Rattle.std.specs.Option.{option_copied};
ghost use Rattle.session_report.specs.Entries.{entries_of};
ghost use Rattle.session_report.specs.Told.{with_begun, with_value};
ghost use Rattle.mdb_base.specs.Names.{tid_cmp};

use mdb_base::{Memory, Tid};
use std::alloc::Global;
use std::collections::BTreeMap;

/// Notes an attempt that has read nothing yet.
pub(crate) fn note_begun(
    alloc: Global,
    reads: &mut BTreeMap<Tid, Vec<u64>>,
    tid: Tid,
) -> Result<(), Memory>
    ensures { OnOk result (entries_of reads.new ≡ with_begun tid (entries_of reads.old)) }
{
    reads.insert(tid, Vec::new(alloc))?;
    Ok(())
}

/// Notes one more value of an attempt that was begun.
pub(crate) fn note_value(
    reads: &mut BTreeMap<Tid, Vec<u64>>,
    tid: Tid,
    value: u64,
) -> Result<(), Memory>
    ensures { OnOk result (entries_of reads.new ≡ with_value tid value (entries_of reads.old)) }
{
    if let Some(values) = reads.get_mut(&tid) {
        values.push(value)?;
    }
    Ok(())
}

/// The values of an attempt, where it was begun.
pub(crate) fn values_of(reads: &BTreeMap<Tid, Vec<u64>>, tid: Tid) -> Option<&[u64]>
    ensures { option_copied result ≡ lookup (is_at (tid_cmp tid)) (entries_of reads.now) }
{
    match reads.get(&tid) {
        Some(values) => Some(values.as_slice()),
        None => None,
    }
}

/// The attempts that were begun, by rising transaction and attempt.
pub(crate) fn begun(alloc: Global, reads: &BTreeMap<Tid, Vec<u64>>) -> Result<Vec<Tid>, Memory>
    ensures { IfOk result (λ tids. tids.items ≡ keys reads.now) }
{
    Ok(reads.keys().copied().collect(alloc)?)
}
