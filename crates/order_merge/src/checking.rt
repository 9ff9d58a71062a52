//! Whether an order is a merge of several.
ghost use Rattle.std.specs.Prelude.{◌≡◌, ◌↔◌, IfOk, IsTrue};
ghost use Rattle.mdb_base.specs.Names.{same_tid};
ghost use Rattle.mdb_base.specs.Words.{Each, each_of, some_of, those};
ghost use Rattle.order_laws.specs.Merge.{IsMerge};
ghost use Rattle.order_laws.specs.Orders.{is_in};

use crate::merge::queues_of;
use crate::queue::Queue;
use mdb_base::{Memory, Tid, Tids};
use std::alloc::Global;

/// The members of an order that a queue names, in their order.
fn shared(alloc: Global, queue: &Queue, order: &[Tid]) -> Result<Vec<Tid>, Memory>
    ensures { IfOk result (λ tids. tids.items ≡ those (is_in same_tid queue.now) order.now) }
{
    let mut tids = Vec::new(alloc);
    for tid in order {
        if queue.names(*tid) {
            tids.push(*tid)?;
        }
    }
    Ok(tids)
}

/// Whether both are the same attempts in the same order.
fn are_same(tids: &[Tid], others: &[Tid]) -> bool
    ensures { IsTrue result ↔ (tids.now ≡ others.now) }
{
    tids == others
}

/// Whether the members of a site's order stand in the order as they stand there, each once.
fn keeps(alloc: Global, own: &Tids, order: &[Tid]) -> Result<bool, Memory>
    ensures { IfOk result (λ kept. IsTrue kept ↔ (those (is_in same_tid own.now) order.now ≡ own.now)) }
{
    let queue = Queue::of(alloc, own)?;
    let tids = shared(alloc, &queue, order)?;
    Ok(are_same(tids.as_slice(), own.as_slice()))
}

/// Whether it is so with the order of each site.
fn keeps_each(alloc: Global, orders: &[Tids], order: &[Tid]) -> Result<bool, Memory>
    ensures { IfOk result (λ kept. IsTrue kept ↔ Each (λ ts. those (is_in same_tid ts) order.now ≡ ts) orders.now) }
{
    for own in orders {
        if !keeps(alloc, own, order)? {
            return Ok(false);
        }
    }
    Ok(true)
}

/// Whether some queue names the attempt.
fn is_named(queues: &[Queue], tid: Tid) -> bool
    ensures { result ≡ some_of (λ ts. is_in same_tid ts tid) queues.now }
{
    for queue in queues {
        if queue.names(tid) {
            return true;
        }
    }
    false
}

/// Whether some queue names each member of the order.
fn all_named(queues: &[Queue], order: &[Tid]) -> bool
    ensures { result ≡ each_of (λ t. some_of (λ ts. is_in same_tid ts t) queues.now) order.now }
{
    for tid in order {
        if !is_named(queues, *tid) {
            return false;
        }
    }
    true
}

/// Whether the order names each attempt of the orders of the sites and nothing else, and the members of each of these stand in it in their
/// order, each once.
///
/// With n attempts and k sites it takes about n times k times log n steps; there are at most eight sites.
pub fn is_merge(alloc: Global, orders: &[Tids], order: &[Tid]) -> Result<bool, Memory>
    ensures { IfOk result (λ is. IsTrue is ↔ IsMerge same_tid orders.now order.now) }
{
    if !keeps_each(alloc, orders, order)? {
        return Ok(false);
    }
    let queues = queues_of(alloc, orders)?;
    Ok(all_named(&queues, order))
}
