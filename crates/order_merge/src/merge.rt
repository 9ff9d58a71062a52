//! The least merge of several orders.
ghost use Rattle.std.specs.Prelude.{◌≡◌, IfOk, map, []};
ghost use Rattle.mdb_base.specs.Words.{Each};
ghost use Rattle.mdb_base.specs.Names.{same_tid, tid_before};
ghost use Rattle.order_laws.specs.Chains.{Distinct, Acyclic};
ghost use Rattle.order_laws.specs.Orders.{Union};
ghost use Rattle.order_laws.specs.Merge.{IsLeastOrder};
ghost use Rattle.order_laws.specs.Least.{is_free, without, IsFree};
ghost use Rattle.order_merge.specs.Next as next;
ghost use Rattle.order_merge.specs.Next.{IsNext};

use crate::queue::Queue;
use mdb_base::{Memory, Tid, Tids};
use std::alloc::Global;

/// One order of all attempts in the orders of the sites: at each place stands the least attempt all of whose predecessors,
/// at every site, stand before it. `all` names them, and makes room for the result.
///
/// With n attempts and k sites it takes about n times k times (k + log n) steps; there are at most eight sites.
pub fn merge_orders(alloc: Global, orders: &[Tids], all: &Tids) -> Result<Tids, Memory>
    requires { Acyclic (Union orders.now) }
    ensures { IfOk result (λ o. IsLeastOrder tid_before orders.now [] o) }
{
    let mut queues = queues_of(alloc, orders)?;
    let mut merged = Vec::with_capacity(alloc, all.len())?;
    while let Some(tid) = next_free(&queues) {
        merged.push(tid)?;
        take_out(&mut queues, tid);
    }
    Ok(Tids::of(merged))
}

/// All of the orders.
pub(crate) fn queues_of(alloc: Global, orders: &[Tids]) -> Result<Vec<Queue>, Memory>
    ensures { IfOk result (λ queues. queues.items ≡ orders.now) }
{
    let mut queues = Vec::with_capacity(alloc, orders.len())?;
    for order in orders {
        queues.push(Queue::of(alloc, order)?)?;
    }
    Ok(queues)
}

/// The least attempt that stands behind no other one.
fn next_free(queues: &[Queue]) -> Option<Tid>
    requires { Each Distinct queues.now }
    ensures { IsNext queues.now result }
{
    let mut least: Option<Tid> = None;
    for queue in queues {
        if let Some(tid) = queue.first() {
            if is_earlier(tid, least) && is_free(queues, tid) {
                least = Some(tid);
            }
        }
    }
    least
}

/// Whether the attempt is before the other one, where there is one.
fn is_earlier(tid: Tid, other: Option<Tid>) -> bool
    ensures { result ≡ next.is_earlier tid other }
{
    match other {
        Some(other) => tid < other,
        None => true,
    }
}

/// Whether no queue has the attempt behind its first one.
fn is_free(queues: &[Queue], tid: Tid) -> bool
    requires { Each Distinct queues.now }
    ensures { result ≡ is_free same_tid queues.now tid }
{
    for queue in queues {
        if queue.has_behind(tid) {
            return false;
        }
    }
    true
}

/// Takes a free attempt out of the queues that begin with it.
fn take_out(queues: &mut [Queue], tid: Tid)
    requires distinct { Each Distinct queues.old }
    requires free { IsFree queues.old tid }
    ensures { queues.new ≡ map (without same_tid tid) queues.old }
{
    for queue in queues.iter_mut() {
        queue.take_out(tid);
    }
}
