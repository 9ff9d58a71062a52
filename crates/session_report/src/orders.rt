//! The orders of the sites: the committed attempts by serial number.
ghost use Rattle.std.specs.Prelude.{◌≡◌, IfOk, map};
ghost use Rattle.std.specs.BTreeSet.{contains};
ghost use Rattle.session_report.specs.Ranks.{order_told, orders_told, rising_marks, unrefused};
ghost use Rattle.mdb_base.specs.Names.{tid_cmp};

use crate::marks::{Mark, Marks};
use mdb_base::{Memory, Tid, Tids};
use std::alloc::Global;
use std::collections::BTreeSet;

/// Whether the attempt is refused.
fn is_refused(refused: &BTreeSet<Tid>, tid: Tid) -> bool
    ensures { result ≡ contains tid_cmp refused.now tid }
{
    refused.contains(&tid)
}

/// The marks of attempts that aren't refused, in their order.
fn unrefused(alloc: Global, marks: &[Mark], refused: &BTreeSet<Tid>) -> Result<Vec<Mark>, Memory>
    ensures { IfOk result (λ kept. kept.items ≡ unrefused (contains tid_cmp refused.now) marks.now) }
{
    let mut kept = Vec::new(alloc);
    for mark in marks {
        if !is_refused(refused, mark.tid) {
            kept.push(*mark)?;
        }
    }
    Ok(kept)
}

/// These marks by rising serial number.
fn by_number(mut marks: Vec<Mark>) -> Result<Vec<Mark>, Memory>
    ensures { IfOk result (λ sorted. sorted.items ≡ rising_marks marks.items) }
{
    marks.sort_by_key(|mark| mark.number)?;
    Ok(marks)
}

/// The attempts of these marks, in their order.
fn attempts(alloc: Global, marks: &[Mark]) -> Result<Vec<Tid>, Memory>
    ensures { IfOk result (λ tids. tids.items ≡ map (λ mark. mark.tid) marks.now) }
{
    Ok(marks.iter().map(|mark| mark.tid).collect(alloc)?)
}

/// The order of the site with these marks.
fn site_order(alloc: Global, marks: &[Mark], refused: &BTreeSet<Tid>) -> Result<Tids, Memory>
    ensures { IfOk result (λ order. order ≡ order_told (contains tid_cmp refused.now) marks.now) }
{
    let kept = unrefused(alloc, marks, refused)?;
    let sorted = by_number(kept)?;
    let tids = attempts(alloc, sorted.as_slice())?;
    Ok(Tids::of(tids))
}

/// The orders of the sites with these marks.
pub(crate) fn site_orders(
    alloc: Global,
    marks: &[Marks],
    refused: &BTreeSet<Tid>,
) -> Result<Vec<Tids>, Memory>
    ensures { IfOk result (λ orders. orders.items ≡ orders_told (contains tid_cmp refused.now) marks.now) }
{
    let mut orders = Vec::new(alloc);
    for one in marks {
        let order = site_order(alloc, one.kept.as_slice(), refused)?;
        orders.push(order)?;
    }
    Ok(orders)
}
