//! The local transactions in lists by their numbers: how each stands, and how many attempts of it were begun behind the first. A list
//! reaches as far as a number that was put into it; else each call takes the same time however many there are.
ghost use Rattle.std.specs.Prelude.{◌≡◌, ◌<◌, ◌+◌, OnOk, OnErr, IfOk, IsSome, length};
ghost use Rattle.std.specs.FinMap.{empty, get, insert, remove};
ghost use Rattle.site_book.specs.Book.{count_of, counted, uncounted, with_committed};
ghost use Rattle.mdb_base.specs.Names.{tx_cmp};
ghost use Rattle.site_book.specs.Numbered.{by_number};

use crate::progress::Standing;
use mdb_base::{Memory, Tid, Tx};
use std::alloc::Global;

/// What stands at the number of the transaction.
pub(crate) fn find<A: Copy>(items: &[Option<A>], tx: Tx) -> Option<A>
    ensures { result ≡ get {R = tx_cmp} (by_number items.now) tx }
{
    match items.get(tx.0 as usize) {
        Some(item) => *item,
        None => None,
    }
}

/// Makes the list reach to the number of the transaction. What stands in it stays.
fn reach<A: Copy>(items: &mut Vec<Option<A>>, tx: Tx) -> Result<(), Memory>
    ensures reached { OnOk result (tx.0 < length items.new.items) }
    ensures same { by_number items.new.items ≡ by_number items.old.items }
{
    items.reserve((tx.0 as usize + 1).saturating_sub(items.len()))?;
    while items.len() <= tx.0 as usize {
        items.push_reserved(None);
    }
    Ok(())
}

/// Puts this at the number of the transaction.
pub(crate) fn put<A: Copy>(items: &mut Vec<Option<A>>, tx: Tx, item: A) -> Result<(), Memory>
    ensures put { OnOk result (by_number items.new.items ≡ insert (by_number items.old.items) tx item) }
    ensures memory { OnErr result (by_number items.new.items ≡ by_number items.old.items) }
{
    reach(items, tx)?;
    items[tx.0 as usize] = Some(item);
    Ok(())
}

/// Puts this in place of what stands at the number of the transaction.
pub(crate) fn set<A: Copy>(items: &mut Vec<Option<A>>, tx: Tx, item: A)
    requires { IsSome (get {R = tx_cmp} (by_number items.old.items) tx) }
    ensures { by_number items.new.items ≡ insert (by_number items.old.items) tx item }
{
    items[tx.0 as usize] = Some(item);
}

/// Leaves nothing at the number of the transaction.
pub(crate) fn take_out<A: Copy>(items: &mut Vec<Option<A>>, tx: Tx)
    ensures { by_number items.new.items ≡ remove (by_number items.old.items) tx }
{
    if (tx.0 as usize) < items.len() {
        items[tx.0 as usize] = None;
    }
}

/// The transactions of these attempts, which are committed.
pub(crate) fn committed(alloc: Global, committed: &[Tid]) -> Result<Vec<Option<Standing>>, Memory>
    ensures { IfOk result (λ locals. by_number locals.items ≡ with_committed committed.now empty) }
{
    let mut locals = Vec::new(alloc);
    for tid in committed {
        put(&mut locals, tid.tx, Standing::Committed(*tid))?;
    }
    Ok(locals)
}

/// How many attempts of the transaction were begun.
pub(crate) fn begun(again: &[Option<u8>], tx: Tx) -> u32
    ensures { result ≡ count_of (get {R = tx_cmp} (by_number again.now) tx) }
{
    match find(again, tx) {
        Some(n) => u32::from(n) + 1,
        None => 0,
    }
}

/// Counts one further attempt.
pub(crate) fn count(again: &mut Vec<Option<u8>>, tx: Tx) -> Result<(), Memory>
    requires { count_of (get {R = tx_cmp} (by_number again.old.items) tx) < 32 }
    ensures counted { OnOk result (by_number again.new.items ≡ counted tx (by_number again.old.items)) }
    ensures memory { OnErr result (by_number again.new.items ≡ by_number again.old.items) }
{
    match find(again, tx) {
        Some(n) => set(again, tx, n + 1),
        None => put(again, tx, 0)?,
    }
    Ok(())
}

/// Doesn't count the last attempt.
pub(crate) fn uncount(again: &mut Vec<Option<u8>>, tx: Tx)
    ensures { by_number again.new.items ≡ uncounted tx (by_number again.old.items) }
{
    match find(again, tx) {
        Some(0) => take_out(again, tx),
        Some(n) => set(again, tx, n - 1),
        None => {}
    }
}
