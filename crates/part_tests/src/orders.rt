//! Merges of the orders of sites.
use crate::names::{ONE, THREE, TWO};
use mdb_base::{Memory, Tid, Tids};
use order_merge::is_merge;
use std::alloc::Global;
use std::test::Fail;

// One before two at one site, and three before one at another.
fn orders(alloc: Global) -> Result<Vec<Tids>, Memory> {
    let first = Tids::of(vec![in alloc; ONE, TWO]?);
    let second = Tids::of(vec![in alloc; THREE, ONE]?);
    Ok(vec![in alloc; first, second]?)
}

#[test]
fn a_merge_names_each_member_once_in_its_order_and_nothing_else(
    rt: HostRuntime,
) -> Result<(), Fail> {
    let orders = orders(rt.alloc())?;
    for (order, merges) in [
        ([THREE, ONE, TWO].as_slice(), true),
        ([ONE, TWO, THREE].as_slice(), false),
        ([THREE, ONE].as_slice(), false),
        ([THREE, ONE, ONE, TWO].as_slice(), false),
    ] {
        assert!(rt;
            is_merge(rt.alloc(), orders.as_slice(), order)? == merges,
            "{order:?}"
        );
    }
    Ok(())
}
