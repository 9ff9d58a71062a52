//! The ticket of a site.
use crate::names::{ONE, TWO};
use std::test::Fail;
use ticket_item::TicketItem;

#[test]
fn the_ticket_is_published_once_it_is_sealed(rt: HostRuntime) -> Result<(), Fail> {
    let mut item = TicketItem::new(rt.alloc(), 6, None)?;
    item.reserve(rt.alloc())?;
    let first = item.hold(ONE);
    item.reserve(rt.alloc())?;
    let second = item.hold(TWO);
    assert!(rt; (first, second, item.peek()) == (7, 7, 6));
    item.publish(ONE, 7);
    assert!(rt; item.peek() == 7 && item.owner() == Some(ONE));
    item.withdraw(ONE, 6, None);
    assert!(rt; item.peek() == 6 && item.owner().is_none());
    Ok(())
}
