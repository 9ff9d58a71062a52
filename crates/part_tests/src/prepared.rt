//! Who is in doubt.
use crate::names::{ONE, TWO};
use fed_rules::Doubt;
use prepared_state::PreparedBook;
use std::test::Fail;

const EARLY: Doubt = Doubt {
    tid: ONE,
    epoch: 1,
    ticket: 7,
};

const LATE: Doubt = Doubt {
    tid: TWO,
    epoch: 2,
    ticket: 5,
};

#[test]
fn doubts_stand_by_attempt_until_they_are_settled(rt: HostRuntime) -> Result<(), Fail> {
    let mut book = PreparedBook::new(rt.alloc())?;
    book.restore(rt.alloc(), &[LATE])?;
    book.reserve(rt.alloc())?;
    book.add(EARLY);
    assert!(rt; book.len() == 2 && book.at(0).tid == ONE && book.at(1).tid == TWO);
    assert!(rt; book.settle(TWO) && !book.settle(TWO));
    assert!(rt; matches!(book.doubtful(ONE), Some(doubt) if doubt.ticket == 7));
    assert!(rt; book.doubtful(TWO).is_none());
    Ok(())
}
