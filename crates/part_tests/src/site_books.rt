//! A site's book of its runs.
use crate::names::{KEY, ONE, TWO};
use mdb_base::{Memory, PlainAct, Reply, Tid, Why};
use site_book::SiteBook;
use std::alloc::Global;
use std::test::Fail;

// Begins an attempt of a local transaction, where it may begin.
fn begins(book: &mut SiteBook, alloc: Global, tid: Tid) -> Result<bool, Memory> {
    let is_free = !book.has_entry(tid) && book.running(tid.tx).is_none();
    if is_free && book.committed(tid.tx).is_none() && book.begun(tid.tx) < 32 {
        book.begin_local(alloc, tid)?;
        return Ok(true);
    }
    Ok(false)
}

// Notes the reply to a read, where the attempt may have one.
fn notes(book: &mut SiteBook, tid: Tid, reply: Reply) -> bool {
    if book.takes_access(tid) {
        book.note_reply(tid, PlainAct::Read(KEY), reply);
        return true;
    }
    false
}

#[test]
fn an_attempt_reads_waits_and_dies(rt: HostRuntime) -> Result<(), Fail> {
    let mut book = SiteBook::new(rt.alloc());
    assert!(rt; begins(&mut book, rt.alloc(), ONE)? && !begins(&mut book, rt.alloc(), ONE)?);
    assert!(rt; notes(&mut book, ONE, Reply::Wait { by: TWO }));
    assert!(rt; notes(&mut book, ONE, Reply::Value(7)));
    assert!(rt;
        matches!(book.live(ONE), Some(run) if run.done() == 1 && run.reads() == [7].as_slice())
    );
    assert!(rt; notes(&mut book, ONE, Reply::Refused(Why::Die { by: TWO })));
    assert!(rt; book.is_closed(ONE) && book.running(ONE.tx).is_none() && book.begun(ONE.tx) == 1);
    book.restart(rt.alloc(), &[ONE], &[TWO])?;
    assert!(rt; book.committed(ONE.tx) == Some(ONE) && book.is_sealed(TWO));
    Ok(())
}
