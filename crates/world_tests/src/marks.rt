//! The marks of a site's records, line by line.
use fed_rules::{DoubtfulSums, SiteRecord, SiteSum};
use mdb_base::{Engine, Puts, SiteId, Tid, Tids, Tx};
use presumptions::Protocol;
use session_report::{Mark, Marks};
use std::alloc::Global;
use std::test::Fail;

const fn tid(tx: u32, attempt: u8) -> Tid {
    Tid {
        tx: Tx(tx),
        attempt,
    }
}

const fn mark(tx: u32, number: u64) -> Mark {
    Mark {
        tid: tid(tx, 0),
        number,
    }
}

fn local(alloc: Global, tx: u32, number: u64) -> SiteRecord {
    SiteRecord::Local {
        tid: tid(tx, 0),
        number,
        writes: Puts::of(Vec::new(alloc)),
    }
}

fn sum(alloc: Global) -> SiteSum {
    SiteSum {
        site: SiteId(1),
        engine: Engine::Locking,
        protocol: Protocol::Nothing,
        epoch: 1,
        counter: 2,
        published: 0,
        owner: None,
        rows: Puts::of(Vec::new(alloc)),
        locals: Tids::of(Vec::new(alloc)),
        doubtful: DoubtfulSums::of(Vec::new(alloc)),
    }
}

/// A start, a local commit, a Checkpoint that trims both, and a further commit: two marks.
#[test]
fn a_checkpoint_leaves_the_marks(rt: HostRuntime) -> Result<(), Fail> {
    let alloc = rt.alloc();
    let mut marks = Marks::new(alloc, SiteId(1));
    let start = SiteRecord::Start { epoch: 1 };
    let first = vec![in alloc; start, local(alloc, 1, 2)]?;
    marks.reserve()?;
    marks.note_line(1, first.as_slice());
    marks.reserve()?;
    marks.note_line(2, first.as_slice());
    let summed = vec![in alloc; SiteRecord::Checkpoint(sum(alloc))]?;
    marks.reserve()?;
    marks.note_line(2, summed.as_slice());
    let second = vec![in alloc; SiteRecord::Checkpoint(sum(alloc)), local(alloc, 2, 3)]?;
    marks.reserve()?;
    marks.note_line(1, second.as_slice());
    assert_eq!(rt; marks.kept.as_slice(), [mark(1, 2), mark(2, 3)].as_slice());
    Ok(())
}
