//! Reports of worked sessions.
ghost use Rattle.std.specs.Prelude.{◌≡◌, ◌<◌};

use mdb_base::{Key, ListOf, Put, Puts, SiteId, SiteRows, Tid, Tids, Tx, Values};
use presumptions::Decision;
use report_text::{AllReads, AllRows, Outcome, Outcomes, Report, TxReads, print_report};
use std::alloc::{AllocError, Global};
use std::process::Abort;
use std::test::Fail;

fn tid(tx: u32, attempt: u8) -> Tid {
    Tid {
        tx: Tx(tx),
        attempt,
    }
}

fn reads(alloc: Global, tx: u32, values: &[u64]) -> Result<TxReads, AllocError> {
    Ok(TxReads {
        tid: tid(tx, 0),
        values: Values::of(values.to_vec(alloc)?),
    })
}

fn two_rows(alloc: Global, first: Put, second: Put) -> Result<Puts, AllocError>
    requires { first.key.0 < second.key.0 }
{
    Ok(Puts::of([first, second].to_vec(alloc)?))
}

fn put(key: u16, value: u64) -> Put
    ensures { result.key.0 ≡ key }
{
    Put {
        key: Key(key),
        value,
    }
}

fn prints(rt: &impl Abort, alloc: Global, report: &Report, text: &str) -> Result<(), Fail> {
    let mut out = vec![in alloc; b'x']?;
    print_report(alloc, report, &mut out)?;
    assert_eq!(rt; out.len(), text.len() + 1);
    assert_eq!(rt; &out.as_slice()[1..], text.as_bytes());
    Ok(())
}

#[test]
fn an_empty_session_has_three_lines(rt: HostRuntime) -> Result<(), Fail> {
    let report = Report {
        order: Tids::of(Vec::new(rt.alloc())),
        reads: ListOf::of(Vec::new(rt.alloc())),
        outcomes: ListOf::of(Vec::new(rt.alloc())),
        forgotten: Tids::of(Vec::new(rt.alloc())),
        tables: ListOf::of(Vec::new(rt.alloc())),
    };
    prints(&rt, rt.alloc(), &report, "order\nforgotten\nend\n")
}

#[test]
fn the_parts_of_a_report_stand_in_their_order(rt: HostRuntime) -> Result<(), Fail> {
    let alloc = rt.alloc();
    let outcomes = [
        Outcome {
            tid: tid(1, 0),
            decision: Decision::Commit,
        },
        Outcome {
            tid: tid(2, 0),
            decision: Decision::Abort,
        },
    ];
    let tables = vec![in alloc;
        SiteRows {
            site: SiteId(1),
            rows: two_rows(alloc, put(1, 7), put(3, 8))?,
        },
        SiteRows {
            site: SiteId(2),
            rows: two_rows(alloc, put(2, 9), put(4, 6))?,
        },
    ]?;
    let report = Report {
        order: Tids::of([tid(4, 0), tid(1, 0), tid(3, 0)].to_vec(alloc)?),
        reads: ListOf::of(vec![in alloc;
            reads(alloc, 4, &[])?,
            reads(alloc, 1, &[0, 6])?,
            reads(alloc, 3, &[])?,
        ]?),
        outcomes: ListOf::of(outcomes.to_vec(alloc)?),
        forgotten: Tids::of([tid(1, 0), tid(2, 0)].to_vec(alloc)?),
        tables: ListOf::of(tables),
    };
    let text = "order 4.0 1.0 3.0\n\
        reads 4.0\n\
        reads 1.0 0 6\n\
        reads 3.0\n\
        outcome 1.0 commit\n\
        outcome 2.0 abort\n\
        forgotten 1.0 2.0\n\
        table 1 1=7 3=8\n\
        table 2 2=9 4=6\n\
        end\n";
    prints(&rt, alloc, &report, text)
}

#[test]
fn the_greatest_numbers_are_printed_whole(rt: HostRuntime) -> Result<(), Fail> {
    let alloc = rt.alloc();
    let rows = two_rows(alloc, put(0, u64::MAX), put(65_535, 0))?;
    let report = Report {
        order: Tids::of([tid(1024, 31)].to_vec(alloc)?),
        reads: ListOf::of(vec![in alloc; reads(alloc, 1024, &[u64::MAX])?]?),
        outcomes: ListOf::of(Vec::new(alloc)),
        forgotten: Tids::of(Vec::new(alloc)),
        tables: ListOf::of(vec![in alloc;
            SiteRows {
                site: SiteId(8),
                rows
            },
        ]?),
    };
    let text = "order 1024.31\n\
        reads 1024.0 18446744073709551615\n\
        forgotten\n\
        table 8 0=18446744073709551615 65535=0\n\
        end\n";
    prints(&rt, alloc, &report, text)
}
