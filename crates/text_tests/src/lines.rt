//! Lines that sessions print are read and printed again, and other texts are refused.
mod lists;

use fed_rules::{Answer, Cause, Command, Place};
use lists::{NO_LINES, OTHERS, WORKED};
use mdb_base::{Edge, SiteId, Tid, Tx};
use presumptions::Decision;
use std::alloc::Global;
use std::process::Abort;
use std::test::Fail;
use trace_lines::{LineErr, print_line, read_line, read_tids};

fn reads_and_prints(rt: &impl Abort, alloc: Global, lines: &str) -> Result<(), Fail> {
    for text in lines.lines() {
        let line = read_line(alloc, text.as_bytes())?;
        let mut printed = Vec::new(alloc);
        print_line(&line, &mut printed)?;
        assert_eq!(rt; printed.as_slice(), text.as_bytes(), "{text}");
    }
    Ok(())
}

#[test]
fn worked_lines_are_read_and_printed_again(rt: HostRuntime) -> Result<(), Fail> {
    assert_eq!(rt; WORKED.lines().count(), 186);
    reads_and_prints(&rt, rt.alloc(), WORKED)
}

#[test]
fn every_answer_is_read_and_printed_again(rt: HostRuntime) -> Result<(), Fail> {
    assert_eq!(rt; OTHERS.lines().count(), 49);
    reads_and_prints(&rt, rt.alloc(), OTHERS)
}

#[test]
fn other_texts_are_no_lines(rt: HostRuntime) {
    assert_eq!(rt; NO_LINES.lines().count(), 84);
    for text in NO_LINES.lines() {
        let read = read_line(rt.alloc(), text.as_bytes());
        assert!(rt; matches!(read, Err(LineErr::NoLine)), "{text}");
    }
    for text in [b" begin 1 => none".as_slice(), b"begin 1 => none\n", &[255]] {
        let read = read_line(rt.alloc(), text);
        assert!(rt; matches!(read, Err(LineErr::NoLine)), "{text:?}");
    }
}

#[test]
fn words_are_read_as_the_parts_of_a_line(rt: HostRuntime) -> Result<(), Fail> {
    let text = b"take 1 5 => decides abort cycle 2.0>1.0@2 1.0>2.0@1 sends 1/7 2/8";
    let line = read_line(rt.alloc(), text)?;
    let one = Tid {
        tx: Tx(1),
        attempt: 0,
    };
    let two = Tid {
        tx: Tx(2),
        attempt: 0,
    };
    let edges = [
        Edge {
            from: two,
            to: one,
            site: SiteId(2),
        },
        Edge {
            from: one,
            to: two,
            site: SiteId(1),
        },
    ];
    let places = [
        Place {
            site: SiteId(1),
            place: 7,
        },
        Place {
            site: SiteId(2),
            place: 8,
        },
    ];
    assert!(rt;
        matches!(
            line.command,
            Command::Take {
                site: SiteId(1),
                place: 5
            }
        )
    );
    assert!(rt; line.sends.as_slice() == places.as_slice());
    let Answer::Decides {
        decision,
        cause: Some(Cause::Cycle(cycle)),
        forgets,
    } = &line.answer
    else {
        return Err("the line decides abort by a cycle".into());
    };
    assert_eq!(rt; *decision, Decision::Abort);
    assert!(rt; !*forgets);
    assert_eq!(rt; cycle.as_slice(), edges.as_slice());
    Ok(())
}

#[test]
fn attempts_are_read_in_their_order(rt: HostRuntime) -> Result<(), Fail> {
    let tids = read_tids(rt.alloc(), b"7.0 1024.31")?;
    let first = Tid {
        tx: Tx(7),
        attempt: 0,
    };
    let last = Tid {
        tx: Tx(1024),
        attempt: 31,
    };
    assert_eq!(rt; tids.as_slice(), [first, last].as_slice());
    Ok(())
}

#[test]
fn other_texts_are_no_attempts(rt: HostRuntime) {
    for text in [
        "", " 1.0", "1.0 ", "1.0  2.0", "1", "0.0", "1025.0", "1.32", "01.0", "1.0 end",
    ] {
        let read = read_tids(rt.alloc(), text.as_bytes());
        assert!(rt; matches!(read, Err(LineErr::NoLine)), "{text}");
    }
}

#[test]
fn a_line_is_printed_behind_what_stands_there(rt: HostRuntime) -> Result<(), Fail> {
    let line = read_line(rt.alloc(), b"back 0 => up known 1")?;
    let mut out = vec![in rt.alloc(); b'x', b'\n']?;
    print_line(&line, &mut out)?;
    assert_eq!(rt; out.as_slice(), b"x\nback 0 => up known 1".as_slice());
    Ok(())
}
