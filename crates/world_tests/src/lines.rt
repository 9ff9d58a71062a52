//! The lines that a host is to leave.
use crate::commands::is_same_line;
use fed_rules::{Line, Stamped};
use std::process::Abort;
use std::test::Fail;
use trace_lines::read_line;

// Whether a host's line has this stamp and is this one.
fn is_line(made: &Stamped, stamp: &str, line: &Line) -> bool {
    stamp.parse::<u64>() == Ok(made.stamp) && is_same_line(&made.line, line)
}

// A host's line is the one of the text, which begins with its stamp.
fn is_left(rt: &(impl Abort + AllocGlobal), made: &Stamped, text: &str) -> Result<(), Fail> {
    let Some((stamp, spelled)) = text.split_once(' ') else {
        return Err(Fail::from("a line has no stamp"));
    };
    let line = read_line(rt.alloc(), spelled.as_bytes())?;
    assert!(rt; is_line(made, stamp, &line), "{text}");
    Ok(())
}

/// A host's lines are those of the text.
pub(super) fn are_left(
    rt: &(impl Abort + AllocGlobal),
    lines: &[Stamped],
    text: &str,
) -> Result<(), Fail> {
    let mut made = lines;
    for text in text.lines() {
        let [first, rest @ ..] = made else {
            return Err(Fail::from("a line is missing"));
        };
        made = rest;
        is_left(rt, first, text)?;
    }
    assert!(rt; made.is_empty());
    Ok(())
}
