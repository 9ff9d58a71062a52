//! A session's input cut after each of its bytes, and with each of them replaced by one that no line may have.
use super::serial_order::is_serial;
use super::sessions::TRANSFER;
use super::{first_lines, lines_in, replayed};
use std::alloc::Global;
use std::process::Abort;
use std::sync::Wait;
use std::test::Fail;
use std::thread::Threads;

/// Whether this is put of a front of the session: the lines of its commands, and then a whole report, whose order gives it.
fn is_session(alloc: Global, front: &str, put: &[u8]) -> Result<bool, Fail> {
    let (input, output) = TRANSFER;
    let Some((scenario, _)) = input.split_once("commands\n") else {
        return Err(Fail::from("the session has commands"));
    };
    let Ok(text) = str::from_utf8(put) else {
        return Ok(false);
    };
    let before = lines_in(scenario.as_bytes()).saturating_add(1);
    let commands = lines_in(front.as_bytes()).saturating_sub(before);
    let lines = first_lines(alloc, output, commands)?;
    Ok(
        text.starts_with(lines.as_str())
            && text.ends_with("\nend\n")
            && is_serial(alloc, front, text)?,
    )
}

/// An input that is empty or whose last line has its line feed is a session; of another one the last line is named, and nothing else is put.
/// Says whether it is a session.
fn cut_is_told(
    rt: &(impl Abort + Threads + Wait + Sync + AllocGlobal),
    front: &str,
) -> Result<bool, Fail> {
    let (status, put) = replayed(rt, front.as_bytes())?;
    if front.is_empty() || front.ends_with('\n') {
        assert_eq!(rt; status, 0, "{front}");
        assert!(rt; is_session(rt.alloc(), front, &put)?, "{front}");
        return Ok(true);
    }
    let line = lines_in(front.as_bytes()).saturating_add(1);
    let named = format!(in rt.alloc(); "bad line {line} ending\n")?;
    assert_eq!(rt; status, 2, "{front}");
    assert_eq!(rt; put.as_slice(), named.as_bytes(), "{front}");
    Ok(false)
}

/// 415 fronts: one is empty, 34 end with a line, and 380 end within one.
#[test]
fn an_input_that_is_cut_is_a_session_or_has_a_bad_line(rt: HostRuntime) -> Result<(), Fail> {
    let (input, _) = TRANSFER;
    let mut sessions: usize = 0;
    for count in 0..=input.len() {
        let Some(front) = input.get(..count) else {
            return Err(Fail::from("a byte is a character"));
        };
        if cut_is_told(&rt, front)? {
            sessions = sessions.saturating_add(1);
        }
    }
    assert_eq!(rt; input.len(), 414);
    assert_eq!(rt; sessions, lines_in(input.as_bytes()).saturating_add(1));
    Ok(())
}

/// Of an input that has byte 7 between these two parts its line is named, and nothing else is put: for that byte, or for want of a line feed
/// where the byte stands in place of the last one.
fn byte_is_told(
    rt: &(impl Abort + Threads + Wait + Sync + AllocGlobal),
    front: &str,
    rest: &str,
) -> Result<(), Fail> {
    let changed = format!(in rt.alloc(); "{front}\x07{rest}")?;
    let (status, put) = replayed(rt, changed.as_bytes())?;
    let line = lines_in(front.as_bytes()).saturating_add(1);
    let why = if rest.is_empty() { "ending" } else { "bytes" };
    let named = format!(in rt.alloc(); "bad line {line} {why}\n")?;
    assert_eq!(rt; status, 2, "{changed}");
    assert_eq!(rt; put.as_slice(), named.as_bytes(), "{changed}");
    Ok(())
}

/// 414 bytes, each of which is replaced.
#[test]
fn a_line_with_a_byte_that_none_may_have_is_named(rt: HostRuntime) -> Result<(), Fail> {
    let (input, _) = TRANSFER;
    for place in 0..input.len() {
        let next = place.saturating_add(1);
        let (Some(front), Some(rest)) = (input.get(..place), input.get(next..)) else {
            return Err(Fail::from("a byte is a character"));
        };
        byte_is_told(&rt, front, rest)?;
    }
    Ok(())
}
