//! Whether an output is the one that is wanted.
use crate::headers::number;
use crate::wrong::Wrong;

/// What stands before and after the edges of a cycle; after them the places of what is sent may stand.
fn around_edges(line: &str) -> Option<(&str, &str)> {
    let (front, edges) = line.split_once(" cycle ")?;
    match edges.split_once(" sends ") {
        Some((_, places)) => Some((front, places)),
        None => Some((front, "")),
    }
}

/// Whether a line is the one that is wanted. The edges of a cycle are free, since there may be several.
fn is_alike(wanted: &str, line: &str) -> bool {
    if wanted == line {
        return true;
    }
    match (around_edges(wanted), around_edges(line)) {
        (Some((front, places)), Some((other, others))) => front == other && places == others,
        _ => false,
    }
}

/// The output is the one that is wanted.
pub(crate) fn is_output(wanted: &str, output: &str) -> Result<(), Wrong> {
    let mut number: u32 = 0;
    let mut lines = output.split('\n');
    for line in wanted.split('\n') {
        number = number.saturating_add(1);
        match lines.next() {
            Some(there) if is_alike(line, there) => {}
            _ => return Err(Wrong::Output { line: number }),
        }
    }
    match lines.next() {
        Some(_) => Err(Wrong::Output {
            line: number.saturating_add(1),
        }),
        None => Ok(()),
    }
}

/// The output begins with the lines that are wanted.
pub(crate) fn begins_with(wanted: &str, output: &str) -> Result<(), Wrong> {
    let mut number: u32 = 0;
    let mut lines = output.lines();
    for line in wanted.lines() {
        number = number.saturating_add(1);
        match lines.next() {
            Some(there) if is_alike(line, there) => {}
            _ => return Err(Wrong::Output { line: number }),
        }
    }
    Ok(())
}

/// How many of the lines are this one.
fn count_of(output: &str, wanted: &str) -> u32 {
    let mut count: u32 = 0;
    for line in output.lines() {
        if line == wanted {
            count = count.saturating_add(1);
        }
    }
    count
}

/// Each of the wanted lines stands once in the output.
pub(crate) fn has_each(wanted: &str, output: &str) -> Result<(), Wrong> {
    let mut number: u32 = 0;
    for line in wanted.lines() {
        number = number.saturating_add(1);
        if count_of(output, line) != 1 {
            return Err(Wrong::Line { line: number });
        }
    }
    Ok(())
}

/// How many of these attempts are of this transaction.
fn count_of_attempts(attempts: &str, tx: &str) -> u32 {
    let mut count: u32 = 0;
    for attempt in attempts.split(' ') {
        if let Some((number, _)) = attempt.split_once('.') {
            if number == tx {
                count = count.saturating_add(1);
            }
        }
    }
    count
}

/// How often the order of the output has an attempt of this transaction.
fn times_ordered(output: &str, tx: &str) -> u32 {
    for line in output.lines() {
        if let Some(attempts) = line.strip_prefix("order ") {
            return count_of_attempts(attempts, tx);
        }
    }
    0
}

/// The order of the output has each of these transactions once.
pub(crate) fn orders_each(wanted: &str, output: &str) -> Result<(), Wrong> {
    for tx in wanted.split(' ') {
        if times_ordered(output, tx) != 1 {
            return Err(Wrong::Order { tx: number(tx)? });
        }
    }
    Ok(())
}
