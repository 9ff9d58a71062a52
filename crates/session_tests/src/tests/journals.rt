//! What journals say of a session of one global transaction at three sites, by the first bytes of their records alone.
use std::alloc::Global;
use std::test::Fail;

// The first byte of a record of the coordinator.
const INITIATION: u8 = 1;

const COMMIT: u8 = 2;

const END: u8 = 3;

// And of a site.
const START: u8 = 2;

const PREPARED: u8 = 3;

const ENDED: u8 = 4;

/// The first bytes of the records of a journal whose frames are of version 2, up to a torn rest: two bytes of 0, the payload's length in two
/// bytes, the payload, and a digest of 32 bytes.
fn kinds_in(alloc: Global, journal: &[u8]) -> Result<Vec<u8>, Fail> {
    let mut kinds = Vec::new(alloc);
    let mut rest = journal;
    for _ in 0..journal.len() {
        let [0, 0, high, low, kind, ..] = rest else {
            break;
        };
        let payload = usize::from(u16::from_be_bytes([*high, *low]));
        let Some(next) = rest.get(payload.saturating_add(36)..) else {
            break;
        };
        kinds.push(*kind)?;
        rest = next;
    }
    Ok(kinds)
}

/// How many records of this kind there are.
fn count_of(kinds: &[u8], kind: u8) -> usize {
    kinds.iter().filter(|it| **it == kind).count()
}

/// The lines by which the actors come back that have a record. An attempt is known where it has begun and hasn't ended. The epoch of a site is
/// the number of its starts, and in doubt is what is prepared and hasn't ended.
pub(super) fn returns_by(alloc: Global, journals: &[Vec<u8>]) -> Result<String, Fail> {
    let mut lines = String::new(alloc);
    for (actor, journal) in journals.iter().enumerate() {
        let kinds = kinds_in(alloc, journal)?;
        if actor == 0 {
            let known = count_of(&kinds, INITIATION).saturating_sub(count_of(&kinds, END));
            lines.push_str(&format!(in alloc; "back 0 => up known {known}\n")?)?;
        } else if !kinds.is_empty() {
            let epoch = count_of(&kinds, START).saturating_add(1);
            let doubtful = count_of(&kinds, PREPARED).saturating_sub(count_of(&kinds, ENDED));
            lines.push_str(&format!(in alloc;
                "back {actor} => up epoch {epoch} doubtful {doubtful}\n"
            )?)?;
        }
    }
    Ok(lines)
}

/// What is said of the attempt: it commits exactly where the coordinator has a Commit record of it.
fn outcome_by(coordinator: &[u8]) -> &'static str {
    if coordinator.contains(&COMMIT) {
        "outcome 1.0 commit\nforgotten 1.0\n"
    } else if coordinator.contains(&INITIATION) {
        "outcome 1.0 abort\nforgotten 1.0\n"
    } else {
        "forgotten\n"
    }
}

/// The table of a site as a line: site S writes 11 * S to key S where the attempt commits.
fn table_by(alloc: Global, site: usize, commits: bool) -> Result<String, Fail> {
    if commits {
        Ok(format!(in alloc; "table {site} {site}={site}{site}\n")?)
    } else {
        Ok(format!(in alloc; "table {site}\n")?)
    }
}

/// The report of a session that goes on from these journals: the outcome, what is forgotten, and a table of each site that has a record.
pub(super) fn report_by(alloc: Global, journals: &[Vec<u8>]) -> Result<String, Fail> {
    let mut report = String::new(alloc);
    let mut commits = false;
    for (actor, journal) in journals.iter().enumerate() {
        let kinds = kinds_in(alloc, journal)?;
        if actor == 0 {
            report.push_str(outcome_by(&kinds))?;
            commits = kinds.contains(&COMMIT);
        } else if !kinds.is_empty() {
            report.push_str(&table_by(alloc, actor, commits)?)?;
        }
    }
    report.push_str("end\n")?;
    Ok(report)
}
