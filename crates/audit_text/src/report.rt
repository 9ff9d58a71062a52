//! The report behind the order.
ghost use Rattle.std.specs.Prelude.{◌≡◌, ◌<◌, ◌+◌, ◌^◌, IfOk, length};
ghost use Rattle.std.specs.Str.{bytes_eq};
ghost use Rattle.scenario_text.specs.Pieces.{lines};
ghost use Rattle.audit_rules.specs.Agreement.{entries, verdict_on_report};
ghost use Rattle.audit_text.specs.Lines as spec;
ghost use Rattle.audit_text.specs.Lines.{is_entry};
ghost use Rattle.audit_text.specs.Dues.{verdict_on_dues};

use crate::due::{DueLine, due_lines};
use crate::lines::{FirstLine, first_line};
use audit_rules::{Verdict, What};
use fed_rules::Report;
use mdb_base::Memory;
use std::alloc::Global;

/// Whether these are the same bytes.
fn same_bytes(there: &[u8], due: &[u8]) -> bool
    ensures { result ≡ bytes_eq there.now due.now }
{
    there == due
}

/// Whether a line has a line feed, and with it these bytes.
fn has_bytes(line: &FirstLine<'_>, bytes: &[u8]) -> bool
    ensures { result ≡ spec.has_bytes (record { bytes = line.now.bytes.now; ended = line.now.ended }) bytes.now }
{
    let Some((last, front)) = bytes.split_last() else {
        return false;
    };
    if !line.ended {
        return false;
    }
    if *last != b'\n' {
        return false;
    }
    same_bytes(line.bytes, front)
}

/// The verdict where these lines are due, and nothing more.
fn due_verdict(due: &[DueLine], number: u32, text: &[u8]) -> Verdict
    requires { number + length text.now < 2 ^ 32 }
    ensures { result ≡ verdict_on_dues number due.now (lines text.now) }
{
    let mut rest = text;
    let mut line: u32 = number;
    for one in due {
        if rest.is_empty() {
            return Verdict::Differs {
                line,
                what: What::Form,
            };
        }
        let there = first_line(rest);
        if !has_bytes(&there, one.bytes.as_slice()) {
            return Verdict::Differs {
                line,
                what: one.what,
            };
        }
        rest = there.behind;
        line += 1;
    }
    if rest.is_empty() {
        Verdict::Agrees
    } else {
        Verdict::Differs {
            line,
            what: What::Form,
        }
    }
}

/// The verdict on the text behind the order, whose first line has this number, where this report is due: each line of it behind its order,
/// and nothing more.
#[tactic(auto, using(crate::proofs::DueLines::by_entries))]
pub fn report_verdict(
    alloc: Global,
    report: &Report,
    number: u32,
    text: &[u8],
) -> Result<Verdict, Memory>
    requires { number + length text.now < 2 ^ 32 }
    ensures { IfOk result (λ verdict. verdict ≡ verdict_on_report is_entry number (entries report.now) (lines text.now)) }
{
    let due = due_lines(alloc, report)?;
    Ok(due_verdict(due.as_slice(), number, text))
}
