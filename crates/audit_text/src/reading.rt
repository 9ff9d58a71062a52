//! What is read of a printed line.
ghost use Rattle.std.specs.Prelude.{◌≡◌, IfOk, codes};
ghost use Rattle.mdb_base.specs.Words.{given};
ghost use Rattle.audit_rules.specs.Agreement as agreement;
ghost use Rattle.trace_lines.specs.Lexed.{line_in, tids_in};
ghost use Rattle.audit_text.specs.Lines as spec;
ghost use Rattle.audit_text.specs.Lines.{as_printed, printed_in};

use fed_rules::Line;
use mdb_base::{Memory, Tids};
use std::alloc::Global;
use trace_lines::{LineErr, read_line, read_tids};

/// What is read of a printed line before the report.
#[derive(Drop)]
pub enum Printed {
    /// The line of a command.
    Says(Line),
    /// The order, with which a report begins.
    Orders(Tids),
    /// It is no such line.
    Neither,
}

/// The attempts that are spelled so, where they are.
fn tids_found(alloc: Global, text: &[u8]) -> Result<Option<Tids>, Memory>
    ensures { IfOk result (λ found. found ≡ tids_in text.now) }
{
    match read_tids(alloc, text) {
        Ok(tids) => Ok(Some(Tids::of(tids))),
        Err(LineErr::NoLine) => Ok(None),
        Err(LineErr::Memory) => Err(Memory),
    }
}

/// The attempts behind `order`, each with one space before it.
fn order_behind(alloc: Global, text: &[u8]) -> Result<Option<Tids>, Memory>
    ensures { IfOk result (λ found. found ≡ spec.order_behind (Some text.now)) }
{
    match text.split_first() {
        None => Ok(Some(Tids::of(Vec::new(alloc)))),
        Some((b' ', more)) => tids_found(alloc, more),
        Some(_) => Ok(None),
    }
}

/// The attempts of the line `order`, where it is that line.
#[tactic(auto, unfolding(crate::specs::Lines::order_in, crate::specs::Lines::behind))]
fn order_of(alloc: Global, line: &[u8]) -> Result<Option<Tids>, Memory>
    ensures { IfOk result (λ found. found ≡ spec.order_in line.now) }
{
    match line.strip_prefix(b"order".as_slice()) {
        Some(text) => order_behind(alloc, text),
        None => Ok(None),
    }
}

/// The line of a command that is spelled so, where it is.
fn line_found(alloc: Global, text: &[u8]) -> Result<Option<Line>, Memory>
    ensures { IfOk result (λ found. found ≡ line_in text.now) }
{
    match read_line(alloc, text) {
        Ok(line) => Ok(Some(line)),
        Err(LineErr::NoLine) => Ok(None),
        Err(LineErr::Memory) => Err(Memory),
    }
}

/// The line of a command, or neither.
#[tactic(auto, unfolding(mdb_base::specs::Words::given))]
fn said_of(alloc: Global, line: &[u8]) -> Result<Printed, Memory>
    ensures { IfOk result (λ printed. as_printed printed ≡ given (line_in line.now) agreement.Says agreement.Neither) }
{
    match line_found(alloc, line)? {
        Some(said) => Ok(Printed::Says(said)),
        None => Ok(Printed::Neither),
    }
}

/// What is read of a line, by whether a line feed ends it: a command's line, the order, or neither. A line without its line feed is neither.
#[tactic(auto, unfolding(crate::specs::Lines::printed_in, mdb_base::specs::Words::given))]
pub fn read_printed(alloc: Global, line: &[u8], ended: bool) -> Result<Printed, Memory>
    ensures { IfOk result (λ printed. as_printed printed ≡ printed_in (record { bytes = line.now; ended = ended })) }
{
    if !ended {
        return Ok(Printed::Neither);
    }
    match order_of(alloc, line)? {
        Some(order) => Ok(Printed::Orders(order)),
        None => said_of(alloc, line),
    }
}
