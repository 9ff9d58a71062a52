//! What a source gives: a session, or a scenario.
ghost use Rattle.std.specs.Prelude.{◌≡◌, ◌≤◌, ◌+◌, IfOk, IsTrue, IsErrOf, drop};
ghost use Rattle.mdb_base.specs.Counts.{HasCauseOf};
ghost use Rattle.scenario_text.specs.Kept.{AreCommands};
ghost use Rattle.scenario_text.specs.Texts.{scenario_of, session_of};
ghost use Rattle.mdb_top.specs.Streams.{longest};
ghost use Rattle.mdb_top.specs.Verdicts.{verdict};
ghost use Rattle.mdb_top.specs.Inputs.{SomeInput, Tells, WasRead};

use crate::reading::{LONGEST, ReadErr, read_all};
use crate::streams::Source;
use fed_rules::Scenario;
use scenario_text::{BadLine, Session, TextErr, read_commands, read_scenario};
use std::alloc::Global;

/// Why a source gives neither.
#[derive(Clone, Copy, Debug, PartialEq, Eq)]
pub(crate) enum Unplayed {
    /// A read failed.
    Failed,
    /// There are too many bytes.
    TooLong,
    /// The bytes spell nothing of that kind.
    BadLine(BadLine),
    Memory,
}

/// The session that a text spells.
fn session_in(alloc: Global, text: &[u8]) -> Result<Session, Unplayed>
    ensures told { Tells result (verdict session_of text.now) }
    ensures whole { ¬ IsErrOf result Unplayed.Failed }
    ensures commands { IfOk result (λ session. AreCommands session.scenario.sites session.commands) }
{
    if text.len() > LONGEST {
        return Err(Unplayed::TooLong);
    }
    match read_commands(alloc, text) {
        Ok(session) => Ok(session),
        Err(TextErr::Bad(bad)) => Err(Unplayed::BadLine(bad)),
        Err(TextErr::Memory) => Err(Unplayed::Memory),
    }
}

/// The scenario that a text spells.
fn scenario_in(alloc: Global, text: &[u8]) -> Result<Scenario, Unplayed>
    ensures told { Tells result (verdict scenario_of text.now) }
    ensures whole { ¬ IsErrOf result Unplayed.Failed }
{
    if text.len() > LONGEST {
        return Err(Unplayed::TooLong);
    }
    match read_scenario(alloc, text) {
        Ok(scenario) => Ok(scenario),
        Err(TextErr::Bad(bad)) => Err(Unplayed::BadLine(bad)),
        Err(TextErr::Memory) => Err(Unplayed::Memory),
    }
}

/// The session that the source's bytes spell. They are read to their end, or to byte 4,194,305.
pub(crate) fn read_session<S: Source>(alloc: Global, source: &mut S) -> Result<Session, Unplayed>
    ensures told { SomeInput S.tells (S.left source.old) (λ input. Tells result (verdict session_of input)) }
    ensures read { WasRead result → IsTrue S.tells → S.left source.new ≡ drop (longest + 1) (S.left source.old) }
    ensures commands { IfOk result (λ session. AreCommands session.scenario.sites session.commands) }
    ensures cause { HasCauseOf Unplayed.Failed (S.faults source.old) (S.faults source.new) result }
{
    match read_all(alloc, source) {
        Ok(text) => session_in(alloc, &text),
        Err(ReadErr::Failed) => Err(Unplayed::Failed),
        Err(ReadErr::Memory) => Err(Unplayed::Memory),
    }
}

/// The scenario that the source's bytes spell, which has no commands. They are read as those of a session.
pub(crate) fn read_plan<S: Source>(alloc: Global, source: &mut S) -> Result<Scenario, Unplayed>
    ensures told { SomeInput S.tells (S.left source.old) (λ input. Tells result (verdict scenario_of input)) }
    ensures read { WasRead result → IsTrue S.tells → S.left source.new ≡ drop (longest + 1) (S.left source.old) }
    ensures cause { HasCauseOf Unplayed.Failed (S.faults source.old) (S.faults source.new) result }
{
    match read_all(alloc, source) {
        Ok(text) => scenario_in(alloc, &text),
        Err(ReadErr::Failed) => Err(Unplayed::Failed),
        Err(ReadErr::Memory) => Err(Unplayed::Memory),
    }
}
