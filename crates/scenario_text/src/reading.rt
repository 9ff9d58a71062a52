//! Reading a whole text.
ghost use Rattle.std.specs.Prelude.{true, false, ◌≡◌, ◌<◌, ◌∷◌, length, IfOk, IfErr, IfSome, MatchResult};
ghost use Rattle.scenario_text.specs.FirstBad.{NamesFirstBad};
ghost use Rattle.scenario_text.specs.FirstLines.{RefusesFirst, Says, TakesFirst, command_said};
ghost use Rattle.scenario_text.specs.Kept.{IsDraft, AreCommands};
ghost use Rattle.scenario_text.specs.Pieces.{lines};
ghost use Rattle.scenario_text.specs.Drafts.{plan_of};
ghost use Rattle.scenario_text.specs.Texts.{Answers, most_bytes, scenario_of, session_of};
ghost use Rattle.scenario_text.specs.Texts as texts;

use crate::bad::{BadLine, TextErr};
use crate::draft::Draft;
use crate::fault::Fault;
use crate::pieces::cut;
use crate::session::Session;
use crate::usual_commands::usual_command;
use fed_rules::{Command, Commands, Scenario};
use std::alloc::Global;

/// The first line of a text that isn't empty, whether a line feed ends it, and the text behind it.
#[tactic(auto, using(crate::proofs::PieceLemmas::ended_line, crate::proofs::PieceLemmas::last_line))]
fn first_line(text: &[u8]) -> (&[u8], bool, &[u8])
    requires { 0 < length text.now }
    ensures lines { lines text.now ≡ record { bytes = result.0.now; ended = result.1 } ∷ lines result.2.now }
    ensures shorter { length result.2.now < length text.now }
{
    match cut(text, b'\n') {
        Some((line, rest)) => (line, true, rest),
        None => (text, false, &[]),
    }
}

/// The usual command that the first line of a text says, where commands are read, and the text behind that line.
fn next_command<'a>(draft: &Draft, text: &'a [u8]) -> Option<(Command, &'a [u8])>
    ensures { IfSome result (λ p. (draft.now.in_commands ≡ true) × Says (command_said draft.now.sites) most_bytes p.0 text.now p.1.now) }
{
    if draft.in_commands {
        usual_command(&draft.sites, text)
    } else {
        None
    }
}

/// Takes the first line of a text that isn't empty, cut out of it, and says what stands behind it. A draft that refused a line is of no
/// further use.
#[inline(never)]
fn take_cut<'a>(
    draft: &mut Draft,
    alloc: Global,
    with_commands: bool,
    text: &'a [u8],
) -> Result<&'a [u8], Fault>
    requires { 0 < length text.now }
    ensures taken { MatchResult result (λ rest. TakesFirst with_commands text.now draft.old draft.new rest.now) (λ fault. RefusesFirst with_commands text.now draft.old fault) }
    ensures shorter { IfOk result (λ rest. length rest.now < length text.now) }
{
    let (line, ended, rest) = first_line(text);
    draft.take_line(alloc, with_commands, line, ended)?;
    Ok(rest)
}

/// Takes the first line of a text that isn't empty, and says what stands behind it. A draft that refused a line is of no further use.
fn take_first<'a>(
    draft: &mut Draft,
    alloc: Global,
    with_commands: bool,
    text: &'a [u8],
) -> Result<&'a [u8], Fault>
    requires { 0 < length text.now }
    ensures taken { MatchResult result (λ rest. TakesFirst with_commands text.now draft.old draft.new rest.now) (λ fault. RefusesFirst with_commands text.now draft.old fault) }
    ensures shorter { IfOk result (λ rest. length rest.now < length text.now) }
{
    if let Some((command, rest)) = next_command(draft, text) {
        draft.commands.add(command)?;
        return Ok(rest);
    }
    take_cut(draft, alloc, with_commands, text)
}

/// Why a text isn't read, where this is why its line isn't.
fn at_line(line: u32, fault: Fault) -> TextErr
    ensures { result ≡ texts.at_line line fault }
{
    match fault {
        Fault::Bad(why) => TextErr::Bad(BadLine { line, why }),
        Fault::Memory => TextErr::Memory,
    }
}

/// What all lines of a text say, or the first bad line.
fn draft_of(alloc: Global, with_commands: bool, text: &[u8]) -> Result<Draft, TextErr>
    ensures exact { Answers result (texts.draft_of with_commands text.now) }
    ensures kept { IfOk result IsDraft }
    ensures first { IfErr result (NamesFirstBad with_commands text.now) }
{
    let mut draft = Draft::new(alloc);
    let mut rest = text;
    let mut number: u32 = 1;
    while !rest.is_empty() {
        match take_first(&mut draft, alloc, with_commands, rest) {
            Ok(more) => rest = more,
            Err(fault) => {
                drop(draft);
                return Err(at_line(number, fault));
            }
        }
        number += 1;
    }
    Ok(draft)
}

/// The scenario that a draft makes, with its commands, without memory.
fn finished(draft: Draft) -> (Scenario, Commands)
    requires { IsDraft draft }
    ensures scenario { result.0 ≡ plan_of draft }
    ensures commands { result.1 ≡ draft.commands }
{
    let Draft {
        sites,
        items,
        transactions,
        clients,
        turns,
        tries,
        conservative,
        links,
        stops,
        in_commands: _,
        commands,
    } = draft;
    let scenario = Scenario {
        sites: sites.into_lines(),
        items: items.into_lines(),
        transactions: transactions.into_lines(),
        clients: clients.unwrap_or(4),
        turns: turns.unwrap_or(1_000),
        tries: tries.unwrap_or(4),
        links: links.into_lines(),
        stops: stops.into_lines(),
        conservative: conservative.unwrap_or(false),
    };
    (scenario, commands.into_commands())
}

/// The scenario that a text without commands spells. A text that spells none is refused with its first bad line, counted from 1,
/// and the first reason at which that line fails (this project's profile).
#[tactic(auto, unfolding(crate::specs::Texts::scenario_of))]
pub fn read_scenario(alloc: Global, text: &[u8]) -> Result<Scenario, TextErr>
    // The scenario, or the first bad line.
    ensures exact { Answers result (scenario_of text.now) }
    ensures first { IfErr result (NamesFirstBad false text.now) }
{
    let draft = draft_of(alloc, false, text)?;
    Ok(finished(draft).0)
}

/// The scenario that a text spells, with the commands behind its line `commands`, if it has one. A text that spells none is refused
/// with its first bad line, counted from 1, and the first reason at which that line fails (this project's profile).
#[tactic(auto, unfolding(crate::specs::Texts::session_of))]
pub fn read_commands(alloc: Global, text: &[u8]) -> Result<Session, TextErr>
    // The scenario with its commands, or the first bad line.
    ensures exact { Answers result (session_of text.now) }
    ensures first { IfErr result (NamesFirstBad true text.now) }
    // Each command is in its range and names a declared site or actor.
    ensures commands { IfOk result (λ s. AreCommands s.scenario.sites s.commands) }
{
    let draft = draft_of(alloc, true, text)?;
    let (scenario, commands) = finished(draft);
    Ok(Session { scenario, commands })
}
