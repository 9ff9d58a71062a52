//! A line from its words.
ghost use Rattle.std.specs.Prelude.{◌≡◌};
ghost use Rattle.trace_lines.specs.Reading as reading;
ghost use Rattle.trace_lines.specs.Reading.{Gives, Reads};

use crate::answers::answer_of;
use crate::commands::command_of;
use crate::error::LineErr;
use crate::fits::line_fits;
use crate::marks::{Mark, cut_at};
use crate::numbers::small_of;
use fed_rules::{Command, Line, Place, Places};
use line_text::Word;
use line_text::Word::{Attempt, Number, Sent};
use mdb_base::{SiteId, Tid};
use std::alloc::Global;

fn sent_of(alloc: Global, words: &[Word]) -> Result<Vec<Place>, LineErr>
    ensures { Reads (λ places. places.items) result (reading.sent_of words.now) }
{
    let mut places = Vec::new(alloc);
    for word in words {
        match word {
            Sent(sent) => places.push(*sent)?,
            _ => return Err(LineErr::NoLine),
        }
    }
    Ok(places)
}

fn site_sent(alloc: Global, site: SiteId, words: &[Word]) -> Result<Vec<Place>, LineErr>
    ensures { Reads (λ places. places.items) result (reading.site_sent site words.now) }
{
    match words {
        [Number(number)] => {
            let place = small_of(*number).ok_or(LineErr::NoLine)?;
            Ok([Place { site, place }].to_vec(alloc)?)
        }
        _ => Err(LineErr::NoLine),
    }
}

fn places_of(alloc: Global, command: &Command, words: &[Word]) -> Result<Vec<Place>, LineErr>
    ensures { Reads (λ places. places.items) result (reading.places_of command.now words.now) }
{
    match (command, words) {
        (_, []) => Err(LineErr::NoLine),
        (Command::Give { site, .. } | Command::Ask { site, .. }, words) => {
            site_sent(alloc, *site, words)
        }
        (_, words) => sent_of(alloc, words),
    }
}

fn line_behind(alloc: Global, command: Command, words: &[Word]) -> Result<Line, LineErr>
    ensures { Gives result (reading.line_behind command words.now) }
{
    let (front, places) = match cut_at(Mark::Sends, words) {
        None => (words, Vec::new(alloc)),
        Some((front, sent)) => (front, places_of(alloc, &command, sent)?),
    };
    let answer = answer_of(alloc, front)?;
    Ok(Line {
        command,
        answer,
        sends: Places::of(places),
    })
}

/// The line of these words, if its answer and its places are some that its command can have.
pub fn line_of(alloc: Global, words: &[Word]) -> Result<Line, LineErr>
    ensures { Gives result (reading.line_of words.now) }
{
    let (front, rest) = cut_at(Mark::Arrow, words).ok_or(LineErr::NoLine)?;
    let command = command_of(front).ok_or(LineErr::NoLine)?;
    let line = line_behind(alloc, command, rest)?;
    if line_fits(&line.command, &line.answer, line.sends.as_slice()) {
        Ok(line)
    } else {
        Err(LineErr::NoLine)
    }
}

/// The attempts of these words, each of which is one.
pub fn tids_of(alloc: Global, words: &[Word]) -> Result<Vec<Tid>, LineErr>
    ensures { Reads (λ tids. tids.items) result (reading.tids_of words.now) }
{
    let mut tids = Vec::new(alloc);
    for word in words {
        match word {
            Attempt(tid) => tids.push(*tid)?,
            _ => return Err(LineErr::NoLine),
        }
    }
    Ok(tids)
}
