//! The usual lines, told by their bytes in one pass.
ghost use Rattle.std.specs.Prelude.{◌≡◌, ◌∷◌, ◌++◌, codes, IfOk, IfSome, IsTrue};
ghost use Rattle.line_text.specs.Range.{is_place};
ghost use Rattle.line_text.specs.Spelling.{place_word};
ghost use Rattle.line_text.specs.Words.{word_text};
ghost use Rattle.trace_lines.specs.Usual.{IsText, Sends};

use crate::fits::line_fits;
use crate::fronts::{number_behind, numbers_behind};
use crate::lexing::place_at;
use crate::usual_answers::usual_answer;
use crate::usual_commands::usual_command;
use fed_rules::{Command, Line, Place, Places};
use line_text::Word;
use std::alloc::{AllocError, Global};

/// What stands behind ` =>`, where a text begins so.
fn behind_arrow(text: &[u8]) -> Option<&[u8]>
    ensures { IfSome result (λ rest. text.now ≡ codes " =>" ++ rest.now) }
{
    match text {
        [b' ', b'=', b'>', rest @ ..] => Some(rest),
        _ => None,
    }
}

/// What stands behind ` sends`, where a text begins so.
fn behind_sends(text: &[u8]) -> Option<&[u8]>
    ensures { IfSome result (λ rest. text.now ≡ codes " sends" ++ rest.now) }
{
    match text {
        [b' ', b's', b'e', b'n', b'd', b's', rest @ ..] => Some(rest),
        _ => None,
    }
}

/// The place that a text begins with, as the command spells it, and the text behind it.
fn place_behind<'a>(command: &Command, text: &'a [u8]) -> Option<(Place, &'a [u8])>
    ensures { IfSome result (λ p. IsTrue (is_place p.0) × (text.now ≡ 32 ∷ (word_text (place_word command.now p.0) ++ p.1.now))) }
{
    match command {
        Command::Give { site, .. } | Command::Ask { site, .. } => {
            let (number, rest) = number_behind(text)?;
            Some((place_at(u64::from(site.0), number)?, rest))
        }
        _ => match numbers_behind(text)? {
            (Word::Sent(sent), rest) => Some((sent, rest)),
            _ => None,
        },
    }
}

/// The places of a command behind ` sends`: at least one, and no more text.
fn places_sent(
    alloc: Global,
    command: &Command,
    text: &[u8],
) -> Result<Option<Vec<Place>>, AllocError>
    ensures { IfOk result (λ found. IfSome found (λ places. Sends command.now places.items (codes " sends" ++ text.now))) }
{
    let mut places = Vec::new(alloc);
    let mut rest = text;
    while let Some((sent, behind)) = place_behind(command, rest) {
        places.push(sent)?;
        if behind.is_empty() {
            return Ok(Some(places));
        }
        rest = behind;
    }
    Ok(None)
}

/// The places of a command, none where there is no text.
fn usual_places(
    alloc: Global,
    command: &Command,
    text: &[u8],
) -> Result<Option<Vec<Place>>, AllocError>
    ensures { IfOk result (λ found. IfSome found (λ places. Sends command.now places.items text.now)) }
{
    if text.is_empty() {
        return Ok(Some(Vec::new(alloc)));
    }
    match behind_sends(text) {
        Some(behind) => places_sent(alloc, command, behind),
        None => Ok(None),
    }
}

/// The line that a text spells, where it is a usual one.
pub fn usual_line(alloc: Global, text: &[u8]) -> Result<Option<Line>, AllocError>
    ensures { IfOk result (λ found. IfSome found (λ line. IsText line text.now)) }
{
    let Some((command, behind)) = usual_command(text) else {
        return Ok(None);
    };
    let Some(behind) = behind_arrow(behind) else {
        return Ok(None);
    };
    let Some((answer, behind)) = usual_answer(behind) else {
        return Ok(None);
    };
    let Some(places) = usual_places(alloc, &command, behind)? else {
        return Ok(None);
    };
    let line = Line {
        command,
        answer,
        sends: Places::of(places),
    };
    if line_fits(&line.command, &line.answer, line.sends.as_slice()) {
        Ok(Some(line))
    } else {
        Ok(None)
    }
}
