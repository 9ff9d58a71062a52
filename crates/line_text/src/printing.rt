//! A line as bytes. After want of memory the bytes still begin with what they were.
ghost use Rattle.std.specs.Prelude.{◌≡◌, [], ◌∷◌, ◌++◌, OnOk, OnErr, map};
ghost use Rattle.mdb_base.specs.Texts.{BeginsWith};
ghost use Rattle.line_text.specs.Spelling.{line_bytes, place_word, sends_words, spaced};

use crate::answers::put_answer;
use crate::commands::put_command;
use crate::pieces::put_count;
use fed_rules::{Command, Line, Place};
use mdb_base::{Memory, put_text};

/// Appends the place of a sent message, behind a space: its number alone, where the command names the site.
fn put_place(out: &mut Vec<u8>, command: Command, sent: Place) -> Result<(), Memory>
    ensures ok { OnOk result (out.new.items ≡ out.old.items ++ spaced (place_word command sent ∷ [])) }
    ensures err { OnErr result (BeginsWith out.old.items out.new.items) }
{
    match command {
        Command::Give { .. } | Command::Ask { .. } => put_count(out, " ", u64::from(sent.place)),
        _ => {
            put_count(out, " ", u64::from(sent.site.0))?;
            put_count(out, "/", u64::from(sent.place))
        }
    }
}

/// Appends the places of sent messages, each behind a space.
fn put_places(out: &mut Vec<u8>, command: Command, places: &[Place]) -> Result<(), Memory>
    ensures ok { OnOk result (out.new.items ≡ out.old.items ++ spaced (map (place_word command) places.now)) }
    ensures err { OnErr result (BeginsWith out.old.items out.new.items) }
{
    for sent in places {
        put_place(out, command, *sent)?;
    }
    Ok(())
}

/// Appends the words of what a line sent, each behind a space: none where it sent nothing.
fn put_sends(out: &mut Vec<u8>, command: Command, places: &[Place]) -> Result<(), Memory>
    ensures ok { OnOk result (out.new.items ≡ out.old.items ++ spaced (sends_words command places.now)) }
    ensures err { OnErr result (BeginsWith out.old.items out.new.items) }
{
    if places.is_empty() {
        return Ok(());
    }
    put_text(out, " sends")?;
    put_places(out, command, places)
}

/// Appends a line, without a line feed.
pub fn put_line(out: &mut Vec<u8>, line: &Line) -> Result<(), Memory>
    ensures ok { OnOk result (out.new.items ≡ out.old.items ++ line_bytes line.now) }
    ensures err { OnErr result (BeginsWith out.old.items out.new.items) }
{
    put_command(out, line.command)?;
    put_text(out, " =>")?;
    put_answer(out, &line.answer)?;
    put_sends(out, line.command, line.sends.as_slice())
}
